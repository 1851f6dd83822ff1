//! The top call: what the program does, over any shelf of files, any sink and any disk.
//!
//! `run` takes the words of the command line, a shelf that files are read from and a sink for what is printed, and answers
//! a status. Its contract is the promise of the whole program. Of `solve`, what the sink took is the text of a certificate
//! whose plan obeys the network of the named file exactly, whose bound holds for every plan of any denominator, and whose
//! gap is their exact difference. Of `check`, it is the line of a valid certificate, of which all that is claimed follows,
//! or the line of the first cause to refuse it; of `report`, the report of that certificate, or that line. Of `formulate`, it is
//! the text of an exact program of the network, of `make` the text of the network of a number, and of `trial` four lines on a search
//! of that network. Of `jobs` it is the text of jobs on leaves of a journal's tree, of `work` that of answers to jobs, and of `gather` a line on
//! each answer. Of `tight` it is the text of marks on the leaves of a valid certificate, and of `checktight` the line of marks that hold, or that of
//! the first cause to refuse them. And it says when each other status comes. The words of that contract are in `specs/Ends.antt`, which has a line
//! for each command. What each command promises stands in a file of its own: `specs/FormulateEnds.antt`, `MakeEnds.antt` and
//! `TrialEnds.antt` here, `SolveEnds.antt` in `solve_command`, `CheckEnds.antt` and `ReportEnds.antt` in `certificate_commands`, `JobsEnds.antt` and
//! `WorkEnds.antt` in `job_commands`, `GatherEnds.antt` in `gather_command`, and `TightEnds.antt` and `CheckTightEnds.antt` in `tight_commands`.
//!
//! [`printed_law`] says of two runs, by these clauses alone, that `check` takes what `solve` printed.
//!
//! The layer above may use `run`, and of `run_status` the status that it answers: `Status::code` and `write_message`. It brings the real
//! files and streams. Its proofs may cite `proofs/Admitting.antt`: whoever may ask for every name may ask for those that words name. What a file
//! says is left to `network_json`, and the text of a certificate to `cert_format`.
#![tactic(auto)]

mod command;
mod formulate;
mod laws;
mod make;
mod trial;

pub use command::run;
pub use laws::printed_law;
pub use run_status::{Status, write_message};
