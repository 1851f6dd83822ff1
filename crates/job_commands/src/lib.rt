//! The commands of work units: `jobs` and `work`.
//!
//! [`jobs`] opens a journal, hands out leaves of the tree that it holds, and writes the text of the jobs. Nothing is recorded. What it writes,
//! and when each status comes, is said in `specs/JobsEnds.antt`, and what it leaves of the journal in `specs/Kept.antt`. [`work`] answers the
//! jobs in a file, and writes the text of the answers; the same of it stands in `specs/WorkEnds.antt`. Each has a type for how it ended, and
//! the status of each such end (`From`).
//!
//! [`handed_out_under`] reads the jobs in the file of a name, with the tree that they are on, or says why there are none ([`Unhanded`]).
//! What a file says of jobs is defined in `specs/Handed.antt`.
//!
//! The layer above may use the clauses of these. Its proofs may cite `proofs/JobFiles.antt` (a file spells jobs in one way, and one that is
//! refused spells none that fit) and `proofs/Decided.antt` (which status comes, by what the files say). It leaves to others how a text is
//! read and written, how a journal is kept, and what work on a leaf brings.
#![tactic(auto)]

mod handed;
mod handing;
mod ranges;
mod working;

pub use handed::{MOST_JOBS, Unhanded, handed_out_under};
pub use handing::{JobsOutcome, jobs};
pub use job_trees::HandedOut;
pub use working::{WorkOutcome, work};
