//! The command `solve`.
//!
//! [`solve`] reads the network in the file that the words name, has it searched within the budget, and prints the certificate of what was
//! found. With a journal it goes on from the entries in that file, and records each entry there before it is taken. What it writes and
//! when each status comes is said in `specs/SolveEnds.antt`, and what it leaves of the journal in `specs/Journaled.antt`. It has a type for
//! how it ended, and the status of each such end (`From`).
//!
//! [`solution_of`] is the certificate of a search that begins with the root alone, as a [`Solution`]; what such a certificate is for its
//! network stands in `specs/Solution.antt`. [`ended_status`] is the status of a search that ended so.
//!
//! The layer above may use the clauses of these. Its proofs may cite `proofs/Decided.antt`: which status comes, by what the files say. It leaves
//! to others how a search goes, what makes a certificate valid, and how a journal is kept.
#![tactic(auto)]

mod budget;
mod ended;
mod recorded;
mod solution;
mod solving;

pub use ended::ended_status;
pub use solution::{Solution, solution_of};
pub use solving::{SolveOutcome, solve};
