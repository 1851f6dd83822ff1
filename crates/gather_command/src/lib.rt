//! The command `gather` of work units.
//!
//! [`gather`] reads a network, the jobs that were handed out on a tree of it, and files of answers. Over the journal that is named it takes
//! each answer that fits, and then writes what came of each: `specs/Told.antt` says which text that is. What a file of answers says is defined
//! in `specs/Answers.antt`; when each status comes, in `specs/GatherEnds.antt`; and what is left of the journal, in `specs/Journaled.antt`. It
//! has a type for how it ended, and the status of each such end (`From`).
//!
//! The layer above may use the clauses of this call. Its proofs may cite `proofs/Decided.antt`: which status comes, by what the files say. It
//! leaves to others how a text is read, how an answer is judged, and how a journal is kept.
#![tactic(auto)]

mod answers;
mod brought;
mod gathering;
mod outcome;
mod told;

pub use gathering::gather;
pub use outcome::GatherOutcome;
