//! Answers to jobs are gathered over a journal: each answer that fits stands in the journal before the desk takes it.
//!
//! [`gather`] opens the journal of a network on the file that is attached, makes the tree of its entries, and begins a desk over it with the
//! jobs that were handed out. Jobs are on nodes of a tree of their own, which is known by its splits: where the recovered tree doesn't begin
//! with them, it is [`GatherFault::OtherTree`], and nothing is recorded. Else each answer of each file is judged in order. One that fits is
//! recorded, and then taken; any other changes nothing. Of each answer, and of each file that spells none, a [`Line`] tells what came of it.
//!
//! A crash at any moment leaves the file as it was, or the network's own file, for a list that begins with the entries that were found and
//! goes on with those of the answers that were taken. The journal grows by exactly these; where disk or memory failed, it may hold one
//! entry more, of the answer that was judged to fit last.
//!
//! `specs/Files.antt` says what files bring, `specs/Events.antt` what came of it, `specs/Gatherings.antt` what is gathered and what the
//! disk holds then, and `specs/Causes.antt` why nothing is. How an answer is judged is said in `work_units`, and what a crash leaves of a
//! journal in `recorded_run`.
//!
//! The layer above attaches the file, reads jobs and answers from their files, and writes what is told.
#![tactic(auto)]

mod fault;
mod files;
mod gathering;
mod prefix;
mod running;
mod told;

pub use fault::GatherFault;
pub use files::AnswersFile;
pub use running::gather;
pub use told::{Gathered, Line};
