//! Jobs worked: leaves of a tree that were handed out, each cut, with what is proved of both halves.
//!
//! [`answers_to`] answers jobs on leaves of a tree. It gives an `Answer` of `work_units` for each job whose leaf can be cut at a coordinate
//! of the form, in the order of the jobs, and none for the others. An answer cuts its leaf in the middle of the widest of these coordinates,
//! and each half has the proof that rounding gives for it above the leaf's bound, where it gives one. In a tree without proofs this is the reach
//! bound; it is so too for a leaf that the tree knows to hold no plan. A desk over the tree takes each answer, while the tree has room
//! for one more split.
//!
//! `specs/Worked.antt` says what an answer brings, and `specs/Answered.antt` which jobs have one, and that desks take them.
//!
//! Proofs above may cite, of `proofs/`: `OnLeaves` (the jobs that a tree hands out are on leaves of it).
//!
//! How a leaf is solved is left to `leaf_cuts`, what becomes of answers to `work_units`, and how jobs and answers are written to the
//! layers above.
#![tactic(auto)]

mod answers;
mod leaf;

pub use answers::answers_to;
