//! The tree that jobs are handed out with, made of what their text says.
//!
//! A jobs text names the counts of a network, the splits of a tree and jobs on its nodes. [`tree_of_jobs`] takes what was read of one: where
//! it fits the network, it makes the tree of the splits, without proofs, and hands on the jobs. `specs/Fitting.antt` says when jobs fit,
//! one condition after another. A tree without proofs gives each leaf the bound of the root.
//!
//! How the text is read is said in `job_texts`. Who works on the jobs, and what comes of the answers, is left to the layers above.
#![tactic(auto)]

mod fault;
mod leaves;
mod splits;
mod tree;

pub use fault::JobsFault;
pub use tree::{HandedOut, tree_of_jobs};
