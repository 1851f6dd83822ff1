//! A list of splits that cut a network's box of all plans into smaller and smaller ones.
//!
//! Node 0 is the root, the box of all plans. Split number t, from 0, cuts a leaf into the nodes 2t + 1, left, and 2t + 2, right.
//! [`SplitTree::judge`] says whether a split may come next, or why not; [`SplitTree::push`] adds it. [`SplitTree::box_of`] is the
//! box of any node, [`SplitTree::half_box`] that of a half before the split is added. Trees of splits are defined in `row_model`;
//! `specs/Splits.antt` says when one is a network's, `specs/Faults.antt` when a split is refused.
//!
//! To judge a split takes a few steps, however deep the tree is, since each leaf that was cut keeps the innermost cut above it of every
//! coordinate. The box of a node takes memory for the box and steps for its ends: from the node up to the root where at most
//! two splits a coordinate are above it, and else a few for each coordinate. Nothing here recurses.
//!
//! Bounds, proofs and plans are left to the crates above.
//! Their proofs may cite `proofs/Innermost.antt`: the box of a node by its innermost cuts.
#![tactic(auto)]

mod boxes;
mod fault;
mod judging;
mod span;
mod splits;

pub use fault::SplitFault;
pub use span::{Side, Span};
pub use splits::{MAX_SPLITS, SplitTree};
