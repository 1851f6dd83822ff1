//! The tree of boxes that a search makes, entry by entry, with the bound that it shows.
//!
//! A [`Tree`] begins with the box of all plans. An [`Entry`] proves the root, splits a leaf, or brings a cheaper plan;
//! [`Tree::apply`] takes it where it is in order, and else answers the first [`EntryFault`] and leaves the tree as it was.
//! [`Tree::bound`] is then below what any plan costs, and [`Tree::best_plan`] is the cheapest plan so far. The leaves that may hold a
//! plan are kept in the order of their bounds ([`Tree::open_leaves`]), and so are the numbers of splits on each coordinate
//! ([`Tree::cuts`]): neither is looked for among the nodes.
//!
//! Trees, bounds and entries in order are defined in `row_model`; `specs/Open.antt` says which leaves are open, and in which order,
//! `specs/Counts.antt` what is counted; `specs/EntryFaults.antt` says when a fault holds, and
//! `specs/Kept.antt` when a tree is a network's. The splits and the boxes of nodes are those of `split_tree`. Which leaf to split,
//! and where, is left to the crates above.
//!
//! Proofs above may cite, of `proofs/`: `Improving` (kept costs compare as the plans do, and what is kept with a cheaper plan is a
//! network's again), `Refusals` (no fault comes before the first one that is found, and an entry with a fault is not in order),
//! `Growing` (the bounds of nodes after a split) and `Rooting` (a tree whose root is not cut has no splits).
#![tactic(auto)]

mod apply;
mod entry;
mod leaves;
mod splitting;
mod tree;

pub use entry::{Entry, EntryFault};
pub use tree::{Best, Tree, TreeParts};
