//! Leaves of a search, in the order in which they are cut: by bound, and at a tie by number.
//!
//! A [`LeafOrder`] is a set of [`OpenLeaf`]s. [`LeafOrder::put`] puts the halves of a leaf in, or leaves the set as it was where there
//! is no memory; [`LeafOrder::take_out`], which takes none, takes a leaf out. [`LeafOrder::first`] answers the leaf of the least bound,
//! and [`LeafOrder::nodes`] the first few. Each takes a number of steps that grows with the logarithm of the set's size. Contracts see
//! the set as the list of its leaves, in order (`specs/Order.antt`).
//!
//! Which leaves belong into the set is left to the layer above.
//!
//! Proofs above may cite `proofs/Sets.antt`: what a set has with a leaf more, or with one less.
#![tactic(auto)]

mod leaf;
mod order;

pub use leaf::OpenLeaf;
pub use order::LeafOrder;
