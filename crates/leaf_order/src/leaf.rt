//! A leaf with its bound.

/// A leaf that may hold a plan. Leaves are ordered by their bounds, and at a tie by their numbers.
#[derive(Clone, Copy, Debug, PartialEq, Eq, PartialOrd, Ord)]
pub struct OpenLeaf {
    /// The bound, in picos.
    pub bound: i128,
    /// The number of its node.
    pub node: u32,
}
