//! What is said of the leaves of a tree.

use box_space::Form;
use leaf_marks::Mark;

/// A leaf and its mark.
#[derive(Debug, Drop)]
pub struct LeafMark {
    /// The leaf's node.
    pub node: u32,
    pub mark: Mark,
}

/// What a form's rows allow in the boxes of the leaves of a tree.
#[derive(Debug, Drop)]
pub struct TightText {
    pub form: Form,
    /// How many pivots the exact run of a box may take.
    pub pivots: u32,
    pub marks: Vec<LeafMark>,
    /// The bound that the marks come to, in picos. None where no leaf may hold a plan.
    pub bound: Option<i128>,
}
