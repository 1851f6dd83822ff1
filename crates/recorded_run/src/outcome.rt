//! What a run leaves.

use box_tree::Tree;
use search_core::Ended;

/// What a run leaves.
#[derive(Drop)]
pub struct Outcome {
    /// The tree, with the cheapest plan.
    pub tree: Tree,
    pub ended: Ended,
}
