//! What a jobs text says.

use box_space::Split;
use work_units::Job;

/// Jobs on leaves of a tree, with the network and the tree that they are of.
#[derive(Debug, Drop)]
pub struct JobsText {
    /// How many sources, pools, products, qualities, feeds, outs and directs the network has.
    pub shape: [u32; 7],
    /// The splits of the tree, in order.
    pub splits: Vec<Split>,
    pub jobs: Vec<Job>,
}
