//! What is known once cuts of a leaf are solved. It is advice: no clause speaks of it.

use std::alloc::Global;

/// A cut of a leaf in the middle of a coordinate, both of whose halves are solved.
#[derive(Debug, Drop)]
pub struct SolvedCut {
    pub coord: u32,
    /// What is known of each half, in picos: None where it holds no plan.
    pub bounds: [Option<i128>; 2],
    /// The basis at which the program of each half ended, from which that of a box inside it can start.
    pub left: Vec<u32>,
    pub right: Vec<u32>,
}

/// The cuts of a leaf that are solved, in the order in which they were looked at.
#[derive(Debug, Drop)]
pub struct SolvedCuts {
    /// The basis at which the leaf's own program ended.
    pub basis: Vec<u32>,
    pub cuts: Vec<SolvedCut>,
}

impl SolvedCuts {
    /// Nothing is solved.
    pub fn none(alloc: Global) -> SolvedCuts {
        SolvedCuts {
            basis: Vec::new(alloc),
            cuts: Vec::new(alloc),
        }
    }
}
