//! How many there are of each kind in a network.

/// How many nodes, qualities, arcs of each kind and paths a network has.
#[derive(Clone, Copy)]
pub struct Counts {
    pub sources: u32,
    pub pools: u32,
    pub products: u32,
    pub qualities: u32,
    pub feeds: u32,
    pub outs: u32,
    pub directs: u32,
    pub paths: u32,
}
