//! Plans as they are written, and their cost.

/// A plan as it is written. For each feed there is its weight in its pool, over `base`; for each out and each direct its
/// flow in millionths, over `flow_base`. The lists go by number, each arc in file order.
#[derive(Debug, Drop)]
pub struct WrittenPlan {
    pub base: u32,
    pub flow_base: u32,
    pub weights: Vec<u32>,
    pub outflows: Vec<u64>,
    pub direct: Vec<u64>,
}

/// What a plan costs: `num / base` picos.
#[derive(Clone, Copy, Debug, PartialEq, Eq)]
pub struct Cost {
    pub num: i128,
    pub base: u64,
}
