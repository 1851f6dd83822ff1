//! Points of the exact programs.

/// A point of form Q or Pq. Flows are whole numbers over `base`, proportions over `prop_base`.
#[derive(Debug, Drop)]
pub struct PropPoint {
    /// What the flows are counted in: so many parts of a millionth.
    pub base: u64,
    /// What the proportions are counted in.
    pub prop_base: u32,
    /// Each feed's proportion in its pool.
    pub props: Vec<u32>,
    /// What flows along each feed.
    pub x: Vec<u128>,
    /// What flows along each out.
    pub y: Vec<u128>,
    /// What flows along each direct.
    pub z: Vec<u128>,
    /// What flows along each path.
    pub w: Vec<u128>,
}

/// A point of form P. Flows are whole numbers over `base`, qualities over `qual_base`, both of millionths.
#[derive(Debug, Drop)]
pub struct QualPoint {
    /// What the flows are counted in: so many parts of a millionth.
    pub base: u64,
    /// What the qualities are counted in.
    pub qual_base: u32,
    /// Each quality of each pool, by pool and then by quality.
    pub quals: Vec<i128>,
    /// What flows along each feed.
    pub x: Vec<u128>,
    /// What flows along each out.
    pub y: Vec<u128>,
    /// What flows along each direct.
    pub z: Vec<u128>,
    /// For each out and each quality its pool's quality times its flow, over `base`; by out and then by quality.
    pub mix: Vec<i128>,
}
