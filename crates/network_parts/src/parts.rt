//! What a network is built from: its rows, in file order.

/// A source: what a unit costs, how much it can send, and its qualities, all in millionths.
#[derive(Drop)]
pub struct SourceRow {
    pub name: String,
    pub cost: i128,
    pub max: Option<i128>,
    pub quality: Vec<i128>,
}

/// A pool: how much can flow through it, in millionths, and of each quality that enters it how many thousandths leave it.
#[derive(Drop)]
pub struct PoolRow {
    pub name: String,
    pub max: Option<i128>,
    pub ratio: Vec<i128>,
}

/// A product: what a unit brings, how much must and can flow into it, and the limits on each quality, all in millionths.
#[derive(Drop)]
pub struct ProductRow {
    pub name: String,
    pub price: i128,
    pub min: i128,
    pub max: i128,
    pub least: Vec<Option<i128>>,
    pub most: Vec<Option<i128>>,
}

/// An arc, by the names of its two ends: what a unit along it costs, and how much it can carry, both in millionths.
#[derive(Drop)]
pub struct ArcRow {
    pub from: String,
    pub to: String,
    pub cost: i128,
    pub max: Option<i128>,
}

/// The rows of a network file.
#[derive(Drop)]
pub struct Parts {
    pub qualities: Vec<String>,
    pub sources: Vec<SourceRow>,
    pub pools: Vec<PoolRow>,
    pub products: Vec<ProductRow>,
    pub arcs: Vec<ArcRow>,
}
