//! Multipliers on rows.

/// A multiplier on a row.
#[derive(Clone, Copy, Debug, PartialEq, Eq)]
pub struct Part {
    /// The number of the row in the catalogue.
    pub row: u32,
    pub mult: i64,
}

/// A scale on the cost, and multipliers on rows.
#[derive(Debug, Drop)]
pub struct Proof {
    pub scale: u64,
    pub parts: Vec<Part>,
}
