//! The limits on the qualities of products.

/// Which limits.
#[derive(Clone, Copy)]
pub enum LimitSide {
    /// The most that a product may have of a quality.
    Most,
    /// The least that it may have.
    Least,
}

/// A limit that is set, with its product and its quality, in millionths.
#[derive(Clone, Copy)]
pub struct Limit {
    pub product: u32,
    pub quality: u32,
    pub limit: i64,
}
