//! Points of the relaxation of a box.

/// Values of all variables, over a base.
#[derive(Debug, Drop)]
pub struct RelaxPoint {
    /// What the values are counted in: so many parts of a variable's unit.
    pub base: u64,
    /// A value for each variable, by its number.
    pub values: Vec<i128>,
}
