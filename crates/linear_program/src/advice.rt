//! Advice on a program.

/// What a method suggests for a program, in units of 2^-32. None of it is to be trusted before it is tested.
#[derive(Debug, Drop)]
pub struct Advice {
    /// The duals are meant to show that no point of the box meets the rows, and not to bound the cost.
    pub ray: bool,
    pub duals: Vec<i128>,
    pub point: Vec<i128>,
    /// Where the method ended: the variables strictly between their ends, by number, and the rows that bind, by their
    /// places past the count of variables.
    pub basis: Vec<u32>,
}
