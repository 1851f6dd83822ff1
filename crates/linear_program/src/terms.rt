//! Terms of a row.

/// A variable's number and its coefficient in a row.
#[derive(Clone, Copy, Debug, PartialEq, Eq)]
pub struct Term {
    pub var: u32,
    pub coef: i128,
}
