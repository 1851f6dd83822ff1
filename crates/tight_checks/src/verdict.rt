//! What is told of marks that hold.

/// How many leaves have each kind of mark, and the bound that the marks come to.
#[derive(Clone, Copy, Debug, PartialEq, Eq)]
pub struct TightVerdict {
    /// Leaves whose bound is the best that the form's rows allow.
    pub tight: u32,
    /// Leaves with a proof of a greater bound, which is the best that the form's rows allow.
    pub raised: u32,
    /// Leaves with a proof that their box holds no plan.
    pub empty: u32,
    /// Leaves of which nothing is said.
    pub loose: u32,
    /// What every plan that obeys costs at least, in picos. None where no plan obeys.
    pub bound: Option<i128>,
}
