//! What multipliers on rows show of a box.

/// What a proof shows of a box.
#[derive(Clone, Copy, Debug, PartialEq, Eq)]
pub enum Shown {
    /// No plan in the box costs less than so many picos.
    Bound(i128),
    /// No plan lies in the box.
    NoPlan,
}
