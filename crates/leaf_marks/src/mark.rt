//! What is said of a leaf's bound.

use box_space::Proof;
use exact_num::Frac;
use exact_run::TooWide;
use relaxation_points::RelaxPoint;

/// What a form's rows allow in the box of a leaf.
#[derive(Debug, Drop)]
pub enum Mark {
    /// The leaf's bound is the best that the rows show: the point is a witness for it.
    Tight(RelaxPoint),
    /// The proof shows a greater bound, and that is the best that the rows show: the point is a witness for it.
    Raised(Proof, RelaxPoint),
    /// The proof shows that the box holds no plan.
    Empty(Proof),
    /// Nothing is said.
    Loose(Reason),
}

/// Why nothing is said of a leaf.
#[derive(Debug, Drop)]
pub enum Reason {
    /// The run goes on after so many pivots.
    Pivots(u32),
    /// An operation of the run is too wide for 128 bits.
    Wide(TooWide),
    /// The fraction has no common denominator with the number that is short enough, or so many times it is too large.
    Coarse(u64, Frac),
    /// The proof weighs more than 2^126.
    HeavyProof(Proof),
    /// The point weighs more than 2^126.
    HeavyPoint(RelaxPoint),
}
