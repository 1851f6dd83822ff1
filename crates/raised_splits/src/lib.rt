//! Splits whose halves are asked for a greater bound, before they are taken.
//!
//! [`raised_entry`] looks at an entry that is in order on a tree. Where it is a split, each half that may hold a plan is marked by `tight_leaf`,
//! in so many pivots, for the bound that it would have. A mark that raises the bound, or shows that there is no plan, puts its proof in the place
//! of the half's own. So each half of the split holds no plan, or its bound is the best that the rows of the form allow in its box, or the exact
//! run of the box gives a reason. Without pivots each entry stays as it is.
//!
//! `specs/Raising.antt` says what becomes of an entry, and what is known of its halves then. How a box is marked is left to `tight_leaf`; which
//! leaf is split, and where, to the layers above.
//!
//! Proofs above may cite, of `proofs/`: `Halves` (a half's bound is no less with the proof that it gets, and that proof names rows of the form).
#![tactic(auto)]

mod half;
mod raising;

pub use raising::raised_entry;
