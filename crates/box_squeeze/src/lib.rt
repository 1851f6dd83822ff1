//! Leaves whose range is reduced: an outer quarter of a coordinate is cut off where multipliers show that it holds no plan that matters.
//!
//! A piece of a box is the lowest or the highest quarter of a coordinate of the form whose ends are at least 4 apart. [`squeeze`] cuts one off
//! a leaf where a proof shows that it holds no plan, or none that costs less than a target; [`target_of`] makes the target of the cost of
//! the best plan and the gap that is enough. What it answers is an ordinary split of a tree: of its two nodes one is the piece, and the
//! other is kept. So every plan that obeys, lies in the leaf and costs less than the target lies in the node that is kept.
//!
//! The pieces are tried first by the empty proof, which needs no program, and then all of them by programs; [`squeeze_free`] ends before
//! those, and [`squeeze_looked`] solves but those of cuts that a look has solved, where they may pay. None comes only where no piece's empty
//! proof shows the target.
//!
//! `specs/Pieces.antt` says what a piece is, and `specs/Squeezes.antt` what a split is that cuts one off. When a leaf is squeezed, and
//! whether its pieces are worth programs, is left to the layer above.
#![tactic(auto)]

mod closing;
mod looking;
mod piece;
mod squeezing;
mod target;

pub use looking::squeeze_looked;
pub use piece::Side;
pub use squeezing::{Squeezed, squeeze, squeeze_free};
pub use target::target_of;
