//! By how much each coordinate of a leaf is missed, for a cut rule that goes by it.
//!
//! Where the products of a program are far from what its point says, a cut of their coordinates is worth the most. Three calls in
//! turn give a number for each coordinate:
//!
//! | Call | What it gives |
//! |---|---|
//! | [`violations`] | by how much the products of each coordinate are violated at the point of an advice, weighed by what they are worth |
//! | [`Gains::add_cut`] | what the cuts of each coordinate gained so far, cut after cut, up to the [`cutoff`] |
//! | [`misses`] | the score: both together, and how wide the coordinate still is |
//!
//! Where both halves of some coordinates were solved, an [`Aim`] says which cut is the best of them: the one that leaves the least to
//! be done.
//!
//! Nobody has to trust any of it: a cut rule may pick any row, and whatever is cut is proved anew. So all that is promised is that
//! each call returns, for all bounds and every advice, of whatever program. Sums and products wrap or keep to their range, and what is
//! not there counts as nothing.
//!
//! Which coordinate is cut is left to the rules of `branching`; which cuts there are, and when anybody asks for a score, to the crates
//! above.
#![tactic(auto)]

mod gains;
mod rest;
mod score;
mod square_root;
mod violation;

pub use gains::{Gains, cutoff};
pub use rest::Aim;
pub use score::misses;
pub use violation::violations;
