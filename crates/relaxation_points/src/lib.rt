//! Points of the relaxation of a box, and what one point says of all multipliers.
//!
//! A [`RelaxPoint`] gives each variable a value, over one base. It meets a box and a form where each value lies between its
//! variable's ends in the box and each row of the form holds. Then no multipliers on these rows show more of the box than what the point
//! costs: so a point that costs less than one pico above a bound is a witness that the bound is the best that these rows allow,
//! and that only a cut can raise it.
//!
//! [`is_witness`] says whether a point is one, exactly. [`is_light`] says whether its cost and all its rows can be added up
//! within 2^126, which a witness must keep. Neither takes memory: the row that is written over and over is lent.
//!
//! `specs/Points.antt` has the definitions, and `laws.rt` what follows from them. How a point is found is left to others. Proofs above may
//! cite `proofs/Duality.antt`: what multipliers on rows that a point meets can show at most.
#![tactic(auto)]

mod judging;
mod laws;
mod point;
mod sums;

pub use judging::{has_shape, is_light, is_witness};
pub use laws::{duality_law, witness_law};
pub use point::RelaxPoint;
