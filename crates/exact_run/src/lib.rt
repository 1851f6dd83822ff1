//! The exact run on a linear program whose columns lie between ends, in fractions of 128 bits.
//!
//! The run is the dual simplex method with bounded variables (Lemke 1954; Wagner 1958), by the rule of the first column on both sides. It
//! takes no rounding and no tolerance: where it ends, the point that it gives is the best one, or its multipliers show that there is none.
//! `specs/Programs.antt` has the programs, `specs/States.antt` the states and the first of them, `specs/Steps.antt` a step, as relations on
//! fractions in lowest terms.
//!
//! [`Operation`] names what is done with two fractions, [`worked`] does it and tells the operation that is too wide for 128 bits with its
//! two fractions ([`TooWide`]), and [`is_wide`] says of one whether it is.
#![tactic(auto)]

mod ends;
mod laws;
mod operations;

pub use ends::End;
pub use laws::one_pivot_law;
pub use operations::{Operation, TooWide, is_wide, worked};
