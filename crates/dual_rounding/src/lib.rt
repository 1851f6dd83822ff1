//! The linear program of a box, and a bound from advice on it that nobody trusts.
//!
//! [`lp_of`] gives the program of a form over a box: the form's rows as the catalogue writes them, and the ends and costs of
//! all variables. [`Relaxation`] keeps a program, so that the next box's is written over it.
//!
//! The simplex method of `lp_simplex` gives duals for such a program, and says nothing of how good they are. [`round`] makes
//! multipliers of them, which are whole numbers, at four scales, and has `row_book` value each list of multipliers exactly: it
//! answers the first of those that show the most of the box, where it is more than what was known. It tries the price proof
//! too, which needs no advice: what flows through a pool costs at least what its cheapest feed costs. So whatever the advice,
//! each box ends with at least that bound. [`Rounding`] keeps the memory of it, and what is known of the box that was rounded
//! last. `price_law` says that the price proof is always in order.
//!
//! `specs/Programs.antt` says what a program is, `specs/Price.antt` and `specs/Tried.antt` which proofs are tried, and
//! `specs/Answers.antt` what the answer is. How a program is solved is left to `lp_simplex`, which boxes are looked at to the
//! layer above.
//!
//! Proofs above may cite, of `proofs/`: `FormRows` (the rows of a form, by rising number), `PriceInOrder` (the price proof is in order in
//! each proper box) and `Priced` (a bound that rounding raised is at least what the price proof shows).
#![tactic(auto)]

mod laws;
mod multipliers;
mod price;
mod program;
mod relaxation;
mod rounding;

pub use laws::price_law;
pub use program::lp_of;
pub use relaxation::Relaxation;
pub use rounding::{Rounding, round};
