//! Advice on a linear program over a box, by a dual simplex method on whole numbers.
//!
//! [`advise`] suggests duals, a point and a basis for a program; [`advise_from`] does so from a basis that is known to be
//! near, [`advise_within`] goes only so far from there, and [`start_of_proof`] reads such a basis off multipliers that were
//! rounded. Nobody has to trust the advice: a bound is taken from duals only after they were rounded and summed exactly,
//! elsewhere. So what is promised is that each call returns, for every value of its arguments, that the advice has one dual
//! for each row and one number of the point for each variable, and that its basis names variables and rows of the program
//! alone. Lists of different lengths and terms on variables that are not there are no error: a number that is missing is 0,
//! a variable that is missing has no width.
//!
//! The method is a dual simplex method with an upper bound on every variable, that of `lp_pivots`, on the scaled program of
//! `lp_scaling`. In the order of a call:
//!
//! | Modules | What they do |
//! |---|---|
//! | `advice` | the calls |
//! | `start` | lists to start from: cold, from a proof |
//! | `answer`, `refine` | the advice in the units of the program |
//!
//! [`Lp`], [`LpRow`] and [`Advice`] are those of `linear_program`, for callers that use no more of it.
#![tactic(auto)]

mod advice;
mod answer;
mod refine;
mod start;

pub use advice::{advise, advise_from, advise_within, start_of_proof};
pub use linear_program::{Advice, Lp, LpRow};
