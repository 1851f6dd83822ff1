//! A dual simplex method on a scaled program, from basis to basis.
//!
//! The method is that of C. E. Lemke (The dual method of solving the linear programming problem, 1954) with an upper bound
//! on every variable. At any duals each variable goes to the end of its box that its reduced cost asks for, so every square
//! of active rows and basic variables that can be solved with is a start. [`Simplex`] is the state over a program of
//! `lp_scaling`; [`Simplex::begin_at`] takes a start, [`Simplex::run`] goes on from it and says how it [`End`]ed, and readers
//! tell what the state is then. In the order of a run:
//!
//! | Modules | What they do |
//! |---|---|
//! | `simplex` | a program with the state on it, which is that of `lp_state` |
//! | `lists` | the basis from a list of numbers, and as one |
//! | `passes` | the loop, which counts its passes |
//! | `refactor`, `residual`, `bound` | new factors; duals and values brought to rest; the best bound so far |
//! | `price`, `ratio`, `step` | what leaves, what enters, and the step between |
//! | `stall`, `ray` | moved costs where nothing is gained; the test of a row that nothing can mend |
//!
//! Factors and solves are those of `lp_factors`. As there, everything is rounded and nobody has to trust it: each call is
//! safe and returns for every value of its arguments, and that is all that it promises. What an end is good for, in the
//! units of the program, is left to `lp_simplex`.
#![tactic(auto)]

mod bound;
mod lists;
mod passes;
mod price;
mod ratio;
mod ray;
mod refactor;
mod residual;
mod simplex;
mod stall;
mod step;

pub use simplex::{End, Simplex};
