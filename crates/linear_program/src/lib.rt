//! Linear programs on whole numbers over a box, advice on them, and multipliers on their rows.
//!
//! An [`Lp`] asks for the least cost over variables between two ends, where each [`LpRow`] holds: a constant and [`Term`]s. An
//! [`Advice`] on it is what a method suggests for an answer: duals, a point and a basis. A [`Proof`] is multipliers on rows, each a
//! [`Part`], by which somebody can show a bound on the cost, whatever advice they are made of.
//!
//! A program may have any numbers: lists of different lengths and terms on variables that are not there are no error. A
//! number that is missing is 0, a variable that is missing has no width.
//!
//! A column is named by a number: a variable by its own, and a row by its place past the last variable. [`Lp::named`] keeps
//! of a list the numbers that name a column of the program (`specs/Columns.antt`).
//!
//! How a program is solved is left to `lp_simplex`, how multipliers are valued and what they show to `row_book`.
#![tactic(auto)]

mod advice;
mod lp;
mod multipliers;
mod terms;

pub use advice::Advice;
pub use lp::{Lp, LpRow};
pub use multipliers::{Part, Proof};
pub use terms::Term;
