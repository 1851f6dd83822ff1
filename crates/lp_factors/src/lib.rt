//! Sparse squares of whole numbers that stand for fractions, factored, changed a row and a column at a time, and solved.
//!
//! A simplex method asks one thing of linear algebra: solutions with the square of its basis, which loses and gains a row
//! or a column at each step. [`factor`] takes a rectangle apart and leaves out what has no pivot; a [`Kernel`] keeps the
//! factors, and a border for the changes since; `solve_columns`, `solve_rows` and `solve_entering` solve with both.
//! Tables, and the arithmetic and the look-ups of a place, are those of `lp_sparse`.
//!
//! Everything here is rounded, and nobody has to trust it: a caller measures what a solution leaves over and corrects it.
//! So each call is safe and returns for every value of its arguments, and that is all that it promises. Sums and products
//! wrap, what is kept is brought into its range, and a place that is not there is 0 and takes nothing.
#![tactic(auto)]

mod border;
mod changes;
mod elimination;
mod factors;
mod kernel;
mod pivots;

pub use changes::{Change, Column, Outcome};
pub use elimination::{Factored, factor};
pub use kernel::Kernel;
