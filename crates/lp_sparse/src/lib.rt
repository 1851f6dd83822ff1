//! Tables of whole numbers that stand for fractions, most of them 0, with the arithmetic and the look-ups of the linear programs.
//!
//! [`fixed`] has products, quotients and shifts of numbers in fixed point, [`lookup`] reads and writes a place of a list wherever it
//! comes from. [`Sparse`] is a table by lines of [`Entry`]s, [`Marks`] a set of places that is emptied in one step, and [`Places`]
//! numbers those that were met. [`least_cut`] is how many parts make up for what is missing.
//!
//! Everything here is rounded, and nobody has to trust it: each call is safe and returns for every value of its arguments, and but for
//! [`least_cut`], which is exact, that is all that is promised. Sums and products wrap, what is kept is brought into its range, and a
//! place that is not there is 0 and takes nothing. What the tables stand for is left to `lp_factors` and the crates above.
#![tactic(auto)]

mod cuts;
pub mod fixed;
pub mod lookup;
mod marks;
mod places;
mod sparse;

pub use cuts::least_cut;
pub use marks::Marks;
pub use places::{Places, numbers_of};
pub use sparse::{
    Entry, NO_ENTRY, Sparse, add_multiple, dot, guarded_dot, number_of, subtract_multiple,
};
