//! The state of a dual simplex method, without its steps.
//!
//! [`Basis`] says which variables are basic and which rows are active, [`Sums`] has values and duals with the exact sums that follow each
//! change of them, and the rest is what the method notes on its way: [`Bars`] which columns may not leave, [`RowSums`] a row's sums,
//! [`Best`] the best bound so far, [`Progress`] how far it has come.
//!
//! The layer above may use all of it. As in `lp_factors` nobody has to trust a number of it: each call is safe and returns for every
//! value of its arguments, and that is all that it promises. How the state changes from basis to basis is left to `lp_pivots`.
#![tactic(auto)]

mod basis;
mod notes;
mod sums;

pub use basis::Basis;
pub use notes::{Bars, Best, NO_BOUND, Progress, RowSums};
pub use sums::Sums;
