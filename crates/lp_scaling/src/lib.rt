//! A linear program in its scaled form.
//!
//! [`scale`] brings an `Lp` of `linear_program` to a [`Program`], in fixed point, where each variable goes from 0 to at most 1
//! and each coefficient is at most 1 in size, so that one tolerance serves all. Scaling is by powers of two. It stops at a row
//! that no point of the box meets, and leaves a row that every point meets without entries.
//!
//! A program may have any numbers: a number that is missing is 0, a variable that is missing has no width. Each call is safe
//! and returns for all of them, and that is all that is promised of scaling, which is rounded: nobody has to trust what comes
//! of it.
//!
//! | Modules | What they hold |
//! |---|---|
//! | `scaling` | the widths of the box, and what a row does on it |
//! | `program` | the scaled program |
//!
//! How a program is solved is left to the crates above, `lp_pivots` and `lp_simplex`.
#![tactic(auto)]

mod program;
mod scaling;

pub use program::{Program, Row, Scaled, Variable, scale};
