//! Lines of a text, put together from pieces: words, whole numbers, and numbers of millionths in decimals.
//!
//! [`write_line`] writes a [`Piece`] behind another, handed on to the sink as one. A decimal has six digits behind its point, and a column sets it right in 20
//! places; `specs/Decimals.antt` says how. [`rounded_down`] and [`rounded_up`] make whole numbers of exact fractions, and [`rounding_law`] says which. No memory is
//! taken.
//!
//! The layer above may use the clauses of these, and `each_below` of `specs/Pieces.antt` with its lemmas for a line of each number. It leaves to others what a
//! line says.
//!
//! Proofs above may cite, of `proofs/`: `Each` (the texts of numbers, written one behind the other) and `Floors` (the number that
//! rounding means is the only one).
#![tactic(auto)]

mod decimals;
mod pieces;
mod rounding;

pub use pieces::{Piece, write_line};
pub use rounding::{rounded_down, rounded_up, rounding_law};
