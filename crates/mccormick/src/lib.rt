//! The envelope of a product of two numbers between their ends (McCormick 1976): the four rows that bound `scale * w = a * b`.
//!
//! [`envelope`] writes a side into a row, at the numbers of three variables. `proofs/BlockRows.antt` says which row of a network
//! that is.
//! `proofs/ThreeTerms.antt` is the same of a vector of coefficients; proofs above may cite both.
#![tactic(auto)]

mod sides;
mod written;

pub use sides::Ends;
pub use written::envelope;
