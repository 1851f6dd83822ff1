//! The exact programs as text: what `formulate` prints.
//!
//! [`write_formulation`] writes the program of a form: what it makes as small as it can be, each variable with its ends, the
//! rows of the network and those of the form's families, and the products. The rows are those of the catalogue that are the same
//! in every box, under their numbers there, so a row has one rule for its bounds and for its text. Envelopes are no rows of an
//! exact program. The text is defined in `specs/Programs.antt`, line by line in `specs/Lines.antt`.
//!
//! The layer above may use the clauses of `write_formulation`, [`FormulationFault`], and what variables are called ([`Name`]). It leaves to
//! others which network and which form is asked for.
#![tactic(auto)]

mod fault;
mod formulation;
mod lines;
mod names;
mod pieces;
mod products;
mod terms;

pub use fault::FormulationFault;
pub use formulation::write_formulation;
pub use names::{Name, Symbol};
