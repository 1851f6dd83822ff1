//! Boxes of a network's plans, and the plain types of its relaxations: coordinates, splits and rows.
//!
//! A box has a least and a greatest end for each coordinate of a plan. [`Coord`] names a coordinate, and [`Split`] cuts a box
//! at one. [`Term`], [`Part`] and [`Proof`], terms of rows and multipliers on them, are those of `linear_program`.
//!
//! Contracts see these types as the data of `row_model`, by `specs/Views.antt`.
//!
//! Proofs above may cite, of `proofs/`: `Halving` (ends and their halves), and on rows that are written from tables `Writing`,
//! `Segments` and `TermLists`.
#![tactic(auto)]

mod boxes;
mod capped;
mod coordinates;
mod numbers;
mod root;
mod rows;
mod table;
mod variables;
mod write;

pub use boxes::{BoxEnds, BoxView, can_cut, halves};
pub use coordinates::{Coord, Form, Split, coord_at, coords, of_form};
pub use linear_program::{Part, Proof, Term};
pub use numbers::{flow_coordinate, quality_coordinate, variable_number};
pub use root::{root_box, root_ends};
pub use rows::{LinRow, RowKind};
pub use table::{Block, Factor, Rate, RowTable, Terms};
pub use variables::{Variable, var_cost, var_ends, variable_at, vars};
