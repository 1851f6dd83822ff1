//! Boxes, rows and multipliers: the definitions of the relaxations that every bound rests on, with their laws.
//!
//! - `specs/Boxes.antt`: the coordinates of a plan, boxes, the root box, and when a plan lies in a box.
//! - `specs/Variables.antt`: the variables of the programs, their ends in a box and their costs.
//! - `specs/Envelopes.antt`: the envelope of a product (McCormick 1976).
//! - `specs/Catalogue.antt`: every row of the programs P, Q and PQ, numbered by family.
//! - `specs/Lift.antt`: a row's value at numbers over a base, and when it holds there; the point of a plan.
//! - `specs/Multipliers.antt`: multipliers on rows, their number and weight, and what they show of a box.
//! - `specs/Trees.antt`: trees of boxes, when they are in order, and their bound.
//! - `specs/Entries.antt`: what a search records, and the tree that it makes.
//!
//! The laws stand in `laws.rt`, `row_laws.rt` and `tree_laws.rt`: functions without code, whose clauses a proof can cite.
//! `root_law` and `halves_law` say that the boxes of a search leave no plan out. `row_law`, `ends_law` and `cost_law` say that a
//! plan's point meets every row, lies between all ends and costs what the plan costs. `proof_law` is what follows: what
//! multipliers show of a box is so. `tree_law` is what follows of a tree: its bound holds.
//!
//! Proofs above may cite the lemmas behind them, in `proofs/`: `RootBox` and `Halves`; `Numbering` and `PathSums` (coordinates,
//! variables and paths by number); `Families` (rows in lists of families); `NetworkRows` and `FormRows` (the values of rows over flows
//! times a second base, beside other numbers); `Agreement` (what a proof shows rests on the ends of its box alone) and `Duality`;
//! `TreeLaw`, `TreeBound`, `Lowest` (a tree's bound is at least the reach bound) and `EntryLaw`. Beside them: `PRows` and `QRows` (the
//! rows of P and of Q hold at the point of each plan that obeys), `RowSums` (sums of coefficients times variables, where most
//! coefficients are 0), `Brought` (what reaches a product of a quality, in parts of the scale) and `Shares` (a feed's share of its pool).
#![tactic(auto)]

mod laws;
mod row_laws;
mod tree_laws;

pub use laws::{
    cost_law, ends_law, halves_law, multiplier_law, numbering_law, proof_law, root_law, shares_law,
    worked_counts, worked_multipliers, worked_treatment, worked_tree,
};
pub use row_laws::{envelope_law, row_law};
pub use tree_laws::{entry_law, tree_law};
