//! What a network, a plan, its cost and a claim about them are: the definitions that every other crate's contracts cite,
//! with what follows from them. There is no code here.
//!
//! - `specs/`: `Rows` and `Naming` (what a file says, and the network that it stands for), `Network` (a network by list and
//!   by number, with what arcs cost and hold and what pools remove, and its limits), `Plan` (when a plan obeys and what it costs; written plans), `Starting` (the plans that the
//!   solver tries first, and the reach bound), `Plain` (networks that a file of version 1 can say), `Paths` and `Limits` (the paths, and the limits that are set, as lists), `Claim` (what a
//!   certificate says of every plan). `Worked` has examples.
//! - The laws: `reach_bound_law`, `paths_law`, `starting_plans_law`, `arcs_law`, `sizes_law` and `plain_law`.
//! - Worked facts, which the checker computes from the definitions: `worked_plans` (which plans of known networks obey, and what
//!   they cost), `worked_rules` and `worked_arcs` (each rule broken by the least amount), `worked_bounds`.
//!
//! It leaves to others: reading files, weights of pools without products over all pools, and everything that searches.
//!
//! Proofs above may cite, of `proofs/`: `Reach` (no plan that obeys costs less than the reach bound), `Paths` and `Limits` (what the
//! two lists have, and how many), `Starts` and `StartOrder` (the starting plans: what they cost, when they obey, and each by its
//! number), `Shipments` (plans that send one amount along one way), `ArcCosts` (what a plan costs, arc by arc; arcs by one number),
//! `Capped` (amounts and maxima that may be absent), `Sizes` (how large costs and sums of qualities are) and `AllBelow` (tests of each number below a count).
#![tactic(auto)]

mod laws;
mod worked;

pub use laws::{arcs_law, paths_law, plain_law, reach_bound_law, sizes_law, starting_plans_law};
pub use worked::{worked_arcs, worked_bounds, worked_plans, worked_rules};
