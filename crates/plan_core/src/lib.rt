//! Plans as they are written: their check, their cost, and the starting plans.
//!
//! A [`WrittenPlan`] has a weight for each feed, over a base, and a flow for each out and each direct, over a flow base. It
//! stands for the plan in which each feed takes its weight's part of what its pool sends out. [`check_plan`] gives what that
//! plan costs where it obeys every rule of the network, and else the first rule that it breaks, as a [`PlanFault`]. Rules
//! are compared exactly, as whole numbers, with no tolerance. [`compare_cost`] orders costs over different bases.
//!
//! [`zero_plan`] and [`simple_plan`] are the starting plans, which no search needs to find; [`cheapest_start`] is the cheapest of
//! those that obey, with its cost. They alone take memory. What each [`Way`] carries alone, and which starting plan is the
//! cheapest, is found in `start_ways`.
//!
//! Which plan to write is left to the crates above, and so is the text of a plan.
//!
//! Proofs above may cite, of `proofs/`: `Blends` (what flows in the plan that a written plan stands for and of what quality, and that the
//! check by pool weights is its blending law), `Supply` (what all sources send out flows into all products, and how large a plan's numbers
//! are) and `Tables` (sums by node, with one arc more).
#![tactic(auto)]

mod arcs;
mod cheapest;
mod check;
mod cost;
mod fault;
mod flows;
mod plan;
mod qualities;
mod starting;
mod sums;

pub use cheapest::{Start, cheapest_start};
pub use check::check_plan;
pub use cost::compare_cost;
pub use fault::PlanFault;
pub use plan::{Cost, WrittenPlan};
pub use qualities::{product_qualities, weighted};
pub use start_ways::{Way, direct_flow, path_flow};
pub use starting::{simple_plan, zero_plan};
pub use sums::{
    MAX_POOLS, MAX_PRODUCTS, MAX_SOURCES, pool_outflows, product_inflows, source_outflows,
};
