//! Plans that are worth a try near a point of a relaxation.
//!
//! A point of a relaxation is no plan: what flows along its paths is not what its proportions and its flows say.
//! [`advised_plan`] looks for plans near it, by the small linear programs of `flow_programs`. Nobody has to trust what it
//! answers: the crate above checks it again. So what is promised is that it returns, for every network and every list of
//! numbers. Sums and products wrap, what is kept is brought into its range, and what is not there counts as nothing.
//!
//! | Modules | What they do |
//! |---|---|
//! | `polish` | single units of weight between feeds, where a plan is a new best one |
//! | `reading` | the network's numbers as the programs take them |
//! | `tries` | the order in which plans are tried, and the cheapest of them |
//! | `solving` | the simplex method of `lp_simplex` on one program after the other |
#![tactic(auto)]

mod polish;
mod reading;
mod solving;
mod tries;

use blend_network::Network;
use edge_io::Memory;
use plan_core::{Cost, WrittenPlan};
use reading::outline_of;
use std::alloc::Global;
use tries::Search;

/// The cheapest plan that is found near the point, if one is. The point has its numbers in units of 2^-32, in the order of
/// the variables of the relaxations; a number that is missing counts as 0. Where there is a limit, less is tried when no plan
/// near the point seems to cost less.
pub fn advised_plan(
    alloc: Global,
    net: &Network,
    point: &[i128],
    limit: Option<Cost>,
) -> Result<Option<WrittenPlan>, Memory> {
    let outline = outline_of(alloc, net)?;
    let mut search = Search::new(alloc, net, &outline, limit);
    search.run(alloc, point)?;
    Ok(search.into_best())
}
