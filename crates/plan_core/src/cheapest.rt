//! The cheapest of the starting plans.

ghost use Rattle.std.specs.Prelude.{◌≡◌, ◌<◌, ◌≤◌, ◌^◌, ◌*◌, IfOk, IfSome, IfNone, unsigned_abs};
ghost use Rattle.pool_model.specs.Network.{net_of, IsLimited};
ghost use Rattle.pool_model.specs.Plan.{Obeys, Written, plan_of};
ghost use Rattle.pool_model.specs.Starting.{IsCheapestStart, IsStarting, start_at, starts};
ghost use Rattle.plan_core.specs.Faults.{IsCostOf};
ghost use Rattle.plan_core.specs.Views.{shown_plan};

use crate::plan::{Cost, WrittenPlan};
use crate::starting::{simple_plan, zero_plan};
use blend_network::Network;
use edge_io::Memory;
use start_ways::{cheapest, start_way};
use std::alloc::Global;

/// A starting plan, and what it costs.
#[derive(Debug, Drop)]
pub struct Start {
    pub plan: WrittenPlan,
    pub cost: Cost,
}

/// The cheapest starting plan that obeys, if one does. At a tie the zero plan goes first, then the paths in order, and then the
/// directs in order.
pub fn cheapest_start(alloc: Global, net: &Network) -> Result<Option<Start>, Memory>
    // Promise: The cheapest starting plan is well written, obeys, and costs what is told
    ensures cost { IfOk result (λ o. IfSome o (λ s. IsCostOf (net_of net.now) (shown_plan s.plan) s.cost)) }
    // Promise: No starting plan that obeys costs less than the cheapest that is found, and at a tie that is the first: the zero plan, then
    //   paths, then directs
    ensures cheapest { IfOk result (λ o. IfSome o (λ s. IsCheapestStart (net_of net.now) (shown_plan s.plan))) }
    ensures size { IfOk result (λ o. IfSome o (λ s. unsigned_abs s.cost.num ≤ 4 * 10 ^ 24)) }
    // Promise: No cheapest starting plan is found only where no starting plan obeys
    ensures none { IfOk result (λ o. IfNone o ((w : Written) → IsStarting (net_of net.now) w → ¬ Obeys (net_of net.now) (plan_of (net_of net.now) w))) }
    ensures limited { IsLimited (net_of net.now) }
{
    match cheapest(net) {
        None => Ok(None),
        Some(best) => {
            let plan = start_plan(alloc, net, best.number)?;
            let cost = Cost {
                num: best.cost,
                base: 1,
            };
            Ok(Some(Start { plan, cost }))
        }
    }
}

/// The starting plan of a number.
fn start_plan(alloc: Global, net: &Network, number: u32) -> Result<WrittenPlan, Memory>
    requires { number < starts (net_of net.now) }
    ensures { IfOk result (λ w. shown_plan w ≡ start_at (net_of net.now) number) }
{
    match start_way(net, number) {
        None => zero_plan(alloc, net),
        Some(way) => simple_plan(alloc, net, way),
    }
}
