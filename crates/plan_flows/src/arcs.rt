//! What flows along the arcs of a plan, over its denominator.

ghost use Rattle.std.specs.Prelude.{◌≡◌, ◌<◌, ◌≤◌, ◌^◌};
ghost use Rattle.pool_model.specs.Network.{net_of};
ghost use Rattle.pool_model.specs.Plan.{IsWritten, plan_of};
ghost use Rattle.plan_core.specs.Views.{shown_plan};

use blend_network::Network;
use plan_core::{WrittenPlan, pool_outflows};

/// What flows along a feed, over the plan's denominator: its weight's part of what its pool sends out.
pub fn feed_flow(net: &Network, plan: &WrittenPlan, feed: u32) -> u128
    requires written { IsWritten (net_of net.now) (shown_plan plan.now) }
    requires feed { feed < (net_of net.now).feeds }
    // Promise: What flows along an arc and through a node is that of the plan that a written plan stands for
    ensures flow { result ≡ (plan_of (net_of net.now) (shown_plan plan.now)).feed feed }
    ensures size { result ≤ 2 ^ 104 }
{
    let pools = pool_outflows(net, plan);
    let (_, pool) = net.feed(feed);
    plan.whole_feed(feed, pools[pool as usize])
}

/// What flows along an out, over the plan's denominator.
pub fn out_flow(net: &Network, plan: &WrittenPlan, out: u32) -> u128
    requires written { IsWritten (net_of net.now) (shown_plan plan.now) }
    requires out { out < (net_of net.now).outs }
    // Promise: What flows along an arc and through a node is that of the plan that a written plan stands for
    ensures flow { result ≡ (plan_of (net_of net.now) (shown_plan plan.now)).out out }
    ensures size { result ≤ 2 ^ 96 }
{
    plan.whole_outflow(out)
}

/// What flows along a direct, over the plan's denominator.
pub fn direct_flow(net: &Network, plan: &WrittenPlan, arc: u32) -> u128
    requires written { IsWritten (net_of net.now) (shown_plan plan.now) }
    requires arc { arc < (net_of net.now).directs }
    // Promise: What flows along an arc and through a node is that of the plan that a written plan stands for
    ensures flow { result ≡ (plan_of (net_of net.now) (shown_plan plan.now)).direct arc }
    ensures size { result ≤ 2 ^ 96 }
{
    plan.whole_direct(arc)
}
