//! What flows along arcs, and which of them carry more than their maxima.

ghost use Rattle.std.specs.Prelude.{◌≡◌, ℕ, ◌<◌, ◌≤◌, ◌^◌, ◌↔◌, get_or, IsTrue};
ghost use Rattle.pool_model.specs.Network.{net_of, arcs, IsLimited};
ghost use Rattle.pool_model.specs.Plan.{arc_flow as arc_flow_of, plan_of};
ghost use Rattle.plan_core.specs.Views.{shown_plan};
ghost use Rattle.plan_core.specs.Faults.{IsAboveMaximum, IsShaped};
ghost use Rattle.plan_core.specs.Weighed.{ArePoolOutflows};

use crate::check::room;
use crate::plan::WrittenPlan;
use crate::sums::MAX_POOLS;
use blend_network::Network;

/// What flows along an arc, over both bases, from what each pool sends out.
pub(crate) fn arc_flow(
    net: &Network,
    plan: &WrittenPlan,
    through: &[u128; MAX_POOLS],
    arc: u32,
) -> u128
    requires shaped { IsShaped (net_of net.now) (shown_plan plan.now) }
    requires through { ArePoolOutflows (net_of net.now) (shown_plan plan.now) through.now }
    requires size { (l : ℕ) → get_or through.now l 0 ≤ 2 ^ 72 }
    requires arc { arc < arcs (net_of net.now) }
    ensures { result ≡ arc_flow_of (net_of net.now) (plan_of (net_of net.now) (shown_plan plan.now)) arc }
{
    let counts = net.sizes();
    if arc < counts.feeds {
        feed_flow(net, plan, through, arc)
    } else if arc - counts.feeds < counts.outs {
        plan.whole_outflow(arc - counts.feeds)
    } else {
        plan.whole_direct(arc - counts.feeds - counts.outs)
    }
}

/// What flows along a feed, over both bases.
fn feed_flow(net: &Network, plan: &WrittenPlan, through: &[u128; MAX_POOLS], feed: u32) -> u128
    requires limited { IsLimited (net_of net.now) }
    requires shaped { IsShaped (net_of net.now) (shown_plan plan.now) }
    requires through { ArePoolOutflows (net_of net.now) (shown_plan plan.now) through.now }
    requires size { (l : ℕ) → get_or through.now l 0 ≤ 2 ^ 72 }
    requires feed { feed < (net_of net.now).feeds }
    ensures { result ≡ (plan_of (net_of net.now) (shown_plan plan.now)).feed feed }
{
    let (_, pool) = net.feed(feed);
    plan.whole_feed(feed, through[pool as usize])
}

/// Whether the arc has a maximum and carries more.
pub(crate) fn is_over(
    net: &Network,
    plan: &WrittenPlan,
    through: &[u128; MAX_POOLS],
    arc: u32,
) -> bool
    requires shaped { IsShaped (net_of net.now) (shown_plan plan.now) }
    requires through { ArePoolOutflows (net_of net.now) (shown_plan plan.now) through.now }
    requires size { (l : ℕ) → get_or through.now l 0 ≤ 2 ^ 72 }
    requires arc { arc < arcs (net_of net.now) }
    ensures { IsTrue result ↔ IsAboveMaximum (net_of net.now) (plan_of (net_of net.now) (shown_plan plan.now)) arc }
{
    match net.arc_max(arc) {
        None => false,
        Some(most) => room(plan.denominator(), most) < arc_flow(net, plan, through, arc),
    }
}
