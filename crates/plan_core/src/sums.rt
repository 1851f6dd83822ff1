//! Sums over the arcs of a network, by node. Each goes over its arcs once.

ghost use Rattle.std.specs.Prelude.{◌≡◌, ℕ, ◌<◌, ◌≤◌, ◌^◌, get_or, pos, unsigned_abs};
ghost use Rattle.pool_model.specs.Network.{IsLimited, net_of};
ghost use Rattle.plan_core.specs.Views.{shown_plan};
ghost use Rattle.plan_core.specs.Faults.{IsShaped};
ghost use Rattle.plan_core.specs.Weighed.{AreWeightSums, ArePoolOutflows, AreSourceOutflows, AreProductInflows};

use crate::plan::WrittenPlan;
use blend_network::Network;

/// The most pools that a network has.
pub const MAX_POOLS: usize = 16;

/// The most sources that a network has.
pub const MAX_SOURCES: usize = 64;

/// The most products that a network has.
pub const MAX_PRODUCTS: usize = 64;

/// For each pool the sum of its feeds' weights.
pub(crate) fn weight_sums(net: &Network, plan: &WrittenPlan) -> [u64; MAX_POOLS]
    requires { IsShaped (net_of net.now) (shown_plan plan.now) }
    ensures { AreWeightSums (net_of net.now) (shown_plan plan.now) result }
{
    let counts = net.sizes();
    let mut sums = [0; MAX_POOLS];
    for feed in 0..counts.feeds {
        let (_, pool) = net.feed(feed);
        sums[pool as usize] += u64::from(plan.weight(feed));
    }
    sums
}

/// What each pool sends out, over the flow base.
pub fn pool_outflows(net: &Network, plan: &WrittenPlan) -> [u128; MAX_POOLS]
    requires { IsShaped (net_of net.now) (shown_plan plan.now) }
    ensures flows { ArePoolOutflows (net_of net.now) (shown_plan plan.now) result }
    ensures size { (l : ℕ) → get_or result l 0 ≤ 2 ^ 72 }
    ensures limited { IsLimited (net_of net.now) }
{
    let counts = net.sizes();
    let mut flows = [0; MAX_POOLS];
    for out in 0..counts.outs {
        let (pool, _) = net.out(out);
        flows[pool as usize] += u128::from(plan.outflow(out));
    }
    flows
}

/// What each source sends out, over both bases, from what each pool sends out.
pub fn source_outflows(
    net: &Network,
    plan: &WrittenPlan,
    pools: &[u128; MAX_POOLS],
) -> [u128; MAX_SOURCES]
    requires shaped { IsShaped (net_of net.now) (shown_plan plan.now) }
    requires pools { ArePoolOutflows (net_of net.now) (shown_plan plan.now) pools.now }
    requires size { (l : ℕ) → get_or pools.now l 0 ≤ 2 ^ 72 }
    ensures flows { AreSourceOutflows (net_of net.now) (shown_plan plan.now) result }
    ensures size { (i : ℕ) → get_or result i 0 ≤ 2 ^ 113 }
    ensures limited { IsLimited (net_of net.now) }
{
    let counts = net.sizes();
    let mut flows = [0; MAX_SOURCES];
    for feed in 0..counts.feeds {
        let (source, pool) = net.feed(feed);
        flows[source as usize] += plan.whole_feed(feed, pools[pool as usize]);
    }
    for direct in 0..counts.directs {
        let (source, _) = net.direct(direct);
        flows[source as usize] += plan.whole_direct(direct);
    }
    flows
}

/// What flows into each product, over both bases.
pub fn product_inflows(net: &Network, plan: &WrittenPlan) -> [u128; MAX_PRODUCTS]
    requires { IsShaped (net_of net.now) (shown_plan plan.now) }
    ensures flows { AreProductInflows (net_of net.now) (shown_plan plan.now) result }
    ensures size { (j : ℕ) → get_or result j 0 ≤ 2 ^ 105 }
    ensures limited { IsLimited (net_of net.now) }
{
    let counts = net.sizes();
    let mut flows = [0; MAX_PRODUCTS];
    for out in 0..counts.outs {
        let (_, product) = net.out(out);
        flows[product as usize] += plan.whole_outflow(out);
    }
    for direct in 0..counts.directs {
        let (_, product) = net.direct(direct);
        flows[product as usize] += plan.whole_direct(direct);
    }
    flows
}
