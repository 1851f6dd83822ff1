//! The weights of the plain plan: each feed's part of what flows into its pool, rounded down, with what that leaves on the
//! pool's first feed of the greatest flow.

ghost use Rattle.std.specs.Prelude.{◌≡◌, ℕ, ◌+◌, ◌/◌, ◌<◌, ◌≤◌, ◌^◌, ◌==◌, ◌||◌, ◌&&◌, nat_lt, get_or, length, IfOk};
ghost use Rattle.integers.specs.Numbers.{tabulate};
ghost use Rattle.pool_model.specs.Network.{IsLimited, net_of};
ghost use Rattle.plan_repair.specs.PlainPlan.{feed_flow as feed_flow_of, goes_before as goes_before_of, leads as leads_of, rest as rest_of, rounded_weight, weight_of};
ghost use Rattle.plan_repair.specs.PoolSums.{AreFlowSums, AreRoundedSums};

use crate::plain::feed_flow;
use blend_network::Network;
use edge_io::Memory;
use std::alloc::Global;

/// The base of the weights.
const GRAIN: u128 = 1_048_576;

/// The most pools that a network has.
const MAX_POOLS: usize = 16;

/// The weight of each feed.
pub(crate) fn plain_weights(
    alloc: Global,
    net: &Network,
    point: &[i128],
) -> Result<Vec<u32>, Memory>
    requires { (net_of net.now).feeds ≤ length point.now }
    ensures { IfOk result (λ v. v.items ≡ tabulate (weight_of (net_of net.now) (feed_flow_of (net_of net.now) point.now)) (net_of net.now).feeds) }
{
    let counts = net.sizes();
    let flows = flow_sums(net, point);
    let sums = rounded_sums(net, point, &flows);
    let mut weights = Vec::new(alloc);
    for feed in 0..counts.feeds {
        weights.push(weight(net, point, &flows, &sums, feed))?;
    }
    Ok(weights)
}

/// The weight of a feed, from what flows into each pool and from what its feeds' rounded weights sum to.
fn weight(
    net: &Network,
    point: &[i128],
    flows: &[u128; MAX_POOLS],
    sums: &[u128; MAX_POOLS],
    feed: u32,
) -> u32
    requires limited { IsLimited (net_of net.now) }
    requires feed { feed < (net_of net.now).feeds }
    requires point { (net_of net.now).feeds ≤ length point.now }
    requires flows { AreFlowSums (net_of net.now) point.now flows.now }
    requires sums { AreRoundedSums (net_of net.now) point.now sums.now }
    ensures { result ≡ weight_of (net_of net.now) (feed_flow_of (net_of net.now) point.now) feed }
{
    let part = rounded(net, point, flows, feed);
    let more = if leads(net, point, feed) {
        rest(net, point, sums, feed)
    } else {
        0
    };
    (part + more) as u32
}

/// What rounding leaves of the grain in a feed's pool.
fn rest(net: &Network, point: &[i128], sums: &[u128; MAX_POOLS], feed: u32) -> u128
    requires limited { IsLimited (net_of net.now) }
    requires feed { feed < (net_of net.now).feeds }
    requires sums { AreRoundedSums (net_of net.now) point.now sums.now }
    ensures value { result ≡ rest_of (net_of net.now) (feed_flow_of (net_of net.now) point.now) ((net_of net.now).feed_pool feed) }
    ensures size { result ≤ 2 ^ 20 }
{
    let (_, pool) = net.feed(feed);
    GRAIN.saturating_sub(sums[pool as usize])
}

/// For each pool what flows into it.
fn flow_sums(net: &Network, point: &[i128]) -> [u128; MAX_POOLS]
    requires { (net_of net.now).feeds ≤ length point.now }
    ensures { AreFlowSums (net_of net.now) point.now result }
{
    let counts = net.sizes();
    let mut sums = [0; MAX_POOLS];
    for feed in 0..counts.feeds {
        let (_, pool) = net.feed(feed);
        sums[pool as usize] += feed_flow(net, point, feed);
    }
    sums
}

/// For each pool the sum of its feeds' rounded weights.
fn rounded_sums(net: &Network, point: &[i128], flows: &[u128; MAX_POOLS]) -> [u128; MAX_POOLS]
    requires point { (net_of net.now).feeds ≤ length point.now }
    requires flows { AreFlowSums (net_of net.now) point.now flows.now }
    ensures { AreRoundedSums (net_of net.now) point.now result }
{
    let counts = net.sizes();
    let mut sums = [0; MAX_POOLS];
    for feed in 0..counts.feeds {
        let (_, pool) = net.feed(feed);
        sums[pool as usize] += rounded(net, point, flows, feed);
    }
    sums
}

/// A feed's part of what flows into its pool, rounded down.
fn rounded(net: &Network, point: &[i128], flows: &[u128; MAX_POOLS], feed: u32) -> u128
    requires limited { IsLimited (net_of net.now) }
    requires feed { feed < (net_of net.now).feeds }
    requires point { (net_of net.now).feeds ≤ length point.now }
    requires flows { AreFlowSums (net_of net.now) point.now flows.now }
    ensures value { result ≡ rounded_weight (net_of net.now) (feed_flow_of (net_of net.now) point.now) feed }
    ensures size { result ≤ 2 ^ 20 }
{
    let (_, pool) = net.feed(feed);
    share(GRAIN * feed_flow(net, point, feed), flows[pool as usize])
}

/// A quotient, rounded down, and 0 over 0.
fn share(number: u128, total: u128) -> u128
    ensures { result ≡ number / total }
{
    if total == 0 { 0 } else { number / total }
}

/// Whether a feed is the first of the greatest flow in its pool.
fn leads(net: &Network, point: &[i128], feed: u32) -> bool
    requires feed { feed < (net_of net.now).feeds }
    requires point { (net_of net.now).feeds ≤ length point.now }
    ensures { result ≡ leads_of (net_of net.now) (feed_flow_of (net_of net.now) point.now) feed }
{
    let counts = net.sizes();
    let (_, pool) = net.feed(feed);
    let flow = feed_flow(net, point, feed);
    for other in 0..counts.feeds {
        let (_, its_pool) = net.feed(other);
        if its_pool == pool && goes_before(other, feed_flow(net, point, other), feed, flow) {
            return false;
        }
    }
    true
}

/// Whether a feed of this flow goes before another one: more flows along it, or as much and it stands before it.
fn goes_before(feed: u32, flow: u128, other: u32, other_flow: u128) -> bool
    ensures { result ≡ (nat_lt other_flow flow || (flow == other_flow && nat_lt feed other)) }
{
    other_flow < flow || (flow == other_flow && feed < other)
}
