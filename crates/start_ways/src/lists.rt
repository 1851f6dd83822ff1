//! The weights and flows of a starting plan, as lists by number.

ghost use Rattle.std.specs.Prelude.{◌≡◌, ◌<◌, ◌≤◌, ◌==◌, IfOk};
ghost use Rattle.integers.specs.Numbers.{tabulate};
ghost use Rattle.pool_model.specs.Network.{net_of};
ghost use Rattle.pool_model.specs.Starting.{feeds_before, first_weight, alone};
ghost use Rattle.start_ways.specs.Weights.{weight_on};

use blend_network::Network;
use edge_io::Memory;
use std::alloc::Global;

/// For each feed 1 where it is the first of its pool, and else 0.
pub fn first_weights(alloc: Global, net: &Network, feeds: u32) -> Result<Vec<u32>, Memory>
    requires { feeds ≤ (net_of net.now).feeds }
    ensures { IfOk result (λ v. v.items ≡ tabulate (first_weight (net_of net.now)) feeds) }
{
    let mut weights = Vec::new(alloc);
    for feed in 0..feeds {
        let weight = if is_first_feed(net, feed) { 1 } else { 0 };
        weights.push(weight)?;
    }
    Ok(weights)
}

/// For each feed 1 where it is this one, or the first of another pool, and else 0.
pub fn weights_on(alloc: Global, net: &Network, feeds: u32, on: u32) -> Result<Vec<u32>, Memory>
    requires feeds { feeds ≤ (net_of net.now).feeds }
    requires on { on < (net_of net.now).feeds }
    ensures { IfOk result (λ v. v.items ≡ tabulate (weight_on (net_of net.now) on) feeds) }
{
    let (_, full) = net.feed(on);
    let mut weights = Vec::new(alloc);
    for feed in 0..feeds {
        weights.push(weight_of(net, feed, on, full))?;
    }
    Ok(weights)
}

/// Nothing on each of so many arcs.
pub fn no_flows(alloc: Global, arcs: u32) -> Result<Vec<u64>, Memory>
    ensures { IfOk result (λ v. v.items ≡ tabulate (λ _. 0) arcs) }
{
    let mut flows = Vec::new(alloc);
    for arc in 0..arcs {
        let _ = arc;
        flows.push(0)?;
    }
    Ok(flows)
}

/// An amount on one of so many arcs, and nothing on the others.
pub fn one_flow(alloc: Global, arcs: u32, at: u32, amount: u64) -> Result<Vec<u64>, Memory>
    ensures { IfOk result (λ v. v.items ≡ tabulate (alone at amount) arcs) }
{
    let mut flows = Vec::new(alloc);
    for arc in 0..arcs {
        let flow = if arc == at { amount } else { 0 };
        flows.push(flow)?;
    }
    Ok(flows)
}

/// The weight of a feed, where all weight of one pool stands on one of its feeds.
fn weight_of(net: &Network, feed: u32, on: u32, full: u32) -> u32
    requires feed { feed < (net_of net.now).feeds }
    requires full { full ≡ (net_of net.now).feed_pool on }
    ensures { result ≡ weight_on (net_of net.now) on feed }
{
    let (_, pool) = net.feed(feed);
    let carries = if pool == full {
        feed == on
    } else {
        is_first_feed(net, feed)
    };
    u32::from(carries)
}

/// Whether no feed of the same pool stands before this one.
pub fn is_first_feed(net: &Network, feed: u32) -> bool
    requires { feed < (net_of net.now).feeds }
    ensures { result ≡ (feeds_before (net_of net.now) feed == 0) }
{
    let (_, pool) = net.feed(feed);
    for earlier in 0..feed {
        let (_, other) = net.feed(earlier);
        if other == pool {
            return false;
        }
    }
    true
}
