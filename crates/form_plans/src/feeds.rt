//! The weights of feeds by their parts.

ghost use Rattle.std.specs.Prelude.{◌<◌, ◌≤◌, IfOk};
ghost use Rattle.pool_model.specs.Network.{IsLimited, net_of};
ghost use Rattle.pool_model.specs.Plan.{Carries};
ghost use Rattle.program_model.specs.LeastBases.{AreWholeParts};
ghost use Rattle.point_checks.specs.Flows.{AreFlows, flows_plan};
ghost use Rattle.form_plans.specs.Parts.{AreParts, IsPart};

use blend_network::{Key, Network};
use edge_io::Memory;
use point_checks::{Flows, sum_at_node};
use start_ways::is_first_feed;
use std::alloc::Global;

/// Each feed's weight, over a base that makes all parts whole.
pub fn weights(alloc: Global, net: &Network, flows: &Flows, base: u32) -> Result<Vec<u32>, Memory>
    requires flows { AreFlows (net_of net.now) flows.now }
    requires carries { Carries (net_of net.now) (flows_plan flows.now) }
    requires whole { AreWholeParts (net_of net.now) (flows_plan flows.now) base }
    requires small { base ≤ 1048576 }
    ensures { IfOk result (λ v. AreParts (net_of net.now) (flows_plan flows.now) base v.items) }
{
    let counts = net.sizes();
    let mut weights = Vec::new(alloc);
    for feed in 0..counts.feeds {
        weights.push(part(net, flows, base, feed))?;
    }
    Ok(weights)
}

/// A feed's weight.
fn part(net: &Network, flows: &Flows, base: u32, feed: u32) -> u32
    requires limited { IsLimited (net_of net.now) }
    requires flows { AreFlows (net_of net.now) flows.now }
    requires carries { Carries (net_of net.now) (flows_plan flows.now) }
    requires whole { AreWholeParts (net_of net.now) (flows_plan flows.now) base }
    requires small { base ≤ 1048576 }
    requires feed { feed < (net_of net.now).feeds }
    ensures { IsPart (net_of net.now) (flows_plan flows.now) base feed result }
{
    let (_, pool) = net.feed(feed);
    let sent = sum_at_node(net, Key::OutsFrom, pool, flows.outs);
    if sent > 0 {
        let brought = flows.feeds[feed as usize];
        return (brought * u128::from(base) / sent) as u32;
    }
    if is_first_feed(net, feed) {
        return base;
    }
    0
}
