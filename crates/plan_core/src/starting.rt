//! The starting plans: the zero plan, and each way alone.

ghost use Rattle.std.specs.Prelude.{◌≡◌, ◌<◌, IfOk, length};
ghost use Rattle.pool_model.specs.Network.{net_of};
ghost use Rattle.pool_model.specs.Paths.{paths_of, path_at};
ghost use Rattle.pool_model.specs.Starting.{zero_plan as zero_written, simple_plan as simple_written, through, straight};
ghost use Rattle.start_ways.specs.Ways.{shown_way, IsInRange};
ghost use Rattle.plan_core.specs.Views.{shown_plan};

use crate::plan::WrittenPlan;
use blend_network::Network;
use edge_io::Memory;
use start_ways::{Way, direct_flow, first_weights, no_flows, one_flow, path_flow, weights_on};
use std::alloc::Global;

/// The zero plan: both bases are 1, each pool's weight stands on its first feed, and nothing flows.
pub fn zero_plan(alloc: Global, net: &Network) -> Result<WrittenPlan, Memory>
    // Promise: The zero plan and the simple plans are those of the definitions
    ensures { IfOk result (λ w. shown_plan w ≡ zero_written (net_of net.now)) }
{
    let counts = net.sizes();
    Ok(WrittenPlan {
        base: 1,
        flow_base: 1,
        weights: first_weights(alloc, net, counts.feeds)?,
        outflows: no_flows(alloc, counts.outs)?,
        direct: no_flows(alloc, counts.directs)?,
    })
}

/// The simple plan of a way: the zero plan with as much along the way as it carries alone, and on a path all of the pool's
/// weight on the path's feed.
pub fn simple_plan(alloc: Global, net: &Network, way: Way) -> Result<WrittenPlan, Memory>
    requires { IsInRange (net_of net.now) way }
    // Promise: The zero plan and the simple plans are those of the definitions
    ensures { IfOk result (λ w. shown_plan w ≡ simple_written (net_of net.now) (shown_way (net_of net.now) way)) }
{
    match way {
        Way::Through(path) => through_plan(alloc, net, path),
        Way::Direct(direct) => direct_plan(alloc, net, direct),
    }
}

/// The simple plan of a path.
fn through_plan(alloc: Global, net: &Network, path: u32) -> Result<WrittenPlan, Memory>
    requires { path < length (paths_of (net_of net.now)) }
    ensures { IfOk result (λ w. shown_plan w ≡ simple_written (net_of net.now) (through (path_at (net_of net.now) path).feed (path_at (net_of net.now) path).out)) }
{
    let counts = net.sizes();
    let (feed, out) = net.path(path);
    Ok(WrittenPlan {
        base: 1,
        flow_base: 1,
        weights: weights_on(alloc, net, counts.feeds, feed)?,
        outflows: one_flow(alloc, counts.outs, out, path_flow(net, path))?,
        direct: no_flows(alloc, counts.directs)?,
    })
}

/// The simple plan of a direct.
fn direct_plan(alloc: Global, net: &Network, direct: u32) -> Result<WrittenPlan, Memory>
    requires { direct < (net_of net.now).directs }
    ensures { IfOk result (λ w. shown_plan w ≡ simple_written (net_of net.now) (straight direct)) }
{
    let counts = net.sizes();
    Ok(WrittenPlan {
        base: 1,
        flow_base: 1,
        weights: first_weights(alloc, net, counts.feeds)?,
        outflows: no_flows(alloc, counts.outs)?,
        direct: one_flow(alloc, counts.directs, direct, direct_flow(net, direct))?,
    })
}
