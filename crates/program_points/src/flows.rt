//! The flows of a written plan over both of its bases.

ghost use Rattle.std.specs.Prelude.{◌≡◌, ◌*◌, ◌+◌, ◌<◌, ◌≤◌, ◌^◌, All, IfOk, get_or, length, map};
ghost use Rattle.integers.specs.Numbers.{tabulate};
ghost use Rattle.integers.specs.Sums.{sum_at};
ghost use Rattle.pool_model.specs.Network.{IsLimited, net_of};
ghost use Rattle.pool_model.specs.Plan.{plan_of, written_outflow};
ghost use Rattle.row_model.specs.Variables.{path_count};
ghost use Rattle.plan_core.specs.Faults.{IsShaped};
ghost use Rattle.plan_core.specs.Views.{shown_plan};
ghost use Rattle.program_points.specs.Written.{written_path_flow};

use blend_network::{Key, Network};
use edge_io::Memory;
use plan_core::WrittenPlan;
use std::alloc::Global;

/// Each flow times a base.
pub(crate) fn scaled(alloc: Global, base: u32, flows: &[u64]) -> Result<Vec<u128>, Memory>
    ensures { IfOk result (λ v. v.items ≡ map (λ f. base * f) flows.now) }
{
    let mut whole = Vec::new(alloc);
    for flow in flows {
        whole.push(times(base, *flow))?;
    }
    Ok(whole)
}

fn times(base: u32, flow: u64) -> u128
    ensures value { result ≡ base * flow }
    ensures small { result < 2 ^ 96 }
{
    u128::from(base) * u128::from(flow)
}

/// What each pool sends out, over the flow base.
pub(crate) fn pool_totals(
    alloc: Global,
    net: &Network,
    outflows: &[u64],
) -> Result<Vec<u128>, Memory>
    requires { length outflows.now ≡ (net_of net.now).outs }
    ensures totals { IfOk result (λ v. v.items ≡ tabulate (λ l. sum_at (net_of net.now).out_pool l (λ o. get_or outflows.now o 0) (net_of net.now).outs) (net_of net.now).pools) }
    ensures small { IfOk result (λ v. All (λ t. t < 2 ^ 74) v.items) }
    ensures limited { IsLimited (net_of net.now) }
{
    let mut totals = Vec::new(alloc);
    for pool in 0..net.sizes().pools {
        totals.push(total(net, pool, outflows))?;
    }
    Ok(totals)
}

/// What a pool sends out.
fn total(net: &Network, pool: u32, outflows: &[u64]) -> u128
    requires pool { pool < (net_of net.now).pools }
    requires long { length outflows.now ≡ (net_of net.now).outs }
    ensures sum { result ≡ sum_at (net_of net.now).out_pool pool (λ o. get_or outflows.now o 0) (net_of net.now).outs }
    ensures small { result < 2 ^ 74 }
{
    let outs = net.numbers_at(Key::OutsFrom, pool);
    let mut sum = 0;
    for out in outs {
        sum += u128::from(outflows[*out as usize]);
    }
    sum
}

/// What flows along each feed, over both bases: its weight of what its pool sends out.
pub(crate) fn feed_flows(
    alloc: Global,
    net: &Network,
    plan: &WrittenPlan,
) -> Result<Vec<u128>, Memory>
    requires { IsShaped (net_of net.now) (shown_plan plan.now) }
    ensures flows { IfOk result (λ v. v.items ≡ tabulate (plan_of (net_of net.now) (shown_plan plan.now)).feed (net_of net.now).feeds) }
    ensures limited { IsLimited (net_of net.now) }
{
    let totals = pool_totals(alloc, net, plan.outflows.as_slice())?;
    let mut flows = Vec::new(alloc);
    for feed in 0..net.sizes().feeds {
        flows.push(feed_flow(net, plan, totals.as_slice(), feed))?;
    }
    Ok(flows)
}

/// What flows along each path, over both bases: its feed's weight of what its out carries.
pub(crate) fn path_flows(
    alloc: Global,
    net: &Network,
    plan: &WrittenPlan,
) -> Result<Vec<u128>, Memory>
    requires { IsShaped (net_of net.now) (shown_plan plan.now) }
    ensures { IfOk result (λ v. v.items ≡ tabulate (written_path_flow (net_of net.now) (shown_plan plan.now)) (path_count (net_of net.now))) }
{
    let mut flows = Vec::new(alloc);
    for path in 0..net.paths() {
        flows.push(flow_along(net, plan, path))?;
    }
    Ok(flows)
}

fn feed_flow(net: &Network, plan: &WrittenPlan, totals: &[u128], feed: u32) -> u128
    requires shaped { IsShaped (net_of net.now) (shown_plan plan.now) }
    requires feed { feed < (net_of net.now).feeds }
    requires totals { totals.now ≡ tabulate (written_outflow (net_of net.now) (shown_plan plan.now)) (net_of net.now).pools }
    requires small { All (λ t. t < 2 ^ 74) totals.now }
    ensures { result ≡ (plan_of (net_of net.now) (shown_plan plan.now)).feed feed }
{
    let (_, pool) = net.feed(feed);
    parted(
        plan.weights.as_slice()[feed as usize],
        totals[pool as usize],
    )
}

fn flow_along(net: &Network, plan: &WrittenPlan, path: u32) -> u128
    requires shaped { IsShaped (net_of net.now) (shown_plan plan.now) }
    requires path { path < path_count (net_of net.now) }
    ensures { result ≡ written_path_flow (net_of net.now) (shown_plan plan.now) path }
{
    let (feed, out) = net.path(path);
    times(
        plan.weights.as_slice()[feed as usize],
        plan.outflows.as_slice()[out as usize],
    )
}

fn parted(weight: u32, total: u128) -> u128
    requires { total < 2 ^ 74 }
    ensures { result ≡ weight * total }
{
    u128::from(weight) * total
}

/// Both bases of a plan, multiplied.
pub(crate) fn denominator(flow_base: u32, base: u32) -> u64
    ensures { result ≡ flow_base * base }
{
    u64::from(flow_base) * u64::from(base)
}
