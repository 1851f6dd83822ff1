//! The qualities of a written plan's pools, by the weights of their feeds.

ghost use Rattle.std.specs.Prelude.{◌≡◌, ◌+◌, ◌*◌, ◌/◌, ◌%◌, ◌<◌, ◌≤◌, ◌^◌, IfOk, get_or, length, pos, ◌*ℤ◌, ◌+ℤ◌, unsigned_abs};
ghost use Rattle.integers.specs.Numbers.{tabulate};
ghost use Rattle.pool_model.specs.Network.{net_of};
ghost use Rattle.pool_model.specs.Plan.{IsWritten, Obeys, plan_of, written_out};
ghost use Rattle.plan_core.specs.Views.{shown_plan};
ghost use Rattle.plan_core.specs.Weighed.{weighed};
ghost use Rattle.program_points.specs.Written.{mixed_of, quality_of};

use blend_network::{Key, Network};
use edge_io::Memory;
use plan_core::WrittenPlan;
use std::alloc::Global;

/// Each quality of each pool, by pool and then by quality, over the plan's base.
pub(crate) fn pool_qualities(
    alloc: Global,
    net: &Network,
    plan: &WrittenPlan,
) -> Result<Vec<i128>, Memory>
    requires { IsWritten (net_of net.now) (shown_plan plan.now) }
    ensures { IfOk result (λ v. v.items ≡ tabulate (quality_of (net_of net.now) (shown_plan plan.now)) ((net_of net.now).pools * (net_of net.now).qualities)) }
{
    let counts = net.sizes();
    let mut qualities = Vec::new(alloc);
    for number in 0..cells(counts.pools, counts.qualities) {
        qualities.push(pool_quality(net, plan, number))?;
    }
    Ok(qualities)
}

/// For each out and each quality its pool's quality times its flow, over both bases.
pub(crate) fn mixed_flows(
    alloc: Global,
    net: &Network,
    plan: &WrittenPlan,
) -> Result<Vec<i128>, Memory>
    requires written { IsWritten (net_of net.now) (shown_plan plan.now) }
    requires obeys { Obeys (net_of net.now) (plan_of (net_of net.now) (shown_plan plan.now)) }
    ensures { IfOk result (λ v. v.items ≡ tabulate (mixed_of (net_of net.now) (shown_plan plan.now)) ((net_of net.now).outs * (net_of net.now).qualities)) }
{
    let counts = net.sizes();
    let mut mixed = Vec::new(alloc);
    for number in 0..cells(counts.outs, counts.qualities) {
        mixed.push(mixed_flow(net, plan, number))?;
    }
    Ok(mixed)
}

/// The quality of a number among those of the pools.
fn pool_quality(net: &Network, plan: &WrittenPlan, number: u32) -> i128
    requires written { IsWritten (net_of net.now) (shown_plan plan.now) }
    requires number { number < (net_of net.now).pools * (net_of net.now).qualities }
    ensures { result ≡ quality_of (net_of net.now) (shown_plan plan.now) number }
{
    let counts = net.sizes();
    let (pool, quality) = place_of(number, counts.pools, counts.qualities);
    weighed_quality(net, plan, pool, quality)
}

/// The mixed variable of a number.
fn mixed_flow(net: &Network, plan: &WrittenPlan, number: u32) -> i128
    requires written { IsWritten (net_of net.now) (shown_plan plan.now) }
    requires obeys { Obeys (net_of net.now) (plan_of (net_of net.now) (shown_plan plan.now)) }
    requires number { number < (net_of net.now).outs * (net_of net.now).qualities }
    ensures { result ≡ mixed_of (net_of net.now) (shown_plan plan.now) number }
{
    let counts = net.sizes();
    let (out, quality) = place_of(number, counts.outs, counts.qualities);
    let (pool, _) = net.out(out);
    let held = weighed_quality(net, plan, pool, quality);
    flowing(held, plan.outflows.as_slice()[out as usize])
}

/// A pool's quality by the weights of its feeds.
fn weighed_quality(net: &Network, plan: &WrittenPlan, pool: u32, quality: u32) -> i128
    requires written { IsWritten (net_of net.now) (shown_plan plan.now) }
    requires pool { pool < (net_of net.now).pools }
    requires quality { quality < (net_of net.now).qualities }
    ensures value { result ≡ weighed (net_of net.now) (shown_plan plan.now) pool quality }
{
    let weights = plan.weights.as_slice();
    let mut sum = 0;
    for feed in net.numbers_at(Key::FeedsInto, pool) {
        let (source, _) = net.feed(*feed);
        sum += weighted(net.source_quality(source, quality), weights[*feed as usize]);
    }
    sum
}

fn weighted(quality: i64, weight: u32) -> i128
    ensures value { result ≡ quality *ℤ pos weight }
    ensures small { unsigned_abs result ≤ 2 ^ 95 }
{
    i128::from(quality) * i128::from(weight)
}

fn flowing(quality: i128, flow: u64) -> i128
    requires quality { unsigned_abs quality ≤ 2 ^ 57 }
    requires flow { flow ≤ 2 ^ 56 }
    ensures { result ≡ quality *ℤ pos flow }
{
    quality * i128::from(flow)
}

/// How many cells a grid has.
fn cells(rows: u32, width: u32) -> u32
    requires rows { rows ≤ 256 }
    requires width { width ≤ 8 }
    ensures value { result ≡ rows * width }
    ensures small { result ≤ 2048 }
{
    rows * width
}

/// The row and the column of a cell in a grid of some width.
fn place_of(number: u32, rows: u32, width: u32) -> (u32, u32)
    requires { number < rows * width }
    ensures row { result.0 ≡ number / width }
    ensures column { result.1 ≡ number % width }
    ensures row_below { result.0 < rows }
    ensures column_below { result.1 < width }
{
    (number / width, number % width)
}
