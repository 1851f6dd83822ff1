//! The qualities that reach the products, by pool weights. No product over pools is taken.

ghost use Rattle.std.specs.Prelude.{◌≡◌, ℕ, ◌*◌, ◌<◌, ◌≤◌, ◌^◌, get_or, pos, ◌*ℤ◌, unsigned_abs};
ghost use Rattle.pool_model.specs.Network.{net_of};
ghost use Rattle.plan_core.specs.Views.{shown_plan};
ghost use Rattle.plan_core.specs.Faults.{IsShaped};
ghost use Rattle.plan_core.specs.Weighed.{ArePoolQualities, AreProductQualities, AreQualities, HasRoom};

use crate::plan::WrittenPlan;
use crate::sums::{MAX_POOLS, MAX_PRODUCTS};
use blend_network::Network;

/// The most qualities that a network has.
pub(crate) const MAX_QUALITIES: usize = 8;

/// For each quality, and for it each product, how much of it reaches the product, in parts of the scale, over both bases.
pub(crate) fn qualities(net: &Network, plan: &WrittenPlan) -> [[i128; MAX_PRODUCTS]; MAX_QUALITIES]
    requires shaped { IsShaped (net_of net.now) (shown_plan plan.now) }
    requires room { HasRoom (net_of net.now) (shown_plan plan.now) }
    ensures { AreQualities (net_of net.now) (shown_plan plan.now) result }
{
    let counts = net.sizes();
    let mut columns = [[0; MAX_PRODUCTS]; MAX_QUALITIES];
    for quality in 0..counts.qualities {
        columns[quality as usize] = product_qualities(net, plan, quality);
    }
    columns
}

/// How much of a quality reaches each product, in parts of the scale, over both bases.
pub fn product_qualities(net: &Network, plan: &WrittenPlan, quality: u32) -> [i128; MAX_PRODUCTS]
    requires quality { quality < (net_of net.now).qualities }
    requires shaped { IsShaped (net_of net.now) (shown_plan plan.now) }
    requires room { HasRoom (net_of net.now) (shown_plan plan.now) }
    ensures { AreProductQualities (net_of net.now) (shown_plan plan.now) quality result }
{
    let counts = net.sizes();
    let pools = pool_qualities(net, plan, quality);
    let mut sums = [0; MAX_PRODUCTS];
    for out in 0..counts.outs {
        let (pool, product) = net.out(out);
        let leaving = in_parts(net.retained(pool, quality), pools[pool as usize]);
        sums[product as usize] += weighted(leaving, u128::from(plan.outflow(out)));
    }
    for direct in 0..counts.directs {
        let (source, product) = net.direct(direct);
        let sent = in_parts(net.scale(), i128::from(net.source_quality(source, quality)));
        sums[product as usize] += weighted(sent, plan.whole_direct(direct));
    }
    sums
}

/// A quality that enters each pool, by its feeds' weights, over the base.
fn pool_qualities(net: &Network, plan: &WrittenPlan, quality: u32) -> [i128; MAX_POOLS]
    requires quality { quality < (net_of net.now).qualities }
    requires shaped { IsShaped (net_of net.now) (shown_plan plan.now) }
    requires room { HasRoom (net_of net.now) (shown_plan plan.now) }
    ensures { ArePoolQualities (net_of net.now) (shown_plan plan.now) quality result }
{
    let counts = net.sizes();
    let mut sums = [0; MAX_POOLS];
    for feed in 0..counts.feeds {
        let (source, pool) = net.feed(feed);
        sums[pool as usize] += weighted(
            i128::from(net.source_quality(source, quality)),
            u128::from(plan.weight(feed)),
        );
    }
    sums
}

/// So many parts of a quality or of a limit.
pub(crate) fn in_parts(parts: i64, number: i128) -> i128
    requires parts { unsigned_abs parts ≤ 1000 }
    requires number { unsigned_abs number ≤ 2 ^ 57 }
    ensures value { result ≡ parts *ℤ number }
    ensures size { unsigned_abs result ≤ 1000 * unsigned_abs number }
{
    i128::from(parts) * number
}

/// A number for each unit of a flow.
pub fn weighted(number: i128, flow: u128) -> i128
    requires flow { flow < 2 ^ 127 }
    requires size { unsigned_abs number * flow ≤ 2 ^ 123 }
    ensures value { result ≡ number *ℤ pos flow }
    ensures size { unsigned_abs result ≡ unsigned_abs number * flow }
{
    number * flow as i128
}
