//! The plain plan of a point: its own flows, rounded down.

ghost use Rattle.std.specs.Prelude.{◌≡◌, ℕ, ◌+◌, ◌/◌, ◌<◌, ◌≤◌, ◌^◌, min, unsigned_abs, length, option_map, IfOk};
ghost use Rattle.integers.specs.Numbers.{tabulate};
ghost use Rattle.pool_model.specs.Network.{net_of, capped as capped_of};
ghost use Rattle.pool_model.specs.Starting.{direct_room as direct_room_of};
ghost use Rattle.plan_core.specs.Views.{shown_plan};
ghost use Rattle.plan_repair.specs.PlainPlan.{above_zero as above_zero_of, direct_flow as direct_flow_of, feed_flow as feed_flow_of, out_flow as out_flow_of};
ghost use Rattle.plan_repair.specs.PlainPlan.{feed_room as feed_room_of, out_room as out_room_of, parts, plain_plan as plain_written, within as within_of};

use crate::weights::plain_weights;
use blend_network::Network;
use edge_io::Memory;
use plan_core::WrittenPlan;
use std::alloc::Global;

/// How many parts a millionth of flow has in a point.
const PARTS: u128 = 4_294_967_296;

/// The plain plan of a point.
pub(crate) fn plain_plan(
    alloc: Global,
    net: &Network,
    point: &[i128],
) -> Result<WrittenPlan, Memory>
    requires { (net_of net.now).feeds + (net_of net.now).outs + (net_of net.now).directs ≤ length point.now }
    ensures { IfOk result (λ w. shown_plan w ≡ plain_written (net_of net.now) point.now) }
{
    Ok(WrittenPlan {
        base: 1_048_576,
        flow_base: 1,
        weights: plain_weights(alloc, net, point)?,
        outflows: outflows(alloc, net, point)?,
        direct: directs(alloc, net, point)?,
    })
}

/// What flows along each out, in millionths.
fn outflows(alloc: Global, net: &Network, point: &[i128]) -> Result<Vec<u64>, Memory>
    requires { (net_of net.now).feeds + (net_of net.now).outs ≤ length point.now }
    ensures { IfOk result (λ v. v.items ≡ tabulate (λ o. out_flow_of (net_of net.now) point.now o / parts) (net_of net.now).outs) }
{
    let counts = net.sizes();
    let mut flows = Vec::new(alloc);
    for out in 0..counts.outs {
        let room = out_room(net, out);
        flows.push(millionths(room, point[(counts.feeds + out) as usize]))?;
    }
    Ok(flows)
}

/// What flows along each direct, in millionths.
fn directs(alloc: Global, net: &Network, point: &[i128]) -> Result<Vec<u64>, Memory>
    requires { (net_of net.now).feeds + (net_of net.now).outs + (net_of net.now).directs ≤ length point.now }
    ensures { IfOk result (λ v. v.items ≡ tabulate (λ e. direct_flow_of (net_of net.now) point.now e / parts) (net_of net.now).directs) }
{
    let counts = net.sizes();
    let mut flows = Vec::new(alloc);
    for direct in 0..counts.directs {
        let room = direct_room(net, direct);
        let place = counts.feeds + counts.outs + direct;
        flows.push(millionths(room, point[place as usize]))?;
    }
    Ok(flows)
}

/// What flows along a feed, in parts of a millionth.
pub(crate) fn feed_flow(net: &Network, point: &[i128], feed: u32) -> u128
    requires feed { feed < (net_of net.now).feeds }
    requires point { (net_of net.now).feeds ≤ length point.now }
    ensures value { result ≡ feed_flow_of (net_of net.now) point.now feed }
    ensures size { result ≤ 2 ^ 95 }
{
    within(feed_room(net, feed), point[feed as usize])
}

/// The most that may flow along a feed, in millionths.
fn feed_room(net: &Network, feed: u32) -> u64
    requires { feed < (net_of net.now).feeds }
    ensures value { result ≡ feed_room_of (net_of net.now) feed }
    ensures size { result ≤ 2 ^ 63 }
{
    let (source, pool) = net.feed(feed);
    let most = lesser_maximum(net.source_max(source), net.pool_max(pool));
    capped(net.feed_max(feed), most)
}

/// The most that may flow along an out, in millionths.
fn out_room(net: &Network, out: u32) -> u64
    requires { out < (net_of net.now).outs }
    ensures value { result ≡ out_room_of (net_of net.now) out }
    ensures size { result ≤ 2 ^ 63 }
{
    let (pool, product) = net.out(out);
    let most = lesser_maximum(net.pool_max(pool), net.product_max(product));
    capped(net.out_max(out), most)
}

/// The most that may flow along a direct, in millionths.
fn direct_room(net: &Network, direct: u32) -> u64
    requires { direct < (net_of net.now).directs }
    ensures value { result ≡ direct_room_of (net_of net.now) direct }
    ensures size { result ≤ 2 ^ 63 }
{
    let (source, product) = net.direct(direct);
    let most = lesser_maximum(net.source_max(source), net.product_max(product));
    capped(net.direct_max(direct), most)
}

/// The lesser of two maxima.
fn lesser_maximum(a: i64, b: i64) -> u64
    ensures value { result ≡ min (unsigned_abs a) (unsigned_abs b) }
    ensures size { result ≤ 2 ^ 63 }
{
    a.unsigned_abs().min(b.unsigned_abs())
}

/// The lesser of an amount and an arc's maximum, if there is one.
fn capped(max: Option<i64>, amount: u64) -> u64
    ensures value { result ≡ capped_of (option_map unsigned_abs max) amount }
    ensures size { result ≤ amount }
{
    match max {
        None => amount,
        Some(max) => max.unsigned_abs().min(amount),
    }
}

/// A number of the point, brought within the most that may flow, in millionths, rounded down.
fn millionths(most: u64, number: i128) -> u64
    requires { most ≤ 2 ^ 63 }
    ensures { result ≡ within_of most number / parts }
{
    (within(most, number) / PARTS) as u64
}

/// A number of the point, brought between 0 and the most that may flow.
fn within(most: u64, number: i128) -> u128
    requires { most ≤ 2 ^ 63 }
    ensures value { result ≡ within_of most number }
    ensures size { result ≤ 2 ^ 95 }
{
    above_zero(number).min(PARTS * u128::from(most))
}

/// A number, or 0 where it is below.
fn above_zero(number: i128) -> u128
    ensures { result ≡ above_zero_of number }
{
    if number < 0 { 0 } else { number as u128 }
}
