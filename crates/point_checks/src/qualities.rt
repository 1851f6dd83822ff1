//! The qualities that flows bring to a node, and the limits on them.

ghost use Rattle.std.specs.Prelude.{◌≡◌, ℕ, ◌*◌, ◌<◌, ◌≤◌, ◌^◌, ◌↔◌, IfSome, IsTrue, get_or, length, pos, ◌*ℤ◌, unsigned_abs};
ghost use Rattle.pool_model.specs.Network.{IsWithin, net_of};
ghost use Rattle.blend_network.specs.Keys.{count_of, nodes_of};
ghost use Rattle.point_checks.specs.Qualities.{IsAbove, IsBelow, MeetsLimits, flow_into, key_by, most_by, quality_brought, quality_by};

use crate::carriers::Carrier;
use blend_network::Network;

/// The quality that flows bring to a node, times their flow: feeds to a pool, and directs and paths, in parts of the scale, to a product.
pub fn quality_into(net: &Network, by: Carrier, node: u32, quality: u32, flows: &[u128]) -> i128
    requires node { node < nodes_of (net_of net.now) (key_by by) }
    requires quality { quality < (net_of net.now).qualities }
    requires long { length flows.now ≡ count_of (net_of net.now) (key_by by) }
    requires small { most_by by * flow_into (net_of net.now) by node (λ i. get_or flows.now i 0) ≤ 2 ^ 123 }
    ensures value { result ≡ quality_brought (net_of net.now) by node quality (λ i. get_or flows.now i 0) }
    ensures small { unsigned_abs result ≤ 2 ^ 123 }
{
    let mut sum = 0;
    for number in net.numbers_at(by.key(), node) {
        sum += part(net, by, *number, quality, flows[*number as usize]);
    }
    sum
}

/// What one feed, direct or path brings of a quality, times its flow.
fn part(net: &Network, by: Carrier, number: u32, quality: u32, flow: u128) -> i128
    requires number { number < count_of (net_of net.now) (key_by by) }
    requires quality { quality < (net_of net.now).qualities }
    requires small { most_by by * flow ≤ 2 ^ 123 }
    ensures value { result ≡ quality_by (net_of net.now) by number quality *ℤ pos flow }
    ensures small { unsigned_abs result ≤ most_by by * flow }
{
    weighted(quality_of(net, by, number, quality), flow)
}

/// What one feed, direct or path brings of a quality.
fn quality_of(net: &Network, by: Carrier, number: u32, quality: u32) -> i128
    requires number { number < count_of (net_of net.now) (key_by by) }
    requires quality { quality < (net_of net.now).qualities }
    ensures value { result ≡ quality_by (net_of net.now) by number quality }
    ensures size { unsigned_abs result ≤ most_by by }
{
    match by {
        Carrier::Feeds => {
            let (source, _) = net.feed(number);
            i128::from(net.source_quality(source, quality))
        }
        Carrier::Directs => {
            let (source, _) = net.direct(number);
            in_parts(net.scale(), net.source_quality(source, quality))
        }
        Carrier::Paths => {
            let (feed, out) = net.path(number);
            let (source, _) = net.feed(feed);
            let (pool, _) = net.out(out);
            in_parts(
                net.retained(pool, quality),
                net.source_quality(source, quality),
            )
        }
    }
}

/// So many parts of a quality.
fn in_parts(parts: i64, quality: i64) -> i128
    requires parts { unsigned_abs parts ≤ 1000 }
    requires quality { unsigned_abs quality ≤ 10 ^ 11 }
    ensures value { result ≡ parts *ℤ quality }
    ensures size { unsigned_abs result ≤ 10 ^ 14 }
{
    i128::from(parts) * i128::from(quality)
}

/// A number for each unit of a flow.
pub fn weighted(number: i128, flow: u128) -> i128
    requires flow { flow < 2 ^ 127 }
    requires size { unsigned_abs number * flow ≤ 2 ^ 123 }
    ensures value { result ≡ number *ℤ pos flow }
    ensures size { unsigned_abs result ≡ unsigned_abs number * flow }
{
    number * flow as i128
}

/// Whether the quality that reaches a product, in parts of the scale, times the product's inflow, lies between the product's limits.
pub fn is_within_limits(
    net: &Network,
    product: u32,
    quality: u32,
    inflow: u128,
    brought: i128,
) -> bool
    requires product { product < (net_of net.now).products }
    requires quality { quality < (net_of net.now).qualities }
    requires inflow { inflow ≤ 2 ^ 76 }
    ensures { IsTrue result ↔ MeetsLimits (net_of net.now) product quality inflow brought }
{
    let scale = net.scale();
    if is_above(net.product_most(product, quality), scale, inflow, brought) {
        return false;
    }
    !is_below(net.product_least(product, quality), scale, inflow, brought)
}

/// Whether a quality that reaches a product passes its most.
fn is_above(most: Option<i64>, scale: i64, inflow: u128, quality: i128) -> bool
    requires inflow { inflow ≤ 2 ^ 76 }
    requires most { IfSome most (IsWithin (10 ^ 11)) }
    requires scale { unsigned_abs scale ≤ 1000 }
    ensures { IsTrue result ↔ IsAbove most scale inflow quality }
{
    match most {
        None => false,
        Some(most) => weighted(in_parts(scale, most), inflow) < quality,
    }
}

/// Whether a quality that reaches a product stays below its least.
fn is_below(least: Option<i64>, scale: i64, inflow: u128, quality: i128) -> bool
    requires inflow { inflow ≤ 2 ^ 76 }
    requires least { IfSome least (IsWithin (10 ^ 11)) }
    requires scale { unsigned_abs scale ≤ 1000 }
    ensures { IsTrue result ↔ IsBelow least scale inflow quality }
{
    match least {
        None => false,
        Some(least) => quality < weighted(in_parts(scale, least), inflow),
    }
}
