//! How much a way alone carries.

ghost use Rattle.std.specs.Prelude.{◌≡◌, ◌<◌, ◌≤◌, ◌*◌, ◌^◌, ◌&&◌, Option, Some, None, length, pos, ◌*ℤ◌, unsigned_abs, IfSome};
ghost use Rattle.pool_model.specs.Network.{net_of, IsLimited, IsWithin};
ghost use Rattle.pool_model.specs.Paths.{paths_of, path_at};
ghost use Rattle.pool_model.specs.Starting.{suits as suits_of, is_above, is_below, way_quality, direct_flow as direct_flow_of, path_flow as path_flow_of};
ghost use Rattle.start_ways.specs.Ways.{shown_way, IsInRange, capped as capped_by};

use crate::way::Way;
use blend_network::Network;

/// How much a path alone carries, in millionths: the least of the maxima along it, of its nodes and of its arcs, or nothing where
/// a quality that it brings breaks a limit of the product.
pub fn path_flow(net: &Network, path: u32) -> u64
    requires { path < length (paths_of (net_of net.now)) }
    // Promise: What a way carries alone is the least of the maxima along it, those of its arcs among them, and nothing where a quality
    //   that it brings breaks a limit of the product
    ensures flow { result ≡ path_flow_of (net_of net.now) (path_at (net_of net.now) path).feed (path_at (net_of net.now) path).out }
    ensures size { result ≤ 10 ^ 12 }
{
    let (feed, out) = net.path(path);
    let (source, _) = net.feed(feed);
    let (pool, product) = net.out(out);
    if suits(net, Way::Through(path), product) {
        let nodes = net
            .source_max(source)
            .min(net.pool_max(pool).min(net.product_max(product)));
        capped(net.out_max(out), capped(net.feed_max(feed), nodes)) as u64
    } else {
        0
    }
}

/// How much a direct alone carries, in millionths: the least of the maxima at its ends and its own, or nothing where a quality of
/// the source breaks a limit of the product.
pub fn direct_flow(net: &Network, direct: u32) -> u64
    requires { direct < (net_of net.now).directs }
    // Promise: What a way carries alone is the least of the maxima along it, those of its arcs among them, and nothing where a quality
    //   that it brings breaks a limit of the product
    ensures flow { result ≡ direct_flow_of (net_of net.now) direct }
    ensures size { result ≤ 10 ^ 12 }
{
    let (source, product) = net.direct(direct);
    if suits(net, Way::Direct(direct), product) {
        let nodes = net.source_max(source).min(net.product_max(product));
        capped(net.direct_max(direct), nodes) as u64
    } else {
        0
    }
}

/// The lesser of an amount and a maximum: one that isn't there bounds nothing.
fn capped(most: Option<i64>, amount: i64) -> i64
    ensures { result ≡ capped_by most amount }
{
    match most {
        None => amount,
        Some(most) => most.min(amount),
    }
}

/// Whether each quality that the way brings lies between the product's limits.
fn suits(net: &Network, way: Way, product: u32) -> bool
    requires way { IsInRange (net_of net.now) way }
    requires product { product < (net_of net.now).products }
    ensures { result ≡ suits_of (net_of net.now) (way_quality (net_of net.now) (shown_way (net_of net.now) way)) product }
{
    let counts = net.sizes();
    for quality in 0..counts.qualities {
        if !suits_quality(net, way, product, quality) {
            return false;
        }
    }
    true
}

/// Whether one quality that the way brings lies between the product's limits.
fn suits_quality(net: &Network, way: Way, product: u32, quality: u32) -> bool
    requires way { IsInRange (net_of net.now) way }
    requires product { product < (net_of net.now).products }
    requires quality { quality < (net_of net.now).qualities }
    ensures { let n = net_of net.now in let brought = way_quality n (shown_way n way) quality in
        result ≡ (is_above (pos n.scale) (n.least product quality) brought && is_below (pos n.scale) (n.most product quality) brought) }
{
    let scale = net.scale();
    let value = brought(net, way, quality);
    reaches(scale, net.product_least(product, quality), value)
        && stays_below(scale, net.product_most(product, quality), value)
}

/// What a way brings of a quality, in parts of the scale: a path what its pool retains.
fn brought(net: &Network, way: Way, quality: u32) -> i64
    requires way { IsInRange (net_of net.now) way }
    requires quality { quality < (net_of net.now).qualities }
    ensures { result ≡ way_quality (net_of net.now) (shown_way (net_of net.now) way) quality }
{
    match way {
        Way::Through(path) => {
            let (feed, out) = net.path(path);
            let (source, _) = net.feed(feed);
            let (pool, _) = net.out(out);
            parts(
                net.retained(pool, quality),
                net.source_quality(source, quality),
            )
        }
        Way::Direct(direct) => {
            let (source, _) = net.direct(direct);
            parts(net.scale(), net.source_quality(source, quality))
        }
    }
}

/// So many parts of a quality or of a limit.
fn parts(count: i64, amount: i64) -> i64
    requires count { unsigned_abs count ≤ 1000 }
    requires amount { unsigned_abs amount ≤ 10 ^ 11 }
    ensures value { result ≡ count *ℤ amount }
    ensures size { unsigned_abs result ≤ 10 ^ 14 }
{
    count * amount
}

fn reaches(scale: i64, least: Option<i64>, value: i64) -> bool
    requires scale { unsigned_abs scale ≤ 1000 }
    requires least { IfSome least (IsWithin (10 ^ 11)) }
    ensures { result ≡ is_above scale least value }
{
    match least {
        None => true,
        Some(least) => parts(scale, least) <= value,
    }
}

fn stays_below(scale: i64, most: Option<i64>, value: i64) -> bool
    requires scale { unsigned_abs scale ≤ 1000 }
    requires most { IfSome most (IsWithin (10 ^ 11)) }
    ensures { result ≡ is_below scale most value }
{
    match most {
        None => true,
        Some(most) => value <= parts(scale, most),
    }
}
