//! Whether a point has the shape of one of form Q, and meets its rows on flows and proportions, and its products.

ghost use Rattle.std.specs.Prelude.{◌≡◌, ℕ, ◌*◌, ◌<◌, ◌≤◌, ◌^◌, ◌↔◌, IsTrue, get_or, length};
ghost use Rattle.integers.specs.Sums.{sum_at};
ghost use Rattle.pool_model.specs.Network.{IsLimited, net_of};
ghost use Rattle.row_model.specs.Variables.{path_count};
ghost use Rattle.point_checks.specs.PropSlices.{seen};
ghost use Rattle.point_checks.specs.ProportionTests.{AreBases, ComesFrom, FitsProps, HasPropShape, IsProduct, SumsToOne};

use crate::fits::{are_at_most, are_proportions, flows_fit, most_flow};
use crate::flows::Flows;
use crate::prop_slices::PropSlices;
use crate::sums::sum_at_node;
use blend_network::{Key, Network};

/// The greatest base of a point.
const MAX_BASE: u64 = 68_719_476_736;

/// The greatest base of proportions and of qualities.
const MAX_SECOND_BASE: u32 = 1_048_576;

/// Whether the point has bases within their limits, and a number for each variable.
pub(crate) fn has_shape(net: &Network, point: &PropSlices) -> bool
    ensures shape { IsTrue result ↔ HasPropShape (net_of net.now) point.now }
    ensures limited { IsLimited (net_of net.now) }
{
    let counts = net.sizes();
    are_bases(point.flows.base, point.prop_base)
        && point.props.len() == counts.feeds as usize
        && point.flows.feeds.len() == counts.feeds as usize
        && point.flows.outs.len() == counts.outs as usize
        && point.flows.directs.len() == counts.directs as usize
        && point.paths.len() == counts.paths as usize
}

/// Whether both bases of a point are above 0 and within their limits.
pub fn are_bases(base: u64, second: u32) -> bool
    ensures { IsTrue result ↔ AreBases base second }
{
    0 < base && base <= MAX_BASE && 0 < second && second <= MAX_SECOND_BASE
}

/// Whether the flows fit, no flow along a path is above 10^14 millionths, and no proportion above 1.
pub(crate) fn fits(net: &Network, point: &PropSlices) -> bool
    requires { HasPropShape (net_of net.now) point.now }
    ensures { IsTrue result ↔ FitsProps (net_of net.now) point.now }
{
    let Flows {
        base,
        feeds,
        outs,
        directs,
    } = point.flows;
    flows_fit(net, base, feeds, outs, directs)
        && are_at_most(point.paths, most_flow(base))
        && are_proportions(point.props, point.prop_base)
}

/// Whether the proportions of each pool's feeds sum to 1.
pub(crate) fn sum_to_one(net: &Network, point: &PropSlices) -> bool
    requires { HasPropShape (net_of net.now) point.now }
    ensures { IsTrue result ↔ ((l : ℕ) → l < (net_of net.now).pools → SumsToOne (net_of net.now) (seen point.now) l) }
{
    let counts = net.sizes();
    for pool in 0..counts.pools {
        if proportion_sum(net, point.props, pool) != u64::from(point.prop_base) {
            return false;
        }
    }
    true
}

/// The sum of the proportions of a pool's feeds.
fn proportion_sum(net: &Network, proportions: &[u32], pool: u32) -> u64
    requires long { length proportions.now ≡ (net_of net.now).feeds }
    requires pool { pool < (net_of net.now).pools }
    ensures { result ≡ sum_at (net_of net.now).feed_pool pool (λ e. get_or proportions.now e 0) (net_of net.now).feeds }
{
    let mut sum = 0;
    for feed in net.numbers_at(Key::FeedsInto, pool) {
        sum += u64::from(proportions[*feed as usize]);
    }
    sum
}

/// Whether along each path flows its feed's proportion of what its out carries.
pub(crate) fn are_products(net: &Network, point: &PropSlices) -> bool
    requires shape { HasPropShape (net_of net.now) point.now }
    requires fits { FitsProps (net_of net.now) point.now }
    ensures { IsTrue result ↔ ((a : ℕ) → a < path_count (net_of net.now) → IsProduct (net_of net.now) (seen point.now) a) }
{
    (0..net.paths()).all(|path| is_product(net, point, path))
}

fn is_product(net: &Network, point: &PropSlices, path: u32) -> bool
    requires shape { HasPropShape (net_of net.now) point.now }
    requires fits { FitsProps (net_of net.now) point.now }
    requires path { path < path_count (net_of net.now) }
    ensures { IsTrue result ↔ IsProduct (net_of net.now) (seen point.now) path }
{
    let (feed, out) = net.path(path);
    let along = point.paths[path as usize];
    let carried = point.flows.outs[out as usize];
    let part = point.props[feed as usize];
    times(point.prop_base, along) == times(part, carried)
}

fn times(factor: u32, flow: u128) -> u128
    requires { flow ≤ 2 ^ 83 }
    ensures { result ≡ factor * flow }
{
    u128::from(factor) * flow
}

/// Whether what each feed brings goes along its paths.
pub(crate) fn come_from_feeds(net: &Network, point: &PropSlices) -> bool
    requires shape { HasPropShape (net_of net.now) point.now }
    requires fits { FitsProps (net_of net.now) point.now }
    ensures { IsTrue result ↔ ((e : ℕ) → e < (net_of net.now).feeds → ComesFrom (net_of net.now) (seen point.now) e) }
{
    let counts = net.sizes();
    (0..counts.feeds).all(|feed| comes_from_feed(net, point, feed))
}

fn comes_from_feed(net: &Network, point: &PropSlices, feed: u32) -> bool
    requires shape { HasPropShape (net_of net.now) point.now }
    requires fits { FitsProps (net_of net.now) point.now }
    requires feed { feed < (net_of net.now).feeds }
    ensures { IsTrue result ↔ ComesFrom (net_of net.now) (seen point.now) feed }
{
    let brought = point.flows.feeds[feed as usize];
    brought == sum_at_node(net, Key::PathsFrom, feed, point.paths)
}
