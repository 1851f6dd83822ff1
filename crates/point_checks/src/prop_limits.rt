//! Whether a point of form Q keeps the limits on qualities, by the flows along its paths, and whether it is a point at all.

ghost use Rattle.std.specs.Prelude.{◌≡◌, ℕ, ◌<◌, ◌≤◌, ◌↔◌, IsTrue};
ghost use Rattle.pool_model.specs.Network.{IsLimited, net_of};
ghost use Rattle.pool_model.specs.Plan.{Carries};
ghost use Rattle.program_model.specs.Points.{proportion_flows};
ghost use Rattle.point_checks.specs.ProportionTests.{AreSmallProps, FitsProps, HasPropShape, IsPropPoint, KeepsLimits};
ghost use Rattle.point_checks.specs.PropSlices.{seen};

use crate::carried::carry;
use crate::carriers::Carrier;
use crate::prop_checks::{are_products, come_from_feeds, fits, has_shape, sum_to_one};
use crate::prop_slices::PropSlices;
use crate::qualities::{is_within_limits, quality_into};
use crate::sums::sum_at_node;
use blend_network::{Key, Network};

/// Whether the point is one of form Q within the limits.
pub fn is_prop_point(net: &Network, point: &PropSlices) -> bool
    ensures point { IsTrue result ↔ IsPropPoint (net_of net.now) point.now }
    ensures limited { IsLimited (net_of net.now) }
{
    if !has_shape(net, point) {
        return false;
    }
    if !fits(net, point) {
        return false;
    }
    if !are_products(net, point) {
        return false;
    }
    if !sum_to_one(net, point) {
        return false;
    }
    if !come_from_feeds(net, point) {
        return false;
    }
    if !flows_carry(net, point) {
        return false;
    }
    keep_limits(net, point)
}

/// Whether the flows of the point carry.
fn flows_carry(net: &Network, point: &PropSlices) -> bool
    requires shape { HasPropShape (net_of net.now) point.now }
    requires fits { FitsProps (net_of net.now) point.now }
    ensures { IsTrue result ↔ Carries (net_of net.now) (proportion_flows (seen point.now)) }
{
    carry(net, &point.flows)
}

/// Whether each product's mean of each quality lies between its limits.
fn keep_limits(net: &Network, point: &PropSlices) -> bool
    requires shape { HasPropShape (net_of net.now) point.now }
    requires small { AreSmallProps (net_of net.now) point.now }
    ensures { IsTrue result ↔ ((j : ℕ) → j < (net_of net.now).products → (k : ℕ) → k < (net_of net.now).qualities → KeepsLimits (net_of net.now) (seen point.now) j k) }
{
    let counts = net.sizes();
    for product in 0..counts.products {
        if !keep_limits_of(net, point, product) {
            return false;
        }
    }
    true
}

fn keep_limits_of(net: &Network, point: &PropSlices, product: u32) -> bool
    requires shape { HasPropShape (net_of net.now) point.now }
    requires small { AreSmallProps (net_of net.now) point.now }
    requires product { product < (net_of net.now).products }
    ensures { IsTrue result ↔ ((k : ℕ) → k < (net_of net.now).qualities → KeepsLimits (net_of net.now) (seen point.now) product k) }
{
    let counts = net.sizes();
    for quality in 0..counts.qualities {
        if !keeps_limits(net, point, product, quality) {
            return false;
        }
    }
    true
}

fn keeps_limits(net: &Network, point: &PropSlices, product: u32, quality: u32) -> bool
    requires shape { HasPropShape (net_of net.now) point.now }
    requires small { AreSmallProps (net_of net.now) point.now }
    requires product { product < (net_of net.now).products }
    requires quality { quality < (net_of net.now).qualities }
    ensures { IsTrue result ↔ KeepsLimits (net_of net.now) (seen point.now) product quality }
{
    let (y, z, w) = (point.flows.outs, point.flows.directs, point.paths);
    let along = quality_into(net, Carrier::Paths, product, quality, w);
    let straight = quality_into(net, Carrier::Directs, product, quality, z);
    let pooled = sum_at_node(net, Key::OutsInto, product, y);
    let direct = sum_at_node(net, Key::DirectsInto, product, z);
    is_within_limits(net, product, quality, pooled + direct, along + straight)
}
