//! Whether a point of form P keeps the limits on qualities, by its mixed variables, and whether it is a point at all.

ghost use Rattle.std.specs.Prelude.{◌≡◌, ℕ, ◌<◌, ◌≤◌, ◌↔◌, IsTrue};
ghost use Rattle.pool_model.specs.Network.{IsLimited, net_of};
ghost use Rattle.pool_model.specs.Plan.{Carries};
ghost use Rattle.program_model.specs.Points.{quality_flows};
ghost use Rattle.point_checks.specs.Flows.{FlowsFit};
ghost use Rattle.point_checks.specs.QualSlices.{seen};
ghost use Rattle.point_checks.specs.QualityTests.{AreSmallQuals, HasQualShape, IsQualPoint, KeepsLimits};

use crate::carried::carry;
use crate::carriers::Carrier;
use crate::qual_checks::{fits, has_shape, have_qualities, keep_qualities, lie_between};
use crate::qual_slices::QualSlices;
use crate::qual_sums::quality_through;
use crate::qualities::{is_within_limits, quality_into};
use crate::sums::sum_at_node;
use blend_network::{Key, Network};

/// Whether the point is one of form P within the limits.
pub fn is_qual_point(net: &Network, point: &QualSlices) -> bool
    // Promise: A point of P within the limits is told apart from all other lists
    ensures point { IsTrue result ↔ IsQualPoint (net_of net.now) point.now }
    ensures limited { IsLimited (net_of net.now) }
{
    if !has_shape(net, point) {
        return false;
    }
    if !fits(net, point) {
        return false;
    }
    if !lie_between(net, point) {
        return false;
    }
    if !have_qualities(net, point) {
        return false;
    }
    if !flows_carry(net, point) {
        return false;
    }
    if !keep_qualities(net, point) {
        return false;
    }
    keep_limits(net, point)
}

/// Whether the flows of the point carry.
fn flows_carry(net: &Network, point: &QualSlices) -> bool
    requires shape { HasQualShape (net_of net.now) point.now }
    requires fits { FlowsFit (net_of net.now) point.now.flows.base point.now.flows.feeds.now point.now.flows.outs.now point.now.flows.directs.now }
    ensures { IsTrue result ↔ Carries (net_of net.now) (quality_flows (seen (net_of net.now) point.now)) }
{
    carry(net, &point.flows)
}

/// Whether each product's mean of each quality lies between its limits.
fn keep_limits(net: &Network, point: &QualSlices) -> bool
    requires shape { HasQualShape (net_of net.now) point.now }
    requires small { AreSmallQuals (net_of net.now) point.now }
    ensures { IsTrue result ↔ ((j : ℕ) → j < (net_of net.now).products → (k : ℕ) → k < (net_of net.now).qualities → KeepsLimits (net_of net.now) (seen (net_of net.now) point.now) j k) }
{
    let counts = net.sizes();
    for product in 0..counts.products {
        if !keep_limits_of(net, point, product) {
            return false;
        }
    }
    true
}

fn keep_limits_of(net: &Network, point: &QualSlices, product: u32) -> bool
    requires shape { HasQualShape (net_of net.now) point.now }
    requires small { AreSmallQuals (net_of net.now) point.now }
    requires product { product < (net_of net.now).products }
    ensures { IsTrue result ↔ ((k : ℕ) → k < (net_of net.now).qualities → KeepsLimits (net_of net.now) (seen (net_of net.now) point.now) product k) }
{
    let counts = net.sizes();
    for quality in 0..counts.qualities {
        if !keeps_limits(net, point, product, quality) {
            return false;
        }
    }
    true
}

fn keeps_limits(net: &Network, point: &QualSlices, product: u32, quality: u32) -> bool
    requires shape { HasQualShape (net_of net.now) point.now }
    requires small { AreSmallQuals (net_of net.now) point.now }
    requires product { product < (net_of net.now).products }
    requires quality { quality < (net_of net.now).qualities }
    ensures { IsTrue result ↔ KeepsLimits (net_of net.now) (seen (net_of net.now) point.now) product quality }
{
    let (y, z) = (point.flows.outs, point.flows.directs);
    let mixed = quality_through(net, point, product, quality);
    let straight = quality_into(net, Carrier::Directs, product, quality, z);
    let pooled = sum_at_node(net, Key::OutsInto, product, y);
    let direct = sum_at_node(net, Key::DirectsInto, product, z);
    is_within_limits(net, product, quality, pooled + direct, mixed + straight)
}
