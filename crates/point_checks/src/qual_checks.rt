//! Whether a point has the shape of one of form P, its qualities lie between their ends, and its products and its pools' rows on
//! qualities hold.

ghost use Rattle.std.specs.Prelude.{◌≡◌, ℕ, ◌*◌, ◌<◌, ◌≤◌, ◌^◌, ◌↔◌, IsTrue, length, pos, ◌*ℤ◌, ◌≤ℤ◌, ◌<ℤ◌};
ghost use Rattle.pool_model.specs.Network.{IsLimited, net_of};
ghost use Rattle.point_checks.specs.Flows.{FlowsFit};
ghost use Rattle.point_checks.specs.QualSlices.{seen};
ghost use Rattle.point_checks.specs.QualityTests.{AreSmallQuals, HasQualShape, HasQuality, KeepsQuality, LiesBetween};

use crate::carriers::Carrier;
use crate::fits::flows_fit;
use crate::flows::Flows;
use crate::prop_checks::are_bases;
use crate::qual_slices::QualSlices;
use crate::qual_sums::{cell, quality_out};
use crate::qualities::quality_into;
use blend_network::Network;
use box_space::{Coord, root_ends};
use exact_num::compare_ratio;
use std::cmp::Ordering;

/// Whether the point has bases within their limits, and a number for each variable.
pub(crate) fn has_shape(net: &Network, point: &QualSlices) -> bool
    ensures shape { IsTrue result ↔ HasQualShape (net_of net.now) point.now }
    ensures limited { IsLimited (net_of net.now) }
{
    let counts = net.sizes();
    are_bases(point.flows.base, point.qual_base)
        && point.flows.feeds.len() == counts.feeds as usize
        && point.flows.outs.len() == counts.outs as usize
        && point.flows.directs.len() == counts.directs as usize
        && point.quals.len() == cells(counts.pools, counts.qualities)
        && point.mix.len() == cells(counts.outs, counts.qualities)
}

/// How many cells a grid has.
fn cells(rows: u32, width: u32) -> usize
    requires rows { rows ≤ 256 }
    requires width { width ≤ 8 }
    ensures { result ≡ rows * width }
{
    rows as usize * width as usize
}

/// Whether the flows fit.
pub(crate) fn fits(net: &Network, point: &QualSlices) -> bool
    requires { HasQualShape (net_of net.now) point.now }
    ensures { IsTrue result ↔ FlowsFit (net_of net.now) point.now.flows.base point.now.flows.feeds.now point.now.flows.outs.now point.now.flows.directs.now }
{
    let Flows {
        base,
        feeds,
        outs,
        directs,
    } = point.flows;
    flows_fit(net, base, feeds, outs, directs)
}

/// Whether each pool's qualities lie between the least and the greatest that it is fed.
pub(crate) fn lie_between(net: &Network, point: &QualSlices) -> bool
    requires { HasQualShape (net_of net.now) point.now }
    ensures { IsTrue result ↔ ((l : ℕ) → l < (net_of net.now).pools → (k : ℕ) → k < (net_of net.now).qualities → LiesBetween (net_of net.now) (seen (net_of net.now) point.now) l k) }
{
    let counts = net.sizes();
    for pool in 0..counts.pools {
        if !lies_between(net, point, pool) {
            return false;
        }
    }
    true
}

fn lies_between(net: &Network, point: &QualSlices, pool: u32) -> bool
    requires shape { HasQualShape (net_of net.now) point.now }
    requires pool { pool < (net_of net.now).pools }
    ensures { IsTrue result ↔ ((k : ℕ) → k < (net_of net.now).qualities → LiesBetween (net_of net.now) (seen (net_of net.now) point.now) pool k) }
{
    let counts = net.sizes();
    for quality in 0..counts.qualities {
        if !is_between(net, point, pool, quality) {
            return false;
        }
    }
    true
}

fn is_between(net: &Network, point: &QualSlices, pool: u32, quality: u32) -> bool
    requires shape { HasQualShape (net_of net.now) point.now }
    requires pool { pool < (net_of net.now).pools }
    requires quality { quality < (net_of net.now).qualities }
    ensures { IsTrue result ↔ LiesBetween (net_of net.now) (seen (net_of net.now) point.now) pool quality }
{
    let counts = net.sizes();
    let held = point.quals[cell(pool, quality, counts.pools, counts.qualities)];
    let (low, high) = root_ends(net, Coord::Qual(pool, quality));
    is_within_ends(held, low, high, point.qual_base)
}

/// Whether a number over a base lies between two ends.
fn is_within_ends(held: i128, low: i64, high: i64, base: u32) -> bool
    ensures { IsTrue result ↔ (((low *ℤ pos base) ≤ℤ held) × (held ≤ℤ (high *ℤ pos base))) }
{
    reaches(held, low, base) && !passes(held, high, base)
}

/// Whether a number over a base is at least a lower end.
fn reaches(held: i128, low: i64, base: u32) -> bool
    ensures { IsTrue result ↔ ((low *ℤ pos base) ≤ℤ held) }
{
    end_over(low, base) <= held
}

/// Whether a number over a base is above an upper end.
fn passes(held: i128, high: i64, base: u32) -> bool
    ensures { IsTrue result ↔ ((high *ℤ pos base) <ℤ held) }
{
    end_over(high, base) < held
}

/// An end over the base of qualities.
fn end_over(end: i64, base: u32) -> i128
    ensures { result ≡ end *ℤ pos base }
{
    i128::from(end) * i128::from(base)
}

/// Whether what flows along each out has its pool's qualities.
pub(crate) fn have_qualities(net: &Network, point: &QualSlices) -> bool
    requires shape { HasQualShape (net_of net.now) point.now }
    requires fits { FlowsFit (net_of net.now) point.now.flows.base point.now.flows.feeds.now point.now.flows.outs.now point.now.flows.directs.now }
    ensures { IsTrue result ↔ ((o : ℕ) → o < (net_of net.now).outs → (k : ℕ) → k < (net_of net.now).qualities → HasQuality (net_of net.now) (seen (net_of net.now) point.now) o k) }
{
    let counts = net.sizes();
    for out in 0..counts.outs {
        if !has_qualities(net, point, out) {
            return false;
        }
    }
    true
}

fn has_qualities(net: &Network, point: &QualSlices, out: u32) -> bool
    requires shape { HasQualShape (net_of net.now) point.now }
    requires fits { FlowsFit (net_of net.now) point.now.flows.base point.now.flows.feeds.now point.now.flows.outs.now point.now.flows.directs.now }
    requires out { out < (net_of net.now).outs }
    ensures { IsTrue result ↔ ((k : ℕ) → k < (net_of net.now).qualities → HasQuality (net_of net.now) (seen (net_of net.now) point.now) out k) }
{
    let counts = net.sizes();
    for quality in 0..counts.qualities {
        if !has_quality(net, point, out, quality) {
            return false;
        }
    }
    true
}

fn has_quality(net: &Network, point: &QualSlices, out: u32, quality: u32) -> bool
    requires shape { HasQualShape (net_of net.now) point.now }
    requires fits { FlowsFit (net_of net.now) point.now.flows.base point.now.flows.feeds.now point.now.flows.outs.now point.now.flows.directs.now }
    requires out { out < (net_of net.now).outs }
    requires quality { quality < (net_of net.now).qualities }
    ensures { IsTrue result ↔ HasQuality (net_of net.now) (seen (net_of net.now) point.now) out quality }
{
    let counts = net.sizes();
    let (pool, _) = net.out(out);
    let mixed = point.mix[cell(out, quality, counts.outs, counts.qualities)];
    let held = point.quals[cell(pool, quality, counts.pools, counts.qualities)];
    is_product(mixed, point.qual_base, held, point.flows.outs[out as usize])
}

/// Whether a mixed variable times a base is a quality times a flow. The products may need more than 128 bits.
fn is_product(mixed: i128, base: u32, quality: i128, flow: u128) -> bool
    requires base { 0 < base }
    requires flow { flow ≤ 2 ^ 83 }
    ensures { IsTrue result ↔ (mixed *ℤ pos base ≡ quality *ℤ pos flow) }
{
    if flow == 0 {
        return mixed == 0;
    }
    compare_ratio(mixed, flow as i128, quality, i128::from(base)) == Ordering::Equal
}

/// Whether the quality that flows into each pool flows out of it.
pub(crate) fn keep_qualities(net: &Network, point: &QualSlices) -> bool
    requires shape { HasQualShape (net_of net.now) point.now }
    requires small { AreSmallQuals (net_of net.now) point.now }
    ensures { IsTrue result ↔ ((l : ℕ) → l < (net_of net.now).pools → (k : ℕ) → k < (net_of net.now).qualities → KeepsQuality (net_of net.now) (seen (net_of net.now) point.now) l k) }
{
    let counts = net.sizes();
    for pool in 0..counts.pools {
        if !keeps_qualities(net, point, pool) {
            return false;
        }
    }
    true
}

fn keeps_qualities(net: &Network, point: &QualSlices, pool: u32) -> bool
    requires shape { HasQualShape (net_of net.now) point.now }
    requires small { AreSmallQuals (net_of net.now) point.now }
    requires pool { pool < (net_of net.now).pools }
    ensures { IsTrue result ↔ ((k : ℕ) → k < (net_of net.now).qualities → KeepsQuality (net_of net.now) (seen (net_of net.now) point.now) pool k) }
{
    let counts = net.sizes();
    for quality in 0..counts.qualities {
        if !keeps_quality(net, point, pool, quality) {
            return false;
        }
    }
    true
}

fn keeps_quality(net: &Network, point: &QualSlices, pool: u32, quality: u32) -> bool
    requires shape { HasQualShape (net_of net.now) point.now }
    requires small { AreSmallQuals (net_of net.now) point.now }
    requires pool { pool < (net_of net.now).pools }
    requires quality { quality < (net_of net.now).qualities }
    ensures { IsTrue result ↔ KeepsQuality (net_of net.now) (seen (net_of net.now) point.now) pool quality }
{
    let taken = quality_into(net, Carrier::Feeds, pool, quality, point.flows.feeds);
    taken == quality_out(net, point, pool, quality)
}
