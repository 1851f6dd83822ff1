//! What mixed variables bring out of a pool, and through pools to a product.

ghost use Rattle.std.specs.Prelude.{◌≡◌, ◌+◌, ◌*◌, ◌<◌, ◌≤◌, ◌^◌, pos, ◌*ℤ◌, unsigned_abs};
ghost use Rattle.integers.specs.Sums.{int_sum_at};
ghost use Rattle.pool_model.specs.Network.{net_of};
ghost use Rattle.point_checks.specs.QualSlices.{seen};
ghost use Rattle.point_checks.specs.QualityTests.{AreSmallQuals, HasQualShape};

use crate::qual_slices::QualSlices;
use blend_network::{Key, Network};

/// The quality that flows out of a pool.
pub(crate) fn quality_out(net: &Network, point: &QualSlices, pool: u32, quality: u32) -> i128
    requires shape { HasQualShape (net_of net.now) point.now }
    requires small { AreSmallQuals (net_of net.now) point.now }
    requires pool { pool < (net_of net.now).pools }
    requires quality { quality < (net_of net.now).qualities }
    ensures { result ≡ int_sum_at (net_of net.now).out_pool pool (λ o. (seen (net_of net.now) point.now).mixed o quality) (net_of net.now).outs }
{
    let mut sum = 0;
    for out in net.numbers_at(Key::OutsFrom, pool) {
        sum += mixed(net, point, *out, quality);
    }
    sum
}

/// The quality that reaches a product through pools, in parts of the scale: what these retain of the mixed variables.
pub(crate) fn quality_through(net: &Network, point: &QualSlices, product: u32, quality: u32) -> i128
    requires shape { HasQualShape (net_of net.now) point.now }
    requires small { AreSmallQuals (net_of net.now) point.now }
    requires product { product < (net_of net.now).products }
    requires quality { quality < (net_of net.now).qualities }
    ensures value { result ≡ int_sum_at (net_of net.now).out_product product
        (λ o. pos ((net_of net.now).retained ((net_of net.now).out_pool o) quality) *ℤ (seen (net_of net.now) point.now).mixed o quality) (net_of net.now).outs }
    ensures small { unsigned_abs result ≤ 2 ^ 123 }
{
    let mut sum = 0;
    for out in net.numbers_at(Key::OutsInto, product) {
        sum += retained(net, point, *out, quality);
    }
    sum
}

/// What an out's pool retains of its mixed variable, in parts of the scale.
fn retained(net: &Network, point: &QualSlices, out: u32, quality: u32) -> i128
    requires shape { HasQualShape (net_of net.now) point.now }
    requires small { AreSmallQuals (net_of net.now) point.now }
    requires out { out < (net_of net.now).outs }
    requires quality { quality < (net_of net.now).qualities }
    ensures value { result ≡ pos ((net_of net.now).retained ((net_of net.now).out_pool out) quality) *ℤ (seen (net_of net.now) point.now).mixed out quality }
    ensures small { unsigned_abs result ≤ 10 ^ 14 * (seen (net_of net.now) point.now).out out }
{
    let (pool, _) = net.out(out);
    parted(net.retained(pool, quality), mixed(net, point, out, quality))
}

/// A number, so many times.
fn parted(parts: i64, number: i128) -> i128
    requires parts { unsigned_abs parts ≤ 1000 }
    requires number { unsigned_abs number ≤ 2 ^ 113 }
    ensures value { result ≡ parts *ℤ number }
    ensures size { unsigned_abs result ≡ unsigned_abs parts * unsigned_abs number }
{
    i128::from(parts) * number
}

/// The mixed variable of an out.
fn mixed(net: &Network, point: &QualSlices, out: u32, quality: u32) -> i128
    requires shape { HasQualShape (net_of net.now) point.now }
    requires small { AreSmallQuals (net_of net.now) point.now }
    requires out { out < (net_of net.now).outs }
    requires quality { quality < (net_of net.now).qualities }
    ensures value { result ≡ (seen (net_of net.now) point.now).mixed out quality }
    ensures small { unsigned_abs result ≤ 10 ^ 11 * (seen (net_of net.now) point.now).out out }
{
    let counts = net.sizes();
    point.mix[cell(out, quality, counts.outs, counts.qualities)]
}

/// The place of a row and a column in a grid.
pub(crate) fn cell(row: u32, column: u32, rows: u32, width: u32) -> usize
    requires row { row < rows }
    requires column { column < width }
    requires few { rows ≤ 256 }
    requires narrow { width ≤ 8 }
    ensures place { result ≡ row * width + column }
    ensures within { result < rows * width }
{
    row as usize * width as usize + column as usize
}
