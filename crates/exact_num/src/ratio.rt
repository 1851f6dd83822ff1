//! The order of ratios of any size.

ghost use Rattle.std.specs.Prelude.{◌≡◌, ◌*◌, ◌<◌, pos, ◌*ℤ◌, ◌<ℤ◌};
ghost use Rattle.std.specs.Ordering.{int_cmp, nat_cmp};

use std::cmp::Ordering;

/// The order of `a / b` and `c / d`, for `b` and `d` above 0: that of the products `a * d` and `c * b`.
/// It is exact for all sizes: where a product needs more than 128 bits, 256 are taken.
pub fn compare_ratio(a: i128, b: i128, c: i128, d: i128) -> Ordering
    requires left { pos 0 <ℤ b }
    requires right { pos 0 <ℤ d }
    // Promise: The order of ratios of any size is exact
    ensures { result ≡ int_cmp (a *ℤ d) (c *ℤ b) }
{
    match (a.checked_mul(d), c.checked_mul(b)) {
        (Some(left), Some(right)) => left.cmp(&right),
        _ => compare_signed(a, d.unsigned_abs(), c, b.unsigned_abs()),
    }
}

// The order of a * d and c * b, in 256 bits.
fn compare_signed(a: i128, d: u128, c: i128, b: u128) -> Ordering
    requires left { 0 < b }
    requires right { 0 < d }
    ensures { result ≡ int_cmp (a *ℤ pos d) (c *ℤ pos b) }
{
    match (a < 0, c < 0) {
        (true, false) => Ordering::Less,
        (false, true) => Ordering::Greater,
        (false, false) => compare_products(a.unsigned_abs(), d, c.unsigned_abs(), b),
        (true, true) => compare_products(c.unsigned_abs(), b, a.unsigned_abs(), d),
    }
}

// The order of a * b and c * d: the high halves decide, and the low ones where those are equal.
fn compare_products(a: u128, b: u128, c: u128, d: u128) -> Ordering
    ensures { result ≡ nat_cmp (a * b) (c * d) }
{
    let (left_low, left_high) = a.carrying_mul(b, 0);
    let (right_low, right_high) = c.carrying_mul(d, 0);
    match left_high.cmp(&right_high) {
        Ordering::Equal => left_low.cmp(&right_low),
        order => order,
    }
}
