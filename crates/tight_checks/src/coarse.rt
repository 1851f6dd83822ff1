//! Numbers and fractions without a common denominator that is short enough.

ghost use Rattle.std.specs.Prelude.{◌≡◌, ◌<◌, ◌↔◌, ◌⊎◌, IsTrue};
ghost use Rattle.exact_num.specs.Views.{shown_frac};
ghost use Rattle.common_denominators.specs.Multiples.{HasNoShort, IsCoarse, IsOutside};

use common_denominators::joined;
use exact_num::{Frac, compare_ratio};

/// Whether no common multiple of a number and a fraction's denominator is below 2^64.
fn has_no_short(times: u64, fraction: Frac) -> bool
    requires { 0 < times }
    ensures { IsTrue result ↔ HasNoShort times (shown_frac fraction).den }
{
    match joined(times, fraction) {
        Ok(_) => false,
        Err(_) => true,
    }
}

/// Whether so many times a fraction is outside 64 bits with a sign.
fn is_outside(times: u64, fraction: Frac) -> bool
    requires { 0 < times }
    ensures { IsTrue result ↔ IsOutside 63 times (shown_frac fraction) }
{
    let (num, den, count) = (fraction.num(), fraction.den(), i128::from(times));
    compare_ratio(num, den, i128::from(i64::MIN), count).is_lt()
        || compare_ratio(num, den, i128::from(i64::MAX), count).is_gt()
}

/// Whether a number above 0 and a fraction are too coarse.
fn is_too_coarse(times: u64, fraction: Frac) -> bool
    requires { 0 < times }
    ensures { IsTrue result ↔ (HasNoShort times (shown_frac fraction).den ⊎ IsOutside 63 times (shown_frac fraction)) }
{
    has_no_short(times, fraction) || is_outside(times, fraction)
}

/// Whether a number is above 0, and it and a fraction are too coarse.
pub(crate) fn is_coarse(times: u64, fraction: Frac) -> bool
    ensures { IsTrue result ↔ IsCoarse times (shown_frac fraction) }
{
    times > 0 && is_too_coarse(times, fraction)
}
