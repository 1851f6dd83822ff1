//! A fraction in lowest terms.

ghost use Rattle.std.specs.Prelude.{◌≡◌, ◌≢◌, ◌+◌, ◌*◌, ◌/◌, ◌<◌, ◌^◌, ◌↔◌, ℕ, pos, ◌+ℤ◌, ◌*ℤ◌, ◌<ℤ◌, ◌≤ℤ◌, unsigned_abs, IfOk, IfErr, OnOk, IsErrOf};
ghost use Rattle.integers.specs.Divisors.{IsCoprime};

mod arithmetic;
mod making;

use crate::ratio::compare_ratio;
use std::cmp::Ordering;

/// Why there is no fraction.
#[derive(Clone, Copy, Debug, PartialEq, Eq)]
pub enum FracFault {
    /// A denominator or a divisor is 0.
    ZeroDivisor,
    /// A numerator or a denominator would leave the range of 2^127 - 1 to either side.
    Wide,
}

/// A fraction in lowest terms, its denominator positive, both numbers within 2^127 - 1.
#[derive(Clone, Copy, Debug, PartialEq, Eq)]
pub struct Frac {
    num: i128,
    den: u128,
    pub ghost short_num: { unsigned_abs num < 2 ^ 127 },
    pub ghost short_den: { den < 2 ^ 127 },
    pub ghost positive: { 0 < den },
    pub ghost lowest: { IsCoprime (unsigned_abs num) den },
}

/// The greatest number of the range: 2^127 - 1.
const MOST: u128 = i128::MAX as u128;

impl Frac {
    ghost use Rattle.std.specs.Ordering.{int_cmp};
    ghost use Rattle.exact_num.specs.Fraction.{order_of};
    ghost use Rattle.exact_num.specs.Views.{shown_frac};

    /// The numerator in lowest terms.
    pub fn num(self) -> i128
        ensures { result ≡ (shown_frac self).num }
    {
        self.num
    }

    /// The denominator in lowest terms.
    pub fn den(self) -> i128
        ensures { result ≡ pos (shown_frac self).den }
    {
        self.den as i128
    }

    /// The order of the two fractions.
    pub fn compare(self, other: Frac) -> Ordering
        // Promise: The order of ratios of any size is exact
        ensures { result ≡ order_of (shown_frac self) (shown_frac other) }
    {
        compare_ratio(self.num, self.den as i128, other.num, other.den as i128)
    }

    /// The greatest whole number that is not above the fraction.
    pub fn floor(self) -> i128
        ensures not_above { (result *ℤ pos (shown_frac self).den) ≤ℤ (shown_frac self).num }
        ensures greatest { (shown_frac self).num <ℤ ((result +ℤ pos 1) *ℤ pos (shown_frac self).den) }
    {
        self.num.div_euclid(self.den as i128)
    }
}
