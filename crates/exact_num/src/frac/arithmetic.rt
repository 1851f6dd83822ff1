//! Sums, products and quotients.

ghost use Rattle.std.specs.Prelude.{◌≡◌, ◌≢◌, ◌+◌, ◌*◌, ◌<◌, ◌^◌, ◌↔◌, ℕ, pos, ◌+ℤ◌, ◌*ℤ◌, unsigned_abs, IfOk, IfErr, OnOk, IsErrOf};
ghost use Rattle.std.specs.Int.{IsGcd};
ghost use Rattle.integers.specs.Divisors.{IsCoprime};
ghost use Rattle.exact_num.specs.Fraction.{IsSame, IsShort, IsShortSum, LeavesRange, sum_of, negative_of, difference_of, product_of, inverse_of, quotient_of};
ghost use Rattle.exact_num.specs.Signed.{signed, signed_fraction};
ghost use Rattle.exact_num.specs.Views.{shown_frac};
ghost use Rattle.exact_num.specs.declared.frac.FracFault.TheVariants as faults;

use super::making::{divided, pack};
use super::{Frac, FracFault, MOST};
use crate::gcd::gcd;

impl Frac {
    /// The sum in lowest terms. With `g` the greatest common divisor of the denominators `b` and `d`, the sum of `a / b` and
    /// `c / d` is Wide exactly where `a * (d / g)`, `c * (b / g)`, `b * (d / g)` or the sum of the first two leaves the range.
    pub fn add(self, other: Frac) -> Result<Frac, FracFault>
        // Promise: Each operation on fractions is exact, in lowest terms
        ensures sum { IfOk result (λ f. IsSame (shown_frac f) (sum_of (shown_frac self) (shown_frac other))) }
        ensures short { OnOk result (IsShortSum (shown_frac self) (shown_frac other)) }
        // Promise: An operation on fractions is refused exactly where its documentation says
        ensures wide { IfErr result (λ fault. (fault ≡ FracFault.Wide) × ¬ IsShortSum (shown_frac self) (shown_frac other)) }
    {
        let common = gcd(self.den, other.den);
        let (left_factor, right_factor) = (other.den / common, self.den / common);
        let left = short_product(self.num, left_factor)?;
        let right = short_product(other.num, right_factor)?;
        let den = short_den(self.den, left_factor)?;
        let num = short_sum(left, right)?;
        let size = num.unsigned_abs();
        divided(num < 0, size, den, gcd(size, common))
    }

    /// The difference in lowest terms. It is Wide exactly where the sum with the negative of `other` is: where one of the three
    /// products, which have the same sizes, or the difference of the first two leaves the range.
    pub fn sub(self, other: Frac) -> Result<Frac, FracFault>
        // Promise: Each operation on fractions is exact, in lowest terms
        ensures difference { IfOk result (λ f. IsSame (shown_frac f) (difference_of (shown_frac self) (shown_frac other))) }
        ensures short { OnOk result (IsShortSum (shown_frac self) (negative_of (shown_frac other))) }
        // Promise: An operation on fractions is refused exactly where its documentation says
        ensures wide { IfErr result (λ fault. (fault ≡ FracFault.Wide) × ¬ IsShortSum (shown_frac self) (negative_of (shown_frac other))) }
    {
        self.add(other.negated())
    }

    /// The product in lowest terms. Each is freed first of what divides the other's denominator, so a product that fits in
    /// lowest terms is never refused: Wide exactly where it leaves the range in lowest terms.
    pub fn mul(self, other: Frac) -> Result<Frac, FracFault>
        // Promise: Each operation on fractions is exact, in lowest terms
        ensures product { IfOk result (λ f. IsSame (shown_frac f) (product_of (shown_frac self) (shown_frac other))) }
        // Promise: An operation on fractions is refused exactly where its documentation says
        ensures wide { IfErr result (λ fault. (fault ≡ FracFault.Wide) × LeavesRange (product_of (shown_frac self) (shown_frac other))) }
    {
        let negative = is_product_negative(self.num, other.num);
        let (left, right) = (self.num.unsigned_abs(), other.num.unsigned_abs());
        let left_common = gcd(left, other.den);
        let right_common = gcd(right, self.den);
        let (left, under_left) = (left / left_common, self.den / right_common);
        let (right, under_right) = (right / right_common, other.den / left_common);
        pack_products(negative, left, right, under_left, under_right)
    }

    /// The quotient in lowest terms. It is ZeroDivisor exactly where `other` is 0, and Wide exactly where the quotient in
    /// lowest terms leaves the range.
    pub fn div(self, other: Frac) -> Result<Frac, FracFault>
        // Promise: Each operation on fractions is exact, in lowest terms
        ensures quotient { IfOk result (λ f. IsSame (shown_frac f) (quotient_of (shown_frac self) (shown_frac other))) }
        // Promise: An operation on fractions is refused exactly where its documentation says
        ensures zero_divisor { IsErrOf result FracFault.ZeroDivisor ↔ ((shown_frac other).num ≡ pos 0) }
        // Promise: An operation on fractions is refused exactly where its documentation says
        ensures wide { IsErrOf result FracFault.Wide → LeavesRange (quotient_of (shown_frac self) (shown_frac other)) }
    {
        if other.num == 0 {
            return Err(FracFault::ZeroDivisor);
        }
        self.mul(other.inverse())
    }

    // One over a fraction that is not 0.
    fn inverse(self) -> Frac
        requires { (shown_frac self).num ≢ pos 0 }
        ensures { shown_frac result ≡ inverse_of (shown_frac self) }
    {
        let size = self.den as i128;
        Frac {
            num: if self.num < 0 { -size } else { size },
            den: self.num.unsigned_abs(),
        }
    }

    // The fraction with the other sign.
    fn negated(self) -> Frac
        ensures { shown_frac result ≡ negative_of (shown_frac self) }
    {
        Frac {
            num: -self.num,
            den: self.den,
        }
    }
}

// Whether the product of two numbers has a sign. At 0 either answer is right.
fn is_product_negative(a: i128, b: i128) -> bool
    ensures { a *ℤ b ≡ signed result (unsigned_abs a * unsigned_abs b) }
{
    (a < 0) != (b < 0)
}

// The fraction `a * b` over `c * d` of that sign, in lowest terms already.
fn pack_products(negative: bool, a: u128, b: u128, c: u128, d: u128) -> Result<Frac, FracFault>
    requires positive { 0 < c * d }
    requires lowest { IsCoprime (a * b) (c * d) }
    ensures same { IfOk result (λ f. shown_frac f ≡ signed_fraction negative (a * b) (c * d)) }
    ensures wide { IfErr result (λ fault. (fault ≡ FracFault.Wide) × LeavesRange (signed_fraction negative (a * b) (c * d))) }
{
    match (a.checked_mul(b), c.checked_mul(d)) {
        (Some(num), Some(den)) => pack(negative, num, den),
        _ => Err(FracFault::Wide),
    }
}

// The product, if it is short.
fn short_product(a: i128, b: u128) -> Result<i128, FracFault>
    requires { b < 2 ^ 127 }
    ensures value { IfOk result (λ product. product ≡ a *ℤ pos b) }
    ensures short { OnOk result (IsShort (a *ℤ pos b)) }
    ensures wide { IfErr result (λ fault. (fault ≡ FracFault.Wide) × ¬ IsShort (a *ℤ pos b)) }
{
    match a.checked_mul(b as i128) {
        Some(product) if product != i128::MIN => Ok(product),
        _ => Err(FracFault::Wide),
    }
}

// The product of two denominators, if it is short.
fn short_den(a: u128, b: u128) -> Result<u128, FracFault>
    ensures value { IfOk result (λ product. product ≡ a * b) }
    ensures short { OnOk result (IsShort (pos (a * b))) }
    ensures wide { IfErr result (λ fault. (fault ≡ FracFault.Wide) × ¬ IsShort (pos (a * b))) }
{
    match a.checked_mul(b) {
        Some(product) if product <= MOST => Ok(product),
        _ => Err(FracFault::Wide),
    }
}

// The sum, if it is short.
fn short_sum(a: i128, b: i128) -> Result<i128, FracFault>
    ensures value { IfOk result (λ sum. sum ≡ a +ℤ b) }
    ensures short { OnOk result (IsShort (a +ℤ b)) }
    ensures wide { IfErr result (λ fault. (fault ≡ FracFault.Wide) × ¬ IsShort (a +ℤ b)) }
{
    match a.checked_add(b) {
        Some(sum) if sum != i128::MIN => Ok(sum),
        _ => Err(FracFault::Wide),
    }
}
