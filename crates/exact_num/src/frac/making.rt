//! Fractions made of their numbers.

ghost use Rattle.std.specs.Prelude.{◌≡◌, ◌*◌, ◌<◌, ◌^◌, ◌↔◌, pos, unsigned_abs, IfOk, IfErr, IsErrOf};
ghost use Rattle.std.specs.Int.{IsGcd};
ghost use Rattle.integers.specs.Divisors.{IsCoprime};
ghost use Rattle.exact_num.specs.Fraction.{IsSame, LeavesRange, ratio_of};
ghost use Rattle.exact_num.specs.Signed.{signed_fraction};
ghost use Rattle.exact_num.specs.Views.{shown_frac};
ghost use Rattle.exact_num.specs.declared.frac.FracFault.TheVariants as faults;

use super::{Frac, FracFault, MOST};
use crate::gcd::gcd;

impl Frac {
    /// `num / den` in lowest terms, for a `den` of either sign. It is ZeroDivisor exactly where `den` is 0, and Wide exactly
    /// where a number in lowest terms leaves the range.
    pub fn new(num: i128, den: i128) -> Result<Frac, FracFault>
        // Promise: Each operation on fractions is exact, in lowest terms
        ensures same { IfOk result (λ f. IsSame (shown_frac f) (ratio_of num den)) }
        // Promise: An operation on fractions is refused exactly where its documentation says
        ensures zero_divisor { IsErrOf result FracFault.ZeroDivisor ↔ (den ≡ pos 0) }
        // Promise: An operation on fractions is refused exactly where its documentation says
        ensures wide { IsErrOf result FracFault.Wide → LeavesRange (ratio_of num den) }
    {
        if den == 0 {
            return Err(FracFault::ZeroDivisor);
        }
        lowest(
            (num < 0) != (den < 0),
            num.unsigned_abs(),
            den.unsigned_abs(),
        )
    }
}

// The fraction of that sign and those sizes, brought to lowest terms.
fn lowest(negative: bool, num: u128, den: u128) -> Result<Frac, FracFault>
    requires { 0 < den }
    ensures same { IfOk result (λ f. IsSame (shown_frac f) (signed_fraction negative num den)) }
    ensures wide { IfErr result (λ fault. (fault ≡ FracFault.Wide) × LeavesRange (signed_fraction negative num den)) }
{
    divided(negative, num, den, gcd(num, den))
}

// The same where the greatest common divisor is known.
pub(super) fn divided(negative: bool, num: u128, den: u128, common: u128) -> Result<Frac, FracFault>
    requires positive { 0 < den }
    requires greatest { IsGcd num den common }
    ensures same { IfOk result (λ f. IsSame (shown_frac f) (signed_fraction negative num den)) }
    ensures wide { IfErr result (λ fault. (fault ≡ FracFault.Wide) × LeavesRange (signed_fraction negative num den)) }
{
    pack(negative, num / common, den / common)
}

// The fraction of that sign and those sizes, which are in lowest terms already.
pub(super) fn pack(negative: bool, num: u128, den: u128) -> Result<Frac, FracFault>
    requires positive { 0 < den }
    requires lowest { IsCoprime num den }
    ensures same { IfOk result (λ f. shown_frac f ≡ signed_fraction negative num den) }
    ensures wide { IfErr result (λ fault. (fault ≡ FracFault.Wide) × LeavesRange (signed_fraction negative num den)) }
{
    if num > MOST || den > MOST {
        return Err(FracFault::Wide);
    }
    let size = num as i128;
    let num = if negative { -size } else { size };
    Ok(Frac { num, den })
}
