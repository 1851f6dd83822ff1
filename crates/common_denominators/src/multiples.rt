//! Common denominators, and fractions over them.

ghost use Rattle.std.specs.Prelude.{◌≡◌, ℕ, ◌*◌, ◌<◌, ◌≤◌, ◌^◌, unsigned_abs, IfOk, IfErr};
ghost use Rattle.std.specs.Int.{◌∣◌};
ghost use Rattle.exact_num.specs.Views.{shown_frac};
ghost use Rattle.common_denominators.specs.Multiples.{IsCommonMultiple, IsEither, IsLeastMultiple, IsOutside, IsTimes};

use exact_num::Frac;

/// A number and a fraction that have no common multiple below 2^64 of the number and the denominator, or of which so many times the fraction
/// is too large.
#[derive(Clone, Copy, Debug, PartialEq, Eq)]
pub struct Coarse {
    pub times: u64,
    pub fraction: Frac,
}

/// The least common multiple of a number above 0 and a fraction's denominator, where it is below 2^64.
pub fn joined(times: u64, fraction: Frac) -> Result<u64, Coarse>
    requires { 0 < times }
    ensures least { IfOk result (IsLeastMultiple (IsEither times (shown_frac fraction).den)) }
    ensures told { IfErr result (λ c. (c.times ≡ times) × (c.fraction ≡ fraction)) }
    ensures large { IfErr result (λ _. (m : ℕ) → 0 < m → IsCommonMultiple (IsEither times (shown_frac fraction).den) m → 2 ^ 64 ≤ m) }
{
    let coarse = Coarse { times, fraction };
    let cancelled = over_denominator(times, fraction);
    let multiple = u128::from(times).checked_mul(cancelled.den() as u128);
    match multiple {
        Some(multiple) if multiple <= u128::from(u64::MAX) => Ok(multiple as u64),
        _ => Err(coarse),
    }
}

/// A number over a fraction's denominator, in lowest terms.
fn over_denominator(count: u64, fraction: Frac) -> Frac
    ensures { unsigned_abs (shown_frac result).num * (shown_frac fraction).den ≡ count * (shown_frac result).den }
{
    match Frac::new(i128::from(count), fraction.den()) {
        Ok(cancelled) => cancelled,
        Err(_) => unreachable!(),
    }
}

/// So many times a fraction whose denominator divides them, where that is in the range of `i128`.
pub fn times(count: u64, fraction: Frac) -> Result<i128, Coarse>
    requires { (shown_frac fraction).den ∣ count }
    ensures value { IfOk result (IsTimes count (shown_frac fraction)) }
    ensures told { IfErr result (λ c. (c.times ≡ count) × (c.fraction ≡ fraction)) }
    ensures outside { IfErr result (λ _. IsOutside 127 count (shown_frac fraction)) }
{
    let factor = i128::from(count) / fraction.den();
    match fraction.num().checked_mul(factor) {
        Some(number) => Ok(number),
        None => Err(Coarse {
            times: count,
            fraction,
        }),
    }
}

/// The same, where it is in the range of `i64`.
pub fn short_times(count: u64, fraction: Frac) -> Result<i64, Coarse>
    requires { (shown_frac fraction).den ∣ count }
    ensures value { IfOk result (IsTimes count (shown_frac fraction)) }
    ensures told { IfErr result (λ c. (c.times ≡ count) × (c.fraction ≡ fraction)) }
    ensures outside { IfErr result (λ _. IsOutside 63 count (shown_frac fraction)) }
{
    let number = times(count, fraction)?;
    if i128::from(i64::MIN) <= number && number <= i128::from(i64::MAX) {
        Ok(number as i64)
    } else {
        Err(Coarse {
            times: count,
            fraction,
        })
    }
}
