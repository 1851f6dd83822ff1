//! Fractions rounded to whole numbers.

ghost use Rattle.std.specs.Prelude.{◌≡◌, ℕ, ◌<◌, ◌≤◌, ◌^◌, ℤ, pos, ◌+ℤ◌, ◌-ℤ◌, ◌*ℤ◌, ◌≤ℤ◌, ◌<ℤ◌, unsigned_abs};
ghost use Rattle.text_pieces.specs.Rounding.{rounded_down as down, rounded_up as up};

/// The greatest whole number that is not above the fraction.
pub fn rounded_down(num: i128, den: u128) -> i128
    requires { (0 < den) × (den < 2 ^ 127) }
    ensures { result ≡ down num den }
{
    num.div_euclid(den as i128)
}

/// The least whole number that is not below the fraction.
pub fn rounded_up(num: i128, den: u128) -> i128
    requires { (1 < den) × (den < 2 ^ 127) }
    ensures { result ≡ up num den }
{
    let low = num.div_euclid(den as i128);
    if num.rem_euclid(den as i128) == 0 {
        low
    } else {
        low + 1
    }
}

/// The laws of the two roundings, for the proofs of the crates above. There is no code here.
pub fn rounding_law()
    // Promise: Rounding down gives the greatest whole number that is not above the fraction, rounding up the least that is not below
    ensures not_above { (num : ℤ) (den : ℕ) → 0 < den → (down num den *ℤ pos den) ≤ℤ num }
    ensures greatest { (num : ℤ) (den : ℕ) → 0 < den → num <ℤ ((down num den +ℤ pos 1) *ℤ pos den) }
    ensures not_below { (num : ℤ) (den : ℕ) → 0 < den → num ≤ℤ (up num den *ℤ pos den) }
    ensures least { (num : ℤ) (den : ℕ) → 0 < den → ((up num den -ℤ pos 1) *ℤ pos den) <ℤ num }
{}
