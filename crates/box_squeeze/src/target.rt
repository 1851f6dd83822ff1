//! The target of a squeeze.

ghost use Rattle.std.specs.Prelude.{◌≡◌, ◌<◌, ◌≤◌, ◌^◌, pos, ◌-ℤ◌, ◌≤ℤ◌, unsigned_abs};
ghost use Rattle.text_pieces.specs.Rounding.{rounded_up};

use plan_core::Cost;

/// What a plan has to cost less than to be worth a search, in picos: the cost of the best plan, rounded up, less the gap that is enough.
pub fn target_of(cost: &Cost, gap: i128) -> i128
    requires base { 0 < cost.now.base }
    requires size { unsigned_abs cost.now.num ≤ 2 ^ 124 }
    requires least { pos 0 ≤ℤ gap }
    requires most { gap ≤ℤ pos (10 ^ 24) }
    ensures { result ≡ rounded_up cost.now.num cost.now.base -ℤ gap }
{
    rounded(cost.num, cost.base) - gap
}

/// The least whole number that is not below a fraction.
fn rounded(num: i128, base: u64) -> i128
    requires base { 0 < base }
    requires size { unsigned_abs num ≤ 2 ^ 124 }
    ensures rounded { result ≡ rounded_up num base }
    ensures size { unsigned_abs result ≤ 2 ^ 124 }
{
    -((-num).div_euclid(base.into()))
}
