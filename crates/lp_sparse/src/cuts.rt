//! Whole parts that make up for what is missing.

ghost use Rattle.std.specs.Prelude.{ℕ, ◌*◌, ◌<◌, ◌≤◌};

/// The least number of parts, of `each`, that make up for what is missing.
pub fn least_cut(missing: u128, each: u128) -> u128
    // Promise: Where a flow is lowered to keep a limit again, it is by the least number of millionths that makes up for what is missing
    ensures enough { 0 < each → missing ≤ result * each }
    // Promise: Where a flow is lowered to keep a limit again, it is by the least number of millionths that makes up for what is missing
    ensures least { (n : ℕ) → missing ≤ n * each → result ≤ n }
{
    if each == 0 {
        return 0;
    }
    missing.div_ceil(each)
}
