//! Amounts and maxima that may be absent.

ghost use Rattle.std.specs.Prelude.{◌≡◌, Option, option_map, pos, ℕ};
ghost use Rattle.pool_model.specs.Network as model;

/// The lesser of an amount and a maximum, if there is one.
pub(crate) fn capped(max: Option<i64>, amount: i64) -> i64
    ensures { (m : Option ℕ) (a : ℕ) → max ≡ option_map pos m → amount ≡ pos a → result ≡ pos (model.capped m a) }
{
    match max {
        Some(max) => amount.min(max),
        None => amount,
    }
}
