//! Whole numbers as fractions.

ghost use Rattle.std.specs.Prelude.{◌≡◌};
ghost use Rattle.exact_num.specs.Fraction.{IsShort};
ghost use Rattle.exact_num.specs.Views.{shown_frac};
ghost use Rattle.exact_run.specs.Operations as operations;

use exact_num::Frac;

/// The whole number as a fraction.
pub fn whole(number: i128) -> Frac
    requires { IsShort number }
    ensures { shown_frac result ≡ operations.whole number }
{
    match Frac::new(number, 1) {
        Ok(fraction) => fraction,
        Err(_) => unreachable!(),
    }
}
