//! The common denominator of several fractions.

ghost use Rattle.std.specs.Prelude.{◌≡◌, IfOk, IfErr, map};
ghost use Rattle.exact_num.specs.Views.{shown_frac};
ghost use Rattle.common_denominators.specs.Multiples.{HasNoShort, IsCoarse, IsCoarseIn, IsCommonOf, StandsIn};

use crate::multiples::{Coarse, joined};
use exact_num::Frac;

/// The least common multiple of the fractions' denominators, where it is below 2^64: 1 of none. Else the least common multiple of some of
/// them, with the fraction that makes it too large.
pub fn common_denominator(fractions: &[Frac]) -> Result<u64, Coarse>
    ensures common { IfOk result (IsCommonOf (map shown_frac fractions.now)) }
    ensures coarse { IfErr result (λ c. IsCoarse c.times (shown_frac c.fraction)) }
    ensures large { IfErr result (λ c. HasNoShort c.times (shown_frac c.fraction).den) }
    ensures listed { IfErr result (λ c. IsCoarseIn (StandsIn (map shown_frac fractions.now)) c.times (shown_frac c.fraction)) }
{
    let mut common = 1;
    for fraction in fractions {
        common = joined(common, *fraction)?;
    }
    Ok(common)
}
