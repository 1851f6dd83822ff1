//! The proof at which a run ends.

ghost use Rattle.std.specs.Prelude.{◌≡◌, ◌≢◌, ◌<◌, ℕ, pos, IfOk, IfErr, length, if◌then◌else◌};
ghost use Rattle.pool_model.specs.Network.{Net};
ghost use Rattle.box_space.specs.Views.{shown_proof};
ghost use Rattle.box_space.specs.declared.coordinates.Form as forms;
ghost use Rattle.exact_num.specs.Fraction.{negative_of};
ghost use Rattle.exact_num.specs.Views.{shown_frac};
ghost use Rattle.exact_run.specs.Programs.{columns};
ghost use Rattle.exact_run.specs.Runs.{IsEmpty};
ghost use Rattle.exact_pivots.specs.Fits.{Fits};
ghost use Rattle.exact_pivots.specs.Factors.{factors_of};
ghost use Rattle.exact_pivots.specs.Views.{program_of, state_of};
ghost use Rattle.dual_rounding.specs.Programs.{form_rows};
ghost use Rattle.common_denominators.specs.Multiples.{IsCoarseIn, IsCommonOf, StandsIn};
ghost use Rattle.tight_leaf.specs.Parts as parts;
ghost use Rattle.tight_leaf.specs.Parts.{AreMultipliers, ArePartsOver, shown_multipliers};
ghost use Rattle.tight_leaf.specs.Proofs.{IsBareProof, IsMultiplier, IsMultiplierPast, IsScaledProof};
ghost use Rattle.tight_leaf.specs.Stops.{IsCoarseReason, StopsBy};

use crate::program::LeafProgram;
use crate::stop::Stop;
use box_space::{Part, Proof};
use common_denominators::{common_denominator, short_times};
use exact_num::Frac;
use exact_pivots::{Factors, Leaving, Tableau};
use exact_run::End;
use std::alloc::{AllocError, Global};

/// Multipliers on rows, and the rows' numbers, in the same order.
#[derive(Debug, Drop)]
pub(crate) struct Multipliers {
    pub rows: Vec<u32>,
    pub values: Vec<Frac>,
}

/// The proof of a state with a point: the cost's factors on the rows' columns, over their least common denominator, which is the scale.
pub(crate) fn bound_proof(
    alloc: Global,
    leaf: &LeafProgram,
    tableau: &Tableau,
) -> Result<Proof, Stop>
    requires fits { Fits (program_of leaf.now.program) tableau.now }
    requires rows { length leaf.now.rows.items ≡ (program_of leaf.now.program).rows }
    ensures proof { IfOk result (λ proof. (n : Net) (form : forms.Form) → leaf.now.rows.items ≡ form_rows n form
        → IsScaledProof n form (IsMultiplier (program_of leaf.now.program) (state_of tableau.now)) (shown_proof proof)) }
    ensures stop { IfErr result (StopsBy (IsCoarseReason (IsCoarseIn (IsMultiplier (program_of leaf.now.program) (state_of tableau.now))))) }
{
    let multipliers = listed(alloc, leaf, &tableau.cost, false)?;
    let scale = common_denominator(multipliers.values.as_slice())?;
    let parts = parts_over(alloc, scale, &multipliers)?;
    Ok(Proof { scale, parts })
}

/// The proof of a state without one: the factors of the place whose column is to leave on the rows' columns, minus these where its low
/// end is passed. The scale is 0.
pub(crate) fn empty_proof(
    alloc: Global,
    leaf: &LeafProgram,
    tableau: &Tableau,
    leaving: Leaving,
) -> Result<Proof, Stop>
    requires fits { Fits (program_of leaf.now.program) tableau.now }
    requires rows { length leaf.now.rows.items ≡ (program_of leaf.now.program).rows }
    requires empty { IsEmpty (program_of leaf.now.program) (state_of tableau.now) leaving.place leaving.side leaving.end }
    ensures proof { IfOk result (λ proof. (n : Net) (form : forms.Form) → leaf.now.rows.items ≡ form_rows n form
        → IsBareProof n form (IsMultiplierPast (program_of leaf.now.program) (state_of tableau.now) leaving.place leaving.side) (shown_proof proof)) }
    ensures stop { IfErr result (StopsBy (IsCoarseReason (IsCoarseIn (IsMultiplierPast (program_of leaf.now.program) (state_of tableau.now) leaving.place leaving.side)))) }
{
    let line = tableau.line(leaving.place);
    let turned = is_turned(leaving.side);
    let multipliers = listed(alloc, leaf, &line.factors, turned)?;
    let common = common_denominator(multipliers.values.as_slice())?;
    let parts = parts_over(alloc, common, &multipliers)?;
    Ok(Proof { scale: 0, parts })
}

/// The factors on the rows' columns, or minus these, by rising row. None is 0.
fn listed(
    alloc: Global,
    leaf: &LeafProgram,
    factors: &Factors,
    negated: bool,
) -> Result<Multipliers, AllocError>
    requires rows { length leaf.now.rows.items ≡ (program_of leaf.now.program).rows }
    requires under { (j : ℕ) → (factors_of factors.now j).num ≢ pos 0 → j < columns (program_of leaf.now.program) }
    ensures { IfOk result (AreMultipliers leaf.now.rows.items (program_of leaf.now.program).variables negated (factors_of factors.now)) }
{
    let first = leaf.program.variables.len();
    let mut rows = Vec::new(alloc);
    let mut values = Vec::new(alloc);
    for entry in factors.entries() {
        if entry.column >= first {
            rows.push(leaf.rows[entry.column - first])?;
            values.push(signed(entry.value, negated))?;
        }
    }
    Ok(Multipliers { rows, values })
}

/// Whether the multipliers are minus the factors: where the low end is passed.
fn is_turned(side: End) -> bool
    ensures { result ≡ parts.is_turned side }
{
    match side {
        End::Low => true,
        End::High => false,
    }
}

/// The fraction, or minus it.
fn signed(fraction: Frac, negated: bool) -> Frac
    ensures { shown_frac result ≡ (if negated then negative_of (shown_frac fraction) else shown_frac fraction) }
{
    if negated {
        negative(fraction)
    } else {
        fraction
    }
}

/// Minus a fraction.
fn negative(fraction: Frac) -> Frac
    ensures { shown_frac result ≡ negative_of (shown_frac fraction) }
{
    match Frac::new(-fraction.num(), fraction.den()) {
        Ok(opposite) => opposite,
        Err(_) => unreachable!(),
    }
}

/// So many times each multiplier.
fn parts_over(alloc: Global, scale: u64, multipliers: &Multipliers) -> Result<Vec<Part>, Stop>
    requires common { IsCommonOf (shown_multipliers multipliers.now) scale }
    requires rows { length multipliers.now.rows.items ≡ length multipliers.now.values.items }
    ensures parts { IfOk result (λ v. ArePartsOver scale multipliers.now v.items) }
    ensures stop { IfErr result (StopsBy (IsCoarseReason (IsCoarseIn (StandsIn (shown_multipliers multipliers.now))))) }
{
    let rows = multipliers.rows.as_slice();
    let values = multipliers.values.as_slice();
    let mut parts = Vec::new(alloc);
    for number in 0..rows.len() {
        parts.push(Part {
            row: rows[number],
            mult: short_times(scale, values[number])?,
        })?;
    }
    Ok(parts)
}
