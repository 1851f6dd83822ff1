//! A row of factors, changed by the pivot's.

ghost use Rattle.std.specs.Prelude.{◌≡◌, ◌≢◌, ◌⊎◌, ℕ, ◌+◌, ◌<◌, ◌≤◌, pos, length, IfOk, IfErr, OnOk, IsOkAnd, IsErrAnd};
ghost use Rattle.exact_num.specs.Fraction.{sum_of, product_of};
ghost use Rattle.exact_num.specs.Views.{shown_frac};
ghost use Rattle.exact_run.specs.Operations as operations;
ghost use Rattle.exact_pivots.specs.Entries.{factor_at, AreRising, HasFirst, next_of};
ghost use Rattle.exact_pivots.specs.Factors.{factors_of, IsUnder};
ghost use Rattle.exact_pivots.specs.Lines.{IsChangedRow};
ghost use Rattle.exact_pivots.specs.Stops.{IsTooWideBy, Stops, IsWrittenAt, IsWrittenInRow};
ghost use Rattle.exact_pivots.specs.declared.stop.Stop.TheVariants as stops;

use super::Factors;
use crate::entry::Entry;
use crate::stop::Stop;
use crate::wholes::whole;
use exact_num::Frac;
use exact_run::{Operation, TooWide, worked};
use std::alloc::Global;

impl Factors {
    /// Adds those of the pivot's row, where these have the column that enters.
    pub fn change(&mut self, alloc: Global, own: &Factors, entering: usize) -> Result<(), Stop>
        // Promise: A row that a step changes has each factor exactly
        ensures changed { OnOk result (IsChangedRow entering (factors_of own.now) (factors_of self.old) (factors_of self.new)) }
        ensures stops { IfErr result (Stops (IsWrittenInRow (factors_of self.old) (factors_of self.old entering) (factors_of own.now) entering)) }
    {
        let scale = self.at(entering);
        if scale.num() == 0 {
            return Ok(());
        }
        *self = self.changed(alloc, scale, own, entering)?;
        Ok(())
    }

    /// These factors, with those of the pivot times the scale added; none is left on the column that enters.
    pub fn changed(
        &self,
        alloc: Global,
        scale: Frac,
        own: &Factors,
        entering: usize,
    ) -> Result<Factors, Stop>
        ensures entering { IfOk result (λ f. factors_of f entering ≡ operations.whole (pos 0)) }
        // Promise: A row that a step changes has each factor exactly
        ensures others { IfOk result (λ f. (j : ℕ) → j ≢ entering → operations.IsReduced (sum_of (factors_of self.now j) (product_of (shown_frac scale) (factors_of own.now j))) (factors_of f j)) }
        // Promise: A row's change is told to be too wide only by an operation that it takes
        ensures stops { IfErr result (Stops (IsWrittenInRow (factors_of self.now) (shown_frac scale) (factors_of own.now) entering)) }
    {
        let mut changed = Factors::new(alloc);
        let (mut left, mut right) = (self.entries.as_slice(), own.entries.as_slice());
        while let Some(column) = next_column(left, right) {
            let (before, left_rest) = taken(left, column);
            let (part, right_rest) = taken(right, column);
            changed.push_changed(column, entering, added(before, scale, part))?;
            left = left_rest;
            right = right_rest;
        }
        Ok(changed)
    }

    /// Sets the factor on a column past those that have one, if it is there and the column is not the one that enters.
    fn push_changed(
        &mut self,
        column: usize,
        entering: usize,
        factor: Result<Frac, TooWide>,
    ) -> Result<(), Stop>
        requires { IsUnder column self.old }
        ensures under { OnOk result (IsUnder (column + 1) self.new) }
        ensures others { OnOk result ((j : ℕ) → j ≢ column → factors_of self.new j ≡ factors_of self.old j) }
        ensures entering { OnOk result (column ≡ entering → factors_of self.new column ≡ factors_of self.old column) }
        ensures factor { OnOk result (column ≢ entering → IsOkAnd factor (λ f. factors_of self.new column ≡ shown_frac f)) }
        ensures stops { IfErr result (λ s. (s ≡ stops.Memory) ⊎ ((column ≢ entering) × IsErrAnd factor (λ w. s ≡ stops.Wide w))) }
    {
        if column == entering {
            return Ok(());
        }
        self.push(column, factor?)?;
        Ok(())
    }
}

/// The first column of two lists, if they have any.
fn next_column(left: &[Entry], right: &[Entry]) -> Option<usize>
    ensures { result ≡ next_of left.now right.now }
{
    match (left.split_first(), right.split_first()) {
        (Some((a, _)), Some((b, _))) => Some(a.column.min(b.column)),
        (Some((a, _)), None) => Some(a.column),
        (None, Some((b, _))) => Some(b.column),
        (None, None) => None,
    }
}

/// The factor of a list on a column that none of its columns is below, and what is behind it.
fn taken(list: &[Entry], column: usize) -> (Frac, &[Entry])
    requires { AreRising column list.now }
    ensures factor { shown_frac result.0 ≡ factor_at list.now column }
    ensures rising { AreRising (column + 1) result.1.now }
    ensures rest { (j : ℕ) → column < j → factor_at list.now j ≡ factor_at result.1.now j }
    ensures shorter { length result.1.now ≤ length list.now }
    ensures first { HasFirst column list.now → length result.1.now < length list.now }
{
    match list.split_first() {
        Some((entry, rest)) => {
            if entry.column == column {
                (entry.value, rest)
            } else {
                (whole(0), list)
            }
        }
        None => (whole(0), list),
    }
}

/// The factor, with a part times the scale added.
pub(crate) fn added(before: Frac, scale: Frac, part: Frac) -> Result<Frac, TooWide>
    ensures sum { IfOk result (λ f. operations.IsReduced (sum_of (shown_frac before) (product_of (shown_frac scale) (shown_frac part))) (shown_frac f)) }
    ensures wide { IfErr result (IsTooWideBy (IsWrittenAt (shown_frac before) (shown_frac scale) (shown_frac part))) }
{
    if part.num() == 0 {
        return Ok(before);
    }
    let product = worked(Operation::Mul, scale, part)?;
    if before.num() == 0 {
        return Ok(product);
    }
    worked(Operation::Add, before, product)
}
