//! A row of factors, solved for the column that enters.

ghost use Rattle.std.specs.Prelude.{◌≡◌, ◌≢◌, ℕ, pos, negsuc, IfOk, IfErr};
ghost use Rattle.exact_num.specs.Fraction.{negative_of};
ghost use Rattle.exact_num.specs.Views.{shown_frac};
ghost use Rattle.exact_run.specs.Operations as operations;
ghost use Rattle.exact_pivots.specs.Factors.{factors_of};
ghost use Rattle.exact_pivots.specs.Stops.{IsTooWideBy, Stops, IsWrittenSolving, IsWrittenAbove, IsWrittenSolvingAt, IsSolvedFactor};

use super::Factors;
use crate::entry::Entry;
use crate::stop::Stop;
use crate::wholes::whole;
use exact_num::Frac;
use exact_run::{Operation, TooWide, worked};
use std::alloc::Global;

impl Factors {
    /// The factors of the row whose column of `leaving` is -1, solved for the column that enters, whose own is -1 then.
    pub fn solved(&self, alloc: Global, entering: usize, leaving: usize) -> Result<Factors, Stop>
        requires entering { (factors_of self.now entering).num ≢ pos 0 }
        // Promise: The pivot's row has each factor exactly
        ensures factors { IfOk result (λ f. (j : ℕ) → IsSolvedFactor (factors_of self.now entering) entering leaving j (factors_of self.now j) (factors_of f j)) }
        // Promise: The pivot's row is told to be too wide only by an operation that it takes
        ensures stops { IfErr result (Stops (IsWrittenSolving (factors_of self.now) entering leaving)) }
    {
        let by = self.at(entering);
        let mut solved = Factors::new(alloc);
        let mut rest = self.entries.as_slice();
        while let Some((entry, later)) = rest.split_first() {
            let factor = solved_factor(*entry, by, entering, leaving)?;
            solved.push(entry.column, factor)?;
            rest = later;
        }
        Ok(solved)
    }
}

/// One factor of the pivot's row, from that of the row before.
fn solved_factor(entry: Entry, by: Frac, entering: usize, leaving: usize) -> Result<Frac, TooWide>
    requires by { (shown_frac by).num ≢ pos 0 }
    requires entry { (shown_frac entry.value).num ≢ pos 0 }
    ensures factor { IfOk result (λ f. IsSolvedFactor (shown_frac by) entering leaving entry.column (shown_frac entry.value) (shown_frac f)) }
    ensures wide { IfErr result (IsTooWideBy (IsWrittenSolvingAt (shown_frac by) entering leaving entry.column (shown_frac entry.value))) }
{
    if entry.column == entering {
        return Ok(whole(-1));
    }
    let numerator = above(entry, leaving)?;
    worked(Operation::Div, numerator, by)
}

/// What is divided by the factor on the column that enters.
fn above(entry: Entry, leaving: usize) -> Result<Frac, TooWide>
    ensures leaving { IfOk result (λ f. entry.column ≡ leaving → shown_frac f ≡ operations.whole (pos 1)) }
    ensures others { IfOk result (λ f. entry.column ≢ leaving → operations.IsReduced (negative_of (shown_frac entry.value)) (shown_frac f)) }
    ensures wide { IfErr result (IsTooWideBy (IsWrittenAbove leaving entry.column (shown_frac entry.value))) }
{
    if entry.column == leaving {
        return Ok(whole(1));
    }
    worked(Operation::Sub, whole(0), entry.value)
}
