//! Which column leaves and which one enters.

ghost use Rattle.std.specs.Prelude.{◌≡◌, ◌≢◌, ◌<◌, ◌≤◌, ◌↔◌, ◌+◌, ℕ, pos, unsigned_abs, Some, IfOk, IfErr, IsTrue};
ghost use Rattle.exact_num.specs.Fraction.{IsShort, IsSame};
ghost use Rattle.exact_num.specs.Views.{shown_frac};
ghost use Rattle.exact_run.specs.Programs as programs;
ghost use Rattle.exact_run.specs.Steps.{IsBelow, BringsBack, Leaves, IsCandidate};
ghost use Rattle.exact_pivots.specs.Sizes.{size_of};

use crate::entry::Entry;
use crate::program::BoundedProgram;
use crate::tableau::Tableau;
use crate::wholes::whole;
use exact_num::{Frac, compare_ratio};
use exact_run::{End, Operation, TooWide, worked};
use std::cmp::Ordering;

/// The place whose column leaves, and the end that it is past.
#[derive(Clone, Copy, Debug)]
pub struct Leaving {
    pub place: usize,
    pub side: End,
    pub end: i128,
    pub ghost short: { IsShort end },
}

/// A column that may enter, and what the cost's factor on it is over the place's.
#[derive(Clone, Copy, Debug)]
pub(crate) struct Weighed {
    column: usize,
    ratio: Frac,
}

impl Tableau {
    ghost use Rattle.exact_pivots.specs.Views.{program_of, state_of};
    ghost use Rattle.exact_pivots.specs.Fits.{Fits};
    ghost use Rattle.exact_pivots.specs.Stops.{IsTooWideBy};
    ghost use Rattle.exact_pivots.specs.Choices as choices;
    ghost use Rattle.exact_pivots.specs.Weighing.{IsWeighed, IsEntry};

    /// The column that leaves: of those past an end the first.
    pub fn leaving(&self, program: &BoundedProgram) -> Option<Leaving>
        requires { Fits (program_of program.now) self.now }
        // Promise: The column that leaves is the first that is past an end, and none is told only where none is
        ensures { choices.IsLeaving (program_of program.now) (state_of self.now) result }
    {
        let mut found = None;
        for place in 0..self.lines.len() {
            found = self.earlier(program, found, place);
        }
        found
    }

    /// The column that leaves of one more place.
    fn earlier(
        &self,
        program: &BoundedProgram,
        found: Option<Leaving>,
        place: usize,
    ) -> Option<Leaving>
        requires fits { Fits (program_of program.now) self.now }
        requires place { place < (program_of program.now).rows }
        requires found { choices.IsLeavingOf (program_of program.now) (state_of self.now) place found }
        ensures { choices.IsLeavingOf (program_of program.now) (state_of self.now) (place + 1) result }
    {
        let Some(other) = self.past(program, place) else {
            return found;
        };
        let Some(first) = found else {
            return Some(other);
        };
        if self.line(first.place).basic <= self.line(place).basic {
            Some(first)
        } else {
            Some(other)
        }
    }

    /// The end that a place's column is past, if any.
    fn past(&self, program: &BoundedProgram, place: usize) -> Option<Leaving>
        requires fits { Fits (program_of program.now) self.now }
        requires place { place < (program_of program.now).rows }
        ensures { choices.IsPastAt (program_of program.now) (state_of self.now) place result }
    {
        let line = self.line(place);
        let low = program.low_end(line.basic);
        if is_below(line.value, whole(low)) {
            return Some(Leaving {
                place,
                side: End::Low,
                end: low,
            });
        }
        let high = program.high_end(line.basic)?;
        if is_below(whole(high), line.value) {
            return Some(Leaving {
                place,
                side: End::High,
                end: high,
            });
        }
        None
    }

    /// Whether some column may enter.
    pub fn has_candidate(&self, program: &BoundedProgram, leaving: Leaving) -> bool
        requires fits { Fits (program_of program.now) self.now }
        requires place { leaving.place < (program_of program.now).rows }
        ensures some { IsTrue result → choices.HasSome (program_of program.now) (state_of self.now) leaving }
        ensures none { (IsTrue result → ⊥) → choices.HasNone (program_of program.now) (state_of self.now) leaving }
    {
        let mut rest = self.line(leaving.place).factors.entries();
        while let Some((entry, later)) = rest.split_first() {
            if self.is_candidate(program, leaving, *entry) {
                return true;
            }
            rest = later;
        }
        false
    }

    /// The column that enters: of the candidates that of least ratio, the first at a tie.
    pub fn entering(
        &self,
        program: &BoundedProgram,
        leaving: Leaving,
    ) -> Result<Option<usize>, TooWide>
        requires fits { Fits (program_of program.now) self.now }
        requires leaves { Leaves (program_of program.now) (state_of self.now) leaving.place leaving.side leaving.end }
        // Promise: The column that enters is the first of least ratio, and none is told only where none may enter
        ensures entering { IfOk result (λ o. choices.IsEntering (program_of program.now) (state_of self.now) leaving o) }
        ensures wide { IfErr result (IsTooWideBy (choices.IsWrittenFrom (program_of program.now) (state_of self.now))) }
    {
        let mut best = None;
        let mut rest = self.line(leaving.place).factors.entries();
        while let Some((entry, later)) = rest.split_first() {
            best = self.weighed(program, leaving, best, *entry)?;
            rest = later;
        }
        match best {
            Some(weighed) => Ok(Some(weighed.column)),
            None => Ok(None),
        }
    }

    /// The column that enters, of one entry more.
    fn weighed(
        &self,
        program: &BoundedProgram,
        leaving: Leaving,
        best: Option<Weighed>,
        entry: Entry,
    ) -> Result<Option<Weighed>, TooWide>
        requires fits { Fits (program_of program.now) self.now }
        requires leaves { Leaves (program_of program.now) (state_of self.now) leaving.place leaving.side leaving.end }
        requires entry { IsEntry (state_of self.now) leaving.place entry }
        requires best { IsWeighed (program_of program.now) (state_of self.now) leaving entry.column best }
        ensures best { IfOk result (IsWeighed (program_of program.now) (state_of self.now) leaving (entry.column + 1)) }
        ensures wide { IfErr result (IsTooWideBy (choices.IsWrittenFrom (program_of program.now) (state_of self.now))) }
    {
        if !self.is_candidate(program, leaving, entry) {
            return Ok(best);
        }
        let ratio = worked(Operation::Div, self.cost.at(entry.column), entry.value)?;
        let weighed = Weighed {
            column: entry.column,
            ratio,
        };
        let Some(least) = best else {
            return Ok(Some(weighed));
        };
        if is_smaller(ratio, least.ratio) {
            Ok(Some(weighed))
        } else {
            Ok(Some(least))
        }
    }

    /// Whether the column of an entry may enter.
    fn is_candidate(&self, program: &BoundedProgram, leaving: Leaving, entry: Entry) -> bool
        requires fits { Fits (program_of program.now) self.now }
        requires place { leaving.place < (program_of program.now).rows }
        requires entry { IsEntry (state_of self.now) leaving.place entry }
        ensures { IsTrue result ↔ IsCandidate (program_of program.now) (state_of self.now) leaving.place leaving.side entry.column }
    {
        entry.column != self.line(leaving.place).basic
            && program.can_move(entry.column)
            && brings_back(leaving.side, self.stands[entry.column], entry.value)
    }
}

/// Whether a factor brings a column back that is past this end, as one that stands at the second moves.
fn brings_back(side: End, stands: End, factor: Frac) -> bool
    ensures { IsTrue result ↔ BringsBack side stands (shown_frac factor).num }
{
    match (side, stands) {
        (End::Low, End::Low) | (End::High, End::High) => factor.num() > 0,
        _ => factor.num() < 0,
    }
}

/// Whether the first is below the second.
fn is_below(a: Frac, b: Frac) -> bool
    ensures { IsTrue result ↔ IsBelow (shown_frac a) (shown_frac b) }
{
    match a.compare(b) {
        Ordering::Less => true,
        _ => false,
    }
}

/// Whether the first is of smaller size than the second.
fn is_smaller(a: Frac, b: Frac) -> bool
    ensures { IsTrue result ↔ IsBelow (size_of (shown_frac a)) (size_of (shown_frac b)) }
{
    match compare_ratio(a.num().abs(), a.den(), b.num().abs(), b.den()) {
        Ordering::Less => true,
        _ => false,
    }
}
