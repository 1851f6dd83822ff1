//! The step.

ghost use Rattle.std.specs.Prelude.{◌≡◌, ◌≢◌, ◌⊎◌, ℕ, ◌<◌, pos, length, set, OnOk, IfOk, IfErr};
ghost use Rattle.exact_num.specs.Fraction.{IsShort, difference_of, quotient_of};
ghost use Rattle.exact_num.specs.Views.{shown_frac};
ghost use Rattle.exact_run.specs.Operations as operations;
ghost use Rattle.exact_run.specs.Programs as programs;
ghost use Rattle.exact_run.specs.Steps.{Leaves, Enters};
ghost use Rattle.exact_pivots.specs.Factors.{factors_of};
ghost use Rattle.exact_pivots.specs.Stops.{IsTooWideBy, Stops, IsWrittenInRow};
ghost use Rattle.exact_pivots.specs.Views.{program_of, state_of, shown_line, line_at};
ghost use Rattle.exact_pivots.specs.Fits.{Fits};
ghost use Rattle.exact_pivots.specs.Choices as choices;
ghost use Rattle.exact_pivots.specs.Lines.{IsWrittenMoving, IsPivotRow, IsChangedRow, IsChangedLine, IsWrittenChanging, AreChangedTo};

use crate::factors::{Factors, added};
use crate::pivots::Leaving;
use crate::program::BoundedProgram;
use crate::stop::Stop;
use crate::tableau::{Line, Tableau};
use crate::wholes::whole;
use exact_num::Frac;
use exact_run::{Operation, TooWide, worked};
use std::alloc::Global;

/// The pivot's row: the column that enters, how far that moves, its factors then, and its value.
#[derive(Debug, Drop)]
struct Change {
    entering: usize,
    moved: Frac,
    own: Factors,
    value: Frac,
}

impl Tableau {
    /// The state after the step of the column that leaves and the one that enters. Where the step stops, the state is lost.
    pub fn step(
        &mut self,
        alloc: Global,
        program: &BoundedProgram,
        leaving: Leaving,
        entering: usize,
    ) -> Result<(), Stop>
        requires fits { Fits (program_of program.now) self.old }
        requires leaves { Leaves (program_of program.now) (state_of self.old) leaving.place leaving.side leaving.end }
        requires enters { Enters (program_of program.now) (state_of self.old) leaving.place leaving.side entering }
        // Promise: The state after a step is that of the definition, exactly
        ensures step { OnOk result (choices.StepsTo (program_of program.now) (state_of self.old) (state_of self.new)) }
        ensures fits { OnOk result (Fits (program_of program.now) self.new) }
        // Promise: A step is told to be too wide only by an operation that it writes
        ensures stops { IfErr result (Stops (choices.IsWrittenFrom (program_of program.now) (state_of self.old))) }
    {
        let change = self.pivot_row(alloc, program, leaving, entering)?;
        change_lines(&mut self.lines, alloc, leaving.place, &change)?;
        self.cost.change(alloc, &change.own, entering)?;
        self.enter(leaving, change);
        Ok(())
    }

    /// The pivot's row.
    fn pivot_row(
        &self,
        alloc: Global,
        program: &BoundedProgram,
        leaving: Leaving,
        entering: usize,
    ) -> Result<Change, Stop>
        requires fits { Fits (program_of program.now) self.now }
        requires leaves { Leaves (program_of program.now) (state_of self.now) leaving.place leaving.side leaving.end }
        requires enters { Enters (program_of program.now) (state_of self.now) leaving.place leaving.side entering }
        ensures entering { IfOk result (λ c. c.entering ≡ entering) }
        ensures row { IfOk result (λ c. IsPivotRow (program_of program.now) (state_of self.now) leaving entering (shown_frac c.moved) (factors_of c.own) (shown_frac c.value)) }
        ensures stops { IfErr result (Stops (choices.IsWrittenFrom (program_of program.now) (state_of self.now))) }
    {
        let line = self.line(leaving.place);
        let moved = distance(leaving.end, line.value, line.factors.at(entering))?;
        let stood = whole(program.end_value(entering, self.stands[entering]));
        let value = worked(Operation::Add, stood, moved)?;
        let own = line.factors.solved(alloc, entering, line.basic)?;
        Ok(Change {
            entering,
            moved,
            own,
            value,
        })
    }

    /// Puts the pivot's row in the place of the line that leaves.
    fn enter(&mut self, leaving: Leaving, change: Change)
        requires place { leaving.place < length self.old.lines.items }
        requires stands { (line_at self.old.lines.items leaving.place).basic < length self.old.stands.items }
        ensures line { line_at self.new.lines.items leaving.place ≡ record { basic = change.entering; value = shown_frac change.value; factor = factors_of change.own } }
        ensures lines { (q : ℕ) → q ≢ leaving.place → line_at self.new.lines.items q ≡ line_at self.old.lines.items q }
        ensures length { length self.new.lines.items ≡ length self.old.lines.items }
        ensures stands { self.new.stands.items ≡ set self.old.stands.items (line_at self.old.lines.items leaving.place).basic leaving.side }
        ensures cost { factors_of self.new.cost ≡ factors_of self.old.cost }
    {
        let leaves = self.line(leaving.place).basic;
        self.stands[leaves] = leaving.side;
        self.lines[leaving.place] = Line {
            basic: change.entering,
            value: change.value,
            factors: change.own,
        };
    }
}

/// How far the column that enters moves.
fn distance(end: i128, value: Frac, by: Frac) -> Result<Frac, TooWide>
    requires end { IsShort end }
    requires by { (shown_frac by).num ≢ pos 0 }
    ensures moved { IfOk result (λ f. operations.IsReduced (quotient_of (difference_of (operations.whole end) (shown_frac value)) (shown_frac by)) (shown_frac f)) }
    ensures wide { IfErr result (IsTooWideBy (IsWrittenMoving (operations.whole end) (shown_frac value) (shown_frac by))) }
{
    let past = worked(Operation::Sub, whole(end), value)?;
    worked(Operation::Div, past, by)
}

/// Changes each line but that of the place.
fn change_lines(
    lines: &mut Vec<Line>,
    alloc: Global,
    place: usize,
    change: &Change,
) -> Result<(), Stop>
    ensures changed { OnOk result (AreChangedTo place change.now.entering (shown_frac change.now.moved) (factors_of change.now.own) lines.old.items lines.new.items (length lines.old.items)) }
    ensures stops { IfErr result (Stops (λ o a b. (q : ℕ) × (q < length lines.old.items) × (q ≢ place) × IsWrittenChanging change.now.entering (shown_frac change.now.moved) (factors_of change.now.own) (line_at lines.old.items q) o a b)) }
{
    for number in 0..lines.len() {
        if number == place {
            continue;
        }
        lines[number].change(alloc, change)?;
    }
    Ok(())
}

impl Line {
    /// Adds the pivot's row, where the line has the column that enters.
    fn change(&mut self, alloc: Global, change: &Change) -> Result<(), Stop>
        ensures changed { OnOk result (IsChangedLine change.now.entering (shown_frac change.now.moved) (factors_of change.now.own) (shown_line self.old) (shown_line self.new)) }
        ensures stops { IfErr result (Stops (IsWrittenChanging change.now.entering (shown_frac change.now.moved) (factors_of change.now.own) (shown_line self.old))) }
    {
        let scale = self.factors.at(change.entering);
        if scale.num() == 0 {
            return Ok(());
        }
        self.value = added(self.value, scale, change.moved)?;
        self.factors.change(alloc, &change.own, change.entering)?;
        Ok(())
    }
}
