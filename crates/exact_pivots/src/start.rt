//! The state at the start.

ghost use Rattle.std.specs.Prelude.{◌≡◌, ◌≢◌, ℕ, ◌+◌, ◌<◌, ◌≤◌, ◌+ℤ◌, ◌*ℤ◌, ◌≤ℤ◌, ◌<ℤ◌, pos, negsuc, length, IfOk};
ghost use Rattle.integers.specs.Sums.{int_sum_below};
ghost use Rattle.exact_num.specs.Views.{shown_frac};
ghost use Rattle.exact_run.specs.Operations as operations;
ghost use Rattle.exact_run.specs.Programs as programs;
ghost use Rattle.exact_run.specs.States.{IsStart};
ghost use Rattle.exact_run.specs.declared.ends.End.TheVariants as ends;
ghost use Rattle.exact_pivots.specs.Factors.{factors_of};
ghost use Rattle.exact_pivots.specs.Views.{program_of, shown_line, state_of, stands_at};
ghost use Rattle.exact_pivots.specs.Fits.{IsReady, Fits};
ghost use Rattle.exact_pivots.specs.Starts.{AreFirstStands, AreFirstCosts, IsFirstLine, AreFirstLines};

use crate::factors::Factors;
use crate::program::BoundedProgram;
use crate::tableau::{Line, Tableau};
use crate::wholes::whole;
use exact_run::End;
use std::alloc::{AllocError, Global};

impl Tableau {
    /// The state at the start.
    pub fn start(alloc: Global, program: &BoundedProgram) -> Result<Tableau, AllocError>
        requires ready { IsReady program.now }
        // Promise: The run starts with the rows' columns in the basis, each variable where it costs least
        ensures start { IfOk result (λ t. IsStart (program_of program.now) (state_of t)) }
        ensures fits { IfOk result (λ t. Fits (program_of program.now) t) }
    {
        let stands = first_stands(alloc, program)?;
        let cost = first_cost(alloc, program)?;
        let lines = first_lines(alloc, program, &stands)?;
        Ok(Tableau {
            lines,
            stands,
            cost,
        })
    }
}

/// Where each column stands: a variable where it costs least, at its low end at a tie.
fn first_stands(alloc: Global, program: &BoundedProgram) -> Result<Vec<End>, AllocError>
    ensures { IfOk result (λ v. AreFirstStands (program_of program.now) v.items) }
{
    let mut stands = Vec::new(alloc);
    for number in 0..program.variables.len() {
        stands.push(if program.variables[number].cost < 0 {
            End::High
        } else {
            End::Low
        })?;
    }
    for _ in 0..program.rows.len() {
        stands.push(End::Low)?;
    }
    Ok(stands)
}

/// The cost's factors.
fn first_cost(alloc: Global, program: &BoundedProgram) -> Result<Factors, AllocError>
    ensures { IfOk result (λ f. AreFirstCosts (program_of program.now) (factors_of f)) }
{
    let mut cost = Factors::new(alloc);
    for number in 0..program.variables.len() {
        cost.push(number, whole(program.variables[number].cost))?;
    }
    Ok(cost)
}

/// The lines of the rows.
fn first_lines(
    alloc: Global,
    program: &BoundedProgram,
    stands: &[End],
) -> Result<Vec<Line>, AllocError>
    requires ready { IsReady program.now }
    requires stands { length stands.now ≡ programs.columns (program_of program.now) }
    ensures { IfOk result (λ v. AreFirstLines (program_of program.now) (stands_at stands.now) v.items) }
{
    let mut lines = Vec::new(alloc);
    for row in 0..program.rows.len() {
        lines.push(first_line(alloc, program, stands, row)?)?;
    }
    Ok(lines)
}

/// The line of a row.
fn first_line(
    alloc: Global,
    program: &BoundedProgram,
    stands: &[End],
    row: usize,
) -> Result<Line, AllocError>
    requires ready { IsReady program.now }
    requires stands { length stands.now ≡ programs.columns (program_of program.now) }
    requires row { row < length program.now.rows.items }
    ensures { IfOk result (λ l. IsFirstLine (program_of program.now) (stands_at stands.now) row (shown_line l)) }
{
    let mut factors = Factors::new(alloc);
    let mut sum = program.rows[row].constant;
    let mut rest = program.rows[row].terms.as_slice();
    while let Some((term, later)) = rest.split_first() {
        factors.push(term.variable, whole(term.value))?;
        sum += term.value * program.end_value(term.variable, stands[term.variable]);
        rest = later;
    }
    let basic = program.variables.len() + row;
    factors.push(basic, whole(-1))?;
    Ok(Line {
        basic,
        value: whole(sum),
        factors,
    })
}
