//! The run.

ghost use Rattle.std.specs.Prelude.{IfOk};
ghost use Rattle.exact_pivots.specs.Views.{program_of};
ghost use Rattle.exact_pivots.specs.Fits.{IsReady};
ghost use Rattle.exact_pivots.specs.Runs.{IsEnd};

use crate::pivots::Leaving;
use crate::program::BoundedProgram;
use crate::stop::Stop;
use crate::tableau::Tableau;
use exact_run::TooWide;
use std::alloc::{AllocError, Global};

/// How a run ends.
#[derive(Debug, Drop)]
pub enum Run {
    /// No column is past an end.
    Solved(Tableau),
    /// The column leaves, and none may enter.
    Empty(Tableau, Leaving),
    /// It has gone as many steps as it may, and goes on.
    Pivots,
    /// An operation of a step is too wide for 128 bits.
    Wide(TooWide),
}

/// The run of a program, of at most so many steps.
pub fn run_of(alloc: Global, program: &BoundedProgram, pivots: u32) -> Result<Run, AllocError>
    requires { IsReady program.now }
    // Promise: The exact run ends as the definition says: solved, empty, going on after its steps, or at an operation that is too wide
    ensures { IfOk result (IsEnd (program_of program.now) pivots) }
{
    let mut tableau = Tableau::start(alloc, program)?;
    for _ in 0..pivots {
        let Some(leaving) = tableau.leaving(program) else {
            return Ok(Run::Solved(tableau));
        };
        let entering = match tableau.entering(program, leaving) {
            Err(wide) => return Ok(Run::Wide(wide)),
            Ok(None) => return Ok(Run::Empty(tableau, leaving)),
            Ok(Some(column)) => column,
        };
        match tableau.step(alloc, program, leaving, entering) {
            Ok(()) => {}
            Err(Stop::Wide(wide)) => return Ok(Run::Wide(wide)),
            Err(Stop::Memory) => return Err(AllocError),
        }
    }
    let Some(leaving) = tableau.leaving(program) else {
        return Ok(Run::Solved(tableau));
    };
    if tableau.has_candidate(program, leaving) {
        Ok(Run::Pivots)
    } else {
        Ok(Run::Empty(tableau, leaving))
    }
}
