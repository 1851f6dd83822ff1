//! The point at which a run ends.

ghost use Rattle.std.specs.Prelude.{◌≡◌, IfOk, IfErr, length, map, slice_set};
ghost use Rattle.exact_num.specs.Views.{shown_frac};
ghost use Rattle.exact_pivots.specs.Fits.{Fits};
ghost use Rattle.exact_pivots.specs.Views.{program_of, state_of};
ghost use Rattle.relaxation_points.specs.Views.{shown_point};
ghost use Rattle.common_denominators.specs.Multiples.{IsCoarseIn, IsCommonOf, IsOutside, StandsIn};
ghost use Rattle.tight_leaf.specs.Stops.{IsCoarseReason, StopsBy};
ghost use Rattle.tight_leaf.specs.Points.{AreValues, AreTimes, IsCoarseValue, IsPointOf};

use crate::stop::Stop;
use common_denominators::{common_denominator, times};
use exact_num::Frac;
use exact_pivots::{BoundedProgram, Line, Tableau, whole};
use relaxation_points::RelaxPoint;
use std::alloc::{AllocError, Global};

/// The point of a state: the value of each variable, over the least common multiple of their denominators.
pub(crate) fn point_of(
    alloc: Global,
    program: &BoundedProgram,
    tableau: &Tableau,
) -> Result<RelaxPoint, Stop>
    requires { Fits (program_of program.now) tableau.now }
    ensures point { IfOk result (λ q. IsPointOf (program_of program.now) (state_of tableau.now) (shown_point q)) }
    ensures length { IfOk result (λ q. length q.values.items ≡ (program_of program.now).variables) }
    ensures stop { IfErr result (StopsBy (IsCoarseReason (IsCoarseValue (program_of program.now) (state_of tableau.now)))) }
{
    let fractions = values(alloc, program, tableau)?;
    let base = common_denominator(fractions.as_slice())?;
    let values = values_over(alloc, base, fractions.as_slice())?;
    Ok(RelaxPoint { base, values })
}

/// The value of each variable: that of its line where it is basic, else the end at which it stands.
fn values(
    alloc: Global,
    program: &BoundedProgram,
    tableau: &Tableau,
) -> Result<Vec<Frac>, AllocError>
    requires { Fits (program_of program.now) tableau.now }
    ensures { IfOk result (λ v. AreValues (program_of program.now) (state_of tableau.now) (map shown_frac v.items)) }
{
    let mut values = Vec::new(alloc);
    for variable in 0..program.variables.len() {
        let end = tableau.stands[variable];
        values.push(whole(program.end_value(variable, end)))?;
    }
    for place in 0..tableau.lines.len() {
        let line = tableau.line(place);
        write(&mut values, line);
    }
    Ok(values)
}

/// Writes the value of a line over that of its column, where the values have one of it.
fn write(values: &mut Vec<Frac>, line: &Line)
    ensures { values.new.items ≡ slice_set values.old.items line.now.basic line.now.value }
{
    if line.basic < values.len() {
        values[line.basic] = line.value;
    }
}

/// So many times each fraction.
fn values_over(alloc: Global, base: u64, fractions: &[Frac]) -> Result<Vec<i128>, Stop>
    requires { IsCommonOf (map shown_frac fractions.now) base }
    ensures times { IfOk result (λ v. AreTimes base (map shown_frac fractions.now) v.items) }
    ensures stop { IfErr result (StopsBy (IsCoarseReason (λ n x. IsOutside 127 n x × IsCoarseIn (StandsIn (map shown_frac fractions.now)) n x))) }
{
    let mut values = Vec::new(alloc);
    for fraction in fractions {
        values.push(times(base, *fraction)?)?;
    }
    Ok(values)
}
