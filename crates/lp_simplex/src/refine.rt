//! The duals of the last basis, corrected on the whole numbers of the `Lp`.
//!
//! Scaled coefficients are rounded, so their duals are not quite those of the program. Its own reduced costs are summed
//! exactly, and solves with the kernel bring those of the basic variables to 0 (A. M. Gleixner, D. E. Steffy and K. Wolter,
//! Iterative refinement for linear programming, 2016).

use crate::answer::MOST_DUAL;
use linear_program::{Lp, Term};
use lp_pivots::Simplex;
use lp_scaling::Program;
use lp_sparse::Entry;
use lp_sparse::fixed::{bit_length, clamped, shifted, shifted_down};
use lp_sparse::lookup::{at, put};
use std::alloc::{AllocError, Global};

/// How often the duals are corrected at most.
const CORRECTIONS: u32 = 4;
/// What shifts a reduced cost in units of 2^-32 to a rest.
const REST_UNIT: i32 = 28;
/// A rest with more bits is not worth a correction.
const MOST_REST_BITS: i32 = 100;
/// The bits that a rest may have in a solve.
const SIDE_BITS: i32 = 50;

/// Brings the reduced costs of the basic variables to 0, as long as no product runs over.
pub fn refine(
    alloc: Global,
    lp: &Lp,
    simplex: &Simplex,
    duals: &mut [i128],
) -> Result<(), AllocError> {
    for _ in 0..CORRECTIONS {
        let Some(reduced_costs) = whole_reduced_costs(alloc, lp, duals)? else {
            break;
        };
        if !correct(alloc, simplex, &reduced_costs, duals)? {
            break;
        }
    }
    Ok(())
}

/// Makes one correction, and says whether there was anything to correct.
fn correct(
    alloc: Global,
    simplex: &Simplex,
    reduced_costs: &[i128],
    duals: &mut [i128],
) -> Result<bool, AllocError> {
    let rests = rests_of(alloc, simplex, reduced_costs)?;
    let mut most = 0i128;
    for rest in rests.iter() {
        most = most.max(rest.wrapping_abs());
    }
    let lost = bit_length(most).saturating_sub(SIDE_BITS).max(0);
    let mut side = Vec::new(alloc);
    for (variable, rest) in simplex.basic_variables().iter().zip(rests.iter()) {
        let value = clamped(shifted_down(*rest, lost.unsigned_abs()));
        if value != 0 {
            let place = *variable;
            side.push(Entry { place, value })?;
        }
    }
    if side.len() == 0 {
        return Ok(false);
    }
    let changes = simplex.solve_rows(alloc, &side)?;
    let program = simplex.program();
    let unit = program.cost_exponent.saturating_sub(REST_UNIT);
    add_changes(program, &changes, unit.saturating_add(lost), duals);
    Ok(true)
}

/// What is left of the reduced cost of each basic variable.
fn rests_of(
    alloc: Global,
    simplex: &Simplex,
    reduced_costs: &[i128],
) -> Result<Vec<i128>, AllocError> {
    let program = simplex.program();
    let unit = REST_UNIT.saturating_sub(program.cost_exponent);
    let mut rests = Vec::new(alloc);
    for variable in simplex.basic_variables() {
        let exponent = program.variable(*variable).exponent;
        let grown = unit.saturating_add(exponent);
        let rest = shifted(at(reduced_costs, *variable, 0), grown);
        let is_far = bit_length(rest) > MOST_REST_BITS;
        rests.push(if is_far { 0 } else { rest })?;
    }
    Ok(rests)
}

/// Adds what a solve found to the duals, where that keeps them in their range.
fn add_changes(program: &Program, changes: &[Entry], unit: i32, duals: &mut [i128]) {
    for entry in changes {
        let exponent = program.row(entry.place).exponent;
        let change = shifted(i128::from(entry.value), unit.saturating_sub(exponent));
        let dual = at(duals, entry.place, 0).wrapping_add(change);
        if is_near(change) && is_near(dual) {
            put(duals, entry.place, dual);
        }
    }
}

fn is_near(dual: i128) -> bool {
    -MOST_DUAL <= dual && dual <= MOST_DUAL
}

/// The reduced costs in units of 2^-32, if none runs over.
fn whole_reduced_costs(
    alloc: Global,
    lp: &Lp,
    duals: &[i128],
) -> Result<Option<Vec<i128>>, AllocError> {
    let mut reduced_costs = Vec::with_capacity(alloc, lp.cost.len())?;
    for cost in lp.cost.iter() {
        reduced_costs.push(cost.wrapping_shl(32))?;
    }
    for (row, dual) in lp.rows.iter().zip(duals) {
        if *dual != 0 && !take_row(&mut reduced_costs, &row.terms, *dual) {
            return Ok(None);
        }
    }
    Ok(Some(reduced_costs))
}

/// Takes a row from the reduced costs, and says whether no product ran over.
fn take_row(reduced_costs: &mut [i128], terms: &[Term], dual: i128) -> bool {
    for term in terms {
        let variable = term.var as usize;
        let rest = at(reduced_costs, variable, 0);
        let Some(paid) = dual.checked_mul(term.coef) else {
            return false;
        };
        let Some(left) = rest.checked_sub(paid) else {
            return false;
        };
        put(reduced_costs, variable, left);
    }
    true
}
