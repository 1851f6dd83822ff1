//! What the method found, in the units of the program.
//!
//! A method that ended without an answer gives the duals of the best bound on the way, with the values that came with them.

ghost use Rattle.std.specs.Prelude.{◌≡◌, [], vec_len, IfOk};
ghost use Rattle.linear_program.specs.Columns.{NamesColumns};

use crate::refine::refine;
use linear_program::{Advice, Lp};
use lp_pivots::{End, Simplex};
use lp_scaling::Program;
use lp_sparse::fixed::{DUAL_BITS, VALUE_BITS, bit_length, shifted};
use lp_sparse::lookup::{at, put};
use std::alloc::{AllocError, Global};

/// Duals and points are answered in units of 2^-32.
const ANSWER_BITS: i32 = 32;
/// What shifts a value to the units of the answer.
const VALUE_UNIT: i32 = ANSWER_BITS - VALUE_BITS as i32;

/// What shifts a dual to the units of the answer.
const DUAL_UNIT: i32 = ANSWER_BITS - DUAL_BITS as i32;

/// A dual of the answer is at most this in size: 2^90.
pub const MOST_DUAL: i128 = 1_237_940_039_285_380_274_899_124_224;

/// The advice where one row alone shows that the box has no point.
pub fn one_row(alloc: Global, lp: &Lp, row: usize, sign: i128) -> Result<Advice, AllocError>
    ensures duals { IfOk result (λ a. vec_len a.duals ≡ vec_len lp.now.rows) }
    ensures point { IfOk result (λ a. vec_len a.point ≡ vec_len lp.now.low) }
    ensures basis { IfOk result (λ a. a.basis.items ≡ []) }
{
    let mut duals = vec![in alloc; 0i128; lp.rows.len()]?;
    put(&mut duals, row, sign.wrapping_shl(52));
    let mut point = vec![in alloc; 0i128; lp.low.len()]?;
    for (number, low) in point.iter_mut().zip(lp.low.iter()) {
        *number = low.wrapping_shl(32);
    }
    Ok(Advice {
        ray: true,
        duals,
        point,
        basis: Vec::new(alloc),
    })
}

/// What the method found, where it ended in this way.
pub fn advice_of(
    alloc: Global,
    lp: &Lp,
    simplex: &mut Simplex,
    end: End,
) -> Result<Advice, AllocError>
    ensures duals { IfOk result (λ a. vec_len a.duals ≡ vec_len lp.now.rows) }
    ensures point { IfOk result (λ a. vec_len a.point ≡ vec_len lp.now.low) }
    ensures basis { IfOk result (λ a. NamesColumns lp.now a.basis.items) }
{
    let mut duals = vec![in alloc; 0i128; lp.rows.len()]?;
    let ray = matches!(&end, End::Ray(_));
    let basis = lp.named(simplex.basis_list(alloc)?);
    write_end(alloc, lp, simplex, end, &mut duals)?;
    let point = point_of(alloc, lp, simplex)?;
    Ok(Advice {
        ray,
        duals,
        point,
        basis,
    })
}

/// Writes the duals that belong to an end.
fn write_end(
    alloc: Global,
    lp: &Lp,
    simplex: &mut Simplex,
    end: End,
    duals: &mut [i128],
) -> Result<(), AllocError> {
    match end {
        End::Optimal => {
            write_duals(simplex, duals);
            refine(alloc, lp, simplex, duals)?;
            finish_duals(simplex.program(), duals);
        }
        End::Ray(multipliers) => write_ray(simplex.program(), &multipliers, duals),
        End::Stopped | End::Refused => {
            simplex.return_to_best(alloc)?;
            write_duals(simplex, duals);
            finish_duals(simplex.program(), duals);
        }
    }
    Ok(())
}

/// The point, each value brought into its box.
fn point_of(alloc: Global, lp: &Lp, simplex: &Simplex) -> Result<Vec<i128>, AllocError>
    ensures { IfOk result (λ v. vec_len v ≡ vec_len lp.now.low) }
{
    let mut point = vec![in alloc; 0i128; lp.low.len()]?;
    for (place, (number, low)) in point.iter_mut().zip(lp.low.iter()).enumerate() {
        let variable = simplex.program().variable(place);
        let value = simplex.value(place).min(variable.width).max(0);
        let unit = variable.exponent.saturating_add(VALUE_UNIT);
        let above = shifted(i128::from(value), unit);
        *number = low.wrapping_shl(32).wrapping_add(above);
    }
    Ok(point)
}

/// The ray, such that its largest dual has about 56 bits.
fn write_ray(program: &Program, multipliers: &[i64], duals: &mut [i128]) {
    let mut most = -100_000;
    for (row, number) in program.rows.iter().zip(multipliers) {
        if *number != 0 {
            let bits = bit_length(i128::from(*number));
            most = most.max(bits.saturating_sub(row.exponent));
        }
    }
    let unit = 56i32.saturating_sub(most);
    for (place, row) in program.rows.iter().enumerate() {
        let number = i128::from(at(multipliers, place, 0));
        let grown = unit.saturating_sub(row.exponent);
        put(duals, place, shifted(number, grown));
    }
}

/// Scaled duals in units of 2^-32.
fn write_duals(simplex: &Simplex, duals: &mut [i128]) {
    let program = simplex.program();
    let unit = program.cost_exponent.saturating_add(DUAL_UNIT);
    for (place, row) in program.rows.iter().enumerate() {
        let grown = unit.saturating_sub(row.exponent);
        let dual = shifted(i128::from(simplex.dual(place)), grown);
        put(duals, place, dual.clamp(-MOST_DUAL, MOST_DUAL));
    }
}

/// Rounds to multiples of 2^-30, which lose nothing at the scale 2^30, and cuts the duals of inequalities at 0.
fn finish_duals(program: &Program, duals: &mut [i128]) {
    for (place, row) in program.rows.iter().enumerate() {
        let dual = at(duals, place, 0);
        let near = (dual.wrapping_add(2) >> 2u32).wrapping_shl(2);
        put(duals, place, if row.equal { near } else { near.max(0) });
    }
}
