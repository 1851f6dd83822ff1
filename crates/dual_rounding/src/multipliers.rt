//! Multipliers from duals.

ghost use Rattle.std.specs.Prelude.{◌≡◌, ◌-◌, ◌^◌, ◌≤◌, ◌++◌, ◌∷◌, [], map, OnOk};
ghost use Rattle.box_space.specs.Views.{shown_part, shown_proof};
ghost use Rattle.dual_rounding.specs.Price.{nonzero};
ghost use Rattle.dual_rounding.specs.Tried as proofs;

use box_space::{Part, Proof};
use linear_program::{Advice, Lp};
use std::alloc::AllocError;

/// Writes the proof of an advice at a scale over a proof: a part for each row and its dual, but for those of multiplier 0. A dual
/// counts parts of 2^32, so that the scale and the shift make 2^32 together.
pub(crate) fn write_advised(
    lp: &Lp,
    advice: &Advice,
    scale: u64,
    shift: u32,
    proof: &mut Proof,
) -> Result<(), AllocError>
    requires shift { shift ≤ 32 }
    requires scale { scale ≡ 2 ^ (32 - shift) }
    ensures { OnOk result (shown_proof proof.new ≡ proofs.advised_proof lp.now advice.now scale) }
{
    proof.scale = if advice.ray { 0 } else { scale };
    proof.parts.clear();
    for (row, dual) in lp.rows.iter().zip(&advice.duals) {
        let mult = multiplier(*dual, shift, row.equal);
        add_part(&mut proof.parts, row.id, mult)?;
    }
    Ok(())
}

/// Adds a multiplier on a row, unless it is 0.
pub(crate) fn add_part(parts: &mut Vec<Part>, row: u32, mult: i64) -> Result<(), AllocError>
    ensures { OnOk result (map shown_part parts.new.items ≡ map shown_part parts.old.items ++ nonzero (record { row = row; mult = mult } ∷ [])) }
{
    if mult == 0 {
        return Ok(());
    }
    parts.push(Part { row, mult })?;
    Ok(())
}

/// The multiplier of a row: the dual over a power of two, rounded down. It is 0 where that does not fit, or where it is below 0
/// on a row that is at least 0.
fn multiplier(dual: i128, shift: u32, is_equal: bool) -> i64
    requires { shift ≤ 32 }
    ensures { result ≡ proofs.multiplier (2 ^ (32 - shift)) is_equal dual }
{
    match i64::try_from(dual >> shift) {
        Ok(mult) => signed(mult, is_equal),
        Err(_) => 0,
    }
}

/// The multiplier, or 0 where it is below 0 on a row that is at least 0.
fn signed(mult: i64, is_equal: bool) -> i64
    ensures { result ≡ proofs.signed is_equal mult }
{
    if is_equal || mult >= 0 { mult } else { 0 }
}
