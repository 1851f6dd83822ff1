//! A side of an envelope, written into a row.

ghost use Rattle.std.specs.Prelude.{◌≡◌, ◌≢◌, ℕ, ◌<◌, ◌≤◌, []};
ghost use Rattle.row_model.specs.Envelopes as envelopes;
ghost use Rattle.box_space.specs.Lines.{terms_from};
ghost use Rattle.mccormick.specs.Views.{shown_ends};
ghost use Rattle.mccormick.specs.Coefs.{side_coef, three_coefs};

use crate::sides::{Ends, side_of};
use box_space::{LinRow, Term};

/// Writes a side of the envelope of `scale * w = a * b` in place of what stood in the row, where `a`, `b` and `w` are the
/// numbers of three variables: terms by rising variable, and no term whose coefficient is 0.
pub fn envelope(side: u8, scale: i64, a: u32, b: u32, w: u32, ends: &Ends, row: &mut LinRow)
    requires low { 1 ≤ side }
    requires high { side ≤ 4 }
    requires a_b { a ≢ b }
    requires a_w { a ≢ w }
    requires b_w { b ≢ w }
    // Promise: Each side of an envelope is the definition's
    ensures terms { (n : ℕ) → a < n → b < n → w < n → row.new.terms ≡ terms_from 0 (side_coef a b w (envelopes.side side scale (shown_ends ends.now))) n }
    // Promise: Each side of an envelope is the definition's
    ensures constant { row.new.constant ≡ (envelopes.side side scale (shown_ends ends.now)).constant }
{
    let side = side_of(side, scale, ends);
    row.clear();
    row.set_constant(side.constant);
    let of_a = Term {
        var: a,
        coef: side.of_a,
    };
    let of_b = Term {
        var: b,
        coef: side.of_b,
    };
    let of_w = Term {
        var: w,
        coef: side.of_w,
    };
    if a < b {
        add_between(of_a, of_b, of_w, row);
    } else {
        add_between(of_b, of_a, of_w, row);
    }
}

/// Adds two rising terms to an empty row, and a third where it belongs.
fn add_between(first: Term, second: Term, other: Term, row: &mut LinRow)
    requires empty { row.old.terms ≡ [] }
    requires rising { first.var < second.var }
    requires not_first { first.var ≢ other.var }
    requires not_second { second.var ≢ other.var }
    ensures terms { (n : ℕ) → first.var < n → second.var < n → other.var < n → row.new.terms ≡ terms_from 0 (three_coefs first second other) n }
    ensures constant { row.new.constant ≡ row.old.constant }
{
    if other.var < first.var {
        add_three(other, first, second, row);
    } else if other.var < second.var {
        add_three(first, other, second, row);
    } else {
        add_three(first, second, other, row);
    }
}

/// Adds three rising terms to an empty row.
fn add_three(x: Term, y: Term, z: Term, row: &mut LinRow)
    requires empty { row.old.terms ≡ [] }
    requires first { x.var < y.var }
    requires second { y.var < z.var }
    ensures terms { (n : ℕ) → z.var < n → row.new.terms ≡ terms_from 0 (three_coefs x y z) n }
    ensures constant { row.new.constant ≡ row.old.constant }
{
    row.add_term(x.var, x.coef);
    row.add_term(y.var, y.coef);
    row.add_term(z.var, z.coef);
}
