//! The sides of an envelope.

ghost use Rattle.std.specs.Prelude.{◌≡◌, ◌≤◌, ◌*ℤ◌, neg_ℤ};
ghost use Rattle.row_model.specs.Envelopes as envelopes;
ghost use Rattle.mccormick.specs.Views.{shown_ends, shown_side};

/// The ends of a and of b.
#[derive(Clone, Copy, Debug)]
pub struct Ends {
    pub a_low: i64,
    pub a_high: i64,
    pub b_low: i64,
    pub b_high: i64,
}

/// The coefficients of w, a and b, and the constant, of a row that is at least 0.
#[derive(Clone, Copy)]
pub(crate) struct Side {
    pub(crate) of_w: i128,
    pub(crate) of_a: i128,
    pub(crate) of_b: i128,
    pub(crate) constant: i128,
}

/// A side of the envelope of `scale * w = a * b`, by its number from 1 to 4: two that bound w from below, and two from above.
pub(crate) fn side_of(side: u8, scale: i64, ends: &Ends) -> Side
    requires low { 1 ≤ side }
    requires high { side ≤ 4 }
    ensures { shown_side result ≡ envelopes.side side scale (shown_ends ends.now) }
{
    match side {
        1 => below(scale, ends.a_low, ends.b_low),
        2 => below(scale, ends.a_high, ends.b_high),
        3 => above(scale, ends.a_high, ends.b_low),
        _ => above(scale, ends.a_low, ends.b_high),
    }
}

/// `scale * w - b * a' - a * b' + a * b`, for one end a and one end b.
fn below(scale: i64, a: i64, b: i64) -> Side
    ensures w { result.of_w ≡ scale }
    ensures a { result.of_a ≡ neg_ℤ b }
    ensures b { result.of_b ≡ neg_ℤ a }
    ensures constant { result.constant ≡ a *ℤ b }
{
    Side {
        of_w: scale.into(),
        of_a: -i128::from(b),
        of_b: -i128::from(a),
        constant: product(a, b),
    }
}

/// `a * b' + b * a' - a * b - scale * w`, for one end a and one end b.
fn above(scale: i64, a: i64, b: i64) -> Side
    ensures w { result.of_w ≡ neg_ℤ scale }
    ensures a { result.of_a ≡ b }
    ensures b { result.of_b ≡ a }
    ensures constant { result.constant ≡ neg_ℤ (a *ℤ b) }
{
    Side {
        of_w: -i128::from(scale),
        of_a: b.into(),
        of_b: a.into(),
        constant: opposite_product(a, b),
    }
}

fn product(a: i64, b: i64) -> i128
    ensures { result ≡ a *ℤ b }
{
    i128::from(a) * i128::from(b)
}

fn opposite_product(a: i64, b: i64) -> i128
    ensures { result ≡ neg_ℤ (a *ℤ b) }
{
    -(i128::from(a) * i128::from(b))
}
