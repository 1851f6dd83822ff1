//! The pieces of a box: the outer quarters of its coordinates.

ghost use Rattle.std.specs.Prelude.{◌≡◌, ◌<◌, ◌≤◌, ◌^◌, ◌↔◌, IsTrue, IfOk, ℤ, pos, ◌+ℤ◌, ◌-ℤ◌, ◌≤ℤ◌, unsigned_abs};
ghost use Rattle.std.specs.Int.RustNames.{int_div};
ghost use Rattle.pool_model.specs.Network.{IsLimited, net_of};
ghost use Rattle.row_model.specs.Boxes.{Box, coords};
ghost use Rattle.box_space.specs.Views.{shown_box_ends, AreEnds, AreEndsOf};
ghost use Rattle.box_squeeze.specs.Pieces as pieces;
ghost use Rattle.box_squeeze.specs.Pieces.{HasPieces, kept_of, piece_of};

use blend_network::Network;
use box_space::{BoxEnds, Form, halves, of_form};
use edge_io::Memory;
use std::alloc::Global;

/// On which side of a coordinate a piece lies.
#[derive(Clone, Copy, Debug, PartialEq, Eq)]
pub enum Side {
    /// Above the low end.
    Left,
    /// Below the high end.
    Right,
}

/// Whether a box has pieces on a coordinate: it is one of the form, and its ends are at least 4 apart.
pub(crate) fn has_pieces(net: &Network, form: Form, ends: &BoxEnds, coord: u32) -> bool
    requires limited { IsLimited (net_of net.now) }
    requires ends { AreEnds (net_of net.now) ends.now }
    ensures { IsTrue result ↔ HasPieces (net_of net.now) form (shown_box_ends ends.now) coord }
{
    of_form(net, form, coord) && is_wide(net, ends, coord)
}

/// Whether the ends of a box at a coordinate are at least 4 apart.
fn is_wide(net: &Network, ends: &BoxEnds, coord: u32) -> bool
    requires limited { IsLimited (net_of net.now) }
    requires ends { AreEnds (net_of net.now) ends.now }
    requires known { coord < coords (net_of net.now) }
    ensures { IsTrue result ↔ (((shown_box_ends ends.now).low coord +ℤ pos 4) ≤ℤ (shown_box_ends ends.now).high coord) }
{
    let (low, high) = ends_at(net, ends, coord);
    are_wide(low, high)
}

/// Whether two ends are at least 4 apart.
fn are_wide(low: i64, high: i64) -> bool
    requires low { unsigned_abs low ≤ 10 ^ 12 }
    requires high { unsigned_abs high ≤ 10 ^ 12 }
    ensures { IsTrue result ↔ ((low +ℤ pos 4) ≤ℤ high) }
{
    low + 4 <= high
}

/// A piece of a box and what is kept when it is cut off.
#[derive(Drop)]
pub(crate) struct Parts {
    pub(crate) cut: i64,
    pub(crate) piece: BoxEnds,
    pub(crate) kept: BoxEnds,
}

/// The piece of a side of a box on a coordinate, and what is kept when it is cut off.
pub(crate) fn parts_at(
    alloc: Global,
    net: &Network,
    form: Form,
    ends: &BoxEnds,
    coord: u32,
    side: Side,
) -> Result<Parts, Memory>
    requires limited { IsLimited (net_of net.now) }
    requires ends { AreEnds (net_of net.now) ends.now }
    requires pieces { HasPieces (net_of net.now) form (shown_box_ends ends.now) coord }
    ensures cut { (b : Box) → AreEndsOf (net_of net.now) b ends.now → IfOk result (λ p. p.cut ≡ pieces.cut_at b side coord) }
    ensures piece { (b : Box) → AreEndsOf (net_of net.now) b ends.now → IfOk result (λ p. AreEndsOf (net_of net.now) (piece_of b side coord) p.piece) }
    ensures kept { (b : Box) → AreEndsOf (net_of net.now) b ends.now → IfOk result (λ p. AreEndsOf (net_of net.now) (kept_of b side coord) p.kept) }
{
    let cut = cut_at(net, ends, coord, side);
    let (left, right) = halves(alloc, ends, coord, cut)?;
    match side {
        Side::Left => Ok(Parts {
            cut,
            piece: left,
            kept: right,
        }),
        Side::Right => Ok(Parts {
            cut,
            piece: right,
            kept: left,
        }),
    }
}

/// Where the piece of a side of a box is cut off on a coordinate.
fn cut_at(net: &Network, ends: &BoxEnds, coord: u32, side: Side) -> i64
    requires limited { IsLimited (net_of net.now) }
    requires ends { AreEnds (net_of net.now) ends.now }
    requires known { coord < coords (net_of net.now) }
    ensures { result ≡ pieces.cut_at (shown_box_ends ends.now) side coord }
{
    let (low, high) = ends_at(net, ends, coord);
    match side {
        Side::Left => above(low, high),
        Side::Right => below(low, high),
    }
}

/// A quarter of the way up from a low end to a high one.
fn above(low: i64, high: i64) -> i64
    requires order { low ≤ℤ high }
    requires low { unsigned_abs low ≤ 10 ^ 12 }
    requires high { unsigned_abs high ≤ 10 ^ 12 }
    ensures { result ≡ low +ℤ int_div (high -ℤ low) (pos 4) }
{
    low + quarter(high - low)
}

/// A quarter of the way down from a high end to a low one.
fn below(low: i64, high: i64) -> i64
    requires order { low ≤ℤ high }
    requires low { unsigned_abs low ≤ 10 ^ 12 }
    requires high { unsigned_abs high ≤ 10 ^ 12 }
    ensures { result ≡ high -ℤ int_div (high -ℤ low) (pos 4) }
{
    high - quarter(high - low)
}

/// A quarter of a width, rounded down.
fn quarter(width: i64) -> i64
    requires { pos 0 ≤ℤ width }
    ensures quarter { result ≡ int_div width (pos 4) }
    ensures least { pos 0 ≤ℤ result }
    ensures most { result ≤ℤ width }
{
    width / 4
}

/// The ends of a box at a coordinate.
fn ends_at(net: &Network, ends: &BoxEnds, coord: u32) -> (i64, i64)
    requires limited { IsLimited (net_of net.now) }
    requires ends { AreEnds (net_of net.now) ends.now }
    requires known { coord < coords (net_of net.now) }
    ensures low { result.0 ≡ (shown_box_ends ends.now).low coord }
    ensures high { result.1 ≡ (shown_box_ends ends.now).high coord }
    ensures order { result.0 ≤ℤ result.1 }
    ensures least { unsigned_abs result.0 ≤ 10 ^ 12 }
    ensures most { unsigned_abs result.1 ≤ 10 ^ 12 }
{
    let view = ends.view();
    (view.low_at(coord), view.high_at(coord))
}
