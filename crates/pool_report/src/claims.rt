//! The lines of what a certificate claims, in money.

ghost use Rattle.std.specs.Prelude.{◌<◌, ◌≤◌, ◌^◌, ◌*◌, OnErr};
ghost use Rattle.edge_io.specs.Counts.{Grows, Rose};
ghost use Rattle.edge_io.specs.Writing.{Wrote};
ghost use Rattle.pool_report.specs.Lines.{bound_lines, gap_lines};
ghost use Rattle.text_pieces.specs.Rounding.{rounded_up as up};
ghost use Rattle.std.specs.Prelude.{◌≡◌};

use edge_io::{Sink, WriteFault};
use text_pieces::{Piece, rounded_down, rounded_up, write_line};

/// How many picos a millionth of money has.
const MILLIONTH: u128 = 1_000_000;

/// The kind, the cost over its base, the bound and the gap over that base.
pub(crate) fn write_gap<K: Sink>(
    cost: i128,
    base: u64,
    bound: i128,
    gap: i128,
    out: &mut K,
) -> Result<(), WriteFault>
    requires { 0 < base }
    ensures wrote { Wrote result (K.taken out.old) (gap_lines cost base bound gap) (K.taken out.new) }
    ensures failed { OnErr result (Rose (K.faults out.old) (K.faults out.new)) }
    ensures faults_grow { Grows (K.faults out.old) (K.faults out.new) }
{
    write_line(
        out,
        &[
            Piece::Words(b"kind gap\ncost "),
            Piece::Decimal(money_up(cost, base)),
            Piece::Words(b"\nbound "),
            Piece::Decimal(rounded_down(bound, MILLIONTH)),
            Piece::Words(b"\ngap "),
            Piece::Decimal(money_up(gap, base)),
            Piece::Words(b"\n"),
        ],
    )
}

/// Millionths of money of so many picos over a base, rounded up.
fn money_up(picos: i128, base: u64) -> i128
    requires { 0 < base }
    ensures { result ≡ up picos (base * 10 ^ 6) }
{
    rounded_up(picos, u128::from(base) * MILLIONTH)
}

/// The kind and the bound.
pub(crate) fn write_bound<K: Sink>(bound: i128, out: &mut K) -> Result<(), WriteFault>
    ensures wrote { Wrote result (K.taken out.old) (bound_lines bound) (K.taken out.new) }
    ensures failed { OnErr result (Rose (K.faults out.old) (K.faults out.new)) }
    ensures faults_grow { Grows (K.faults out.old) (K.faults out.new) }
{
    write_line(
        out,
        &[
            Piece::Words(b"kind bound\nbound "),
            Piece::Decimal(rounded_down(bound, MILLIONTH)),
            Piece::Words(b"\n"),
        ],
    )
}
