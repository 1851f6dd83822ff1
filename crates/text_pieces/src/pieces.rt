//! Lines, written piece by piece.

ghost use Rattle.std.specs.Prelude.{OnErr};
ghost use Rattle.std.specs.List.{flat_map};
ghost use Rattle.edge_io.specs.Counts.{Grows, Rose};
ghost use Rattle.edge_io.specs.Writing.{Wrote};
ghost use Rattle.text_pieces.specs.Pieces.{piece_text};

use crate::decimals::{write_column, write_decimal};
use edge_io::{Sink, WriteFault, write_number, write_whole};
use text_buffer::TextBuffer;

/// A piece of a line.
#[derive(Clone, Copy, Debug)]
pub enum Piece<'a> {
    /// Words and spaces, as they stand.
    Words(&'a [u8]),
    /// A whole number.
    Whole(i128),
    /// A number of millionths, in decimals.
    Decimal(i128),
    /// The same, right in a column.
    Column(i128),
}

/// Pieces, handed on as one.
pub fn write_line<K: Sink>(out: &mut K, pieces: &[Piece]) -> Result<(), WriteFault>
    ensures wrote { Wrote result (K.taken out.old) (flat_map piece_text pieces.now) (K.taken out.new) }
    ensures failed { OnErr result (Rose (K.faults out.old) (K.faults out.new)) }
    ensures faults_grow { Grows (K.faults out.old) (K.faults out.new) }
{
    let mut line = TextBuffer::new();
    match write_pieces(&mut line, pieces) {
        Ok(()) => write_whole(out, line.text()),
        Err(_) => write_pieces(out, pieces),
    }
}

/// Pieces, one behind the other.
fn write_pieces<K: Sink>(out: &mut K, pieces: &[Piece]) -> Result<(), WriteFault>
    ensures wrote { Wrote result (K.taken out.old) (flat_map piece_text pieces.now) (K.taken out.new) }
    ensures failed { OnErr result (Rose (K.faults out.old) (K.faults out.new)) }
    ensures faults_grow { Grows (K.faults out.old) (K.faults out.new) }
{
    for piece in pieces {
        write_piece(out, *piece)?;
    }
    Ok(())
}

fn write_piece<K: Sink>(out: &mut K, piece: Piece) -> Result<(), WriteFault>
    ensures wrote { Wrote result (K.taken out.old) (piece_text piece.entry) (K.taken out.new) }
    ensures failed { OnErr result (Rose (K.faults out.old) (K.faults out.new)) }
    ensures faults_grow { Grows (K.faults out.old) (K.faults out.new) }
{
    match piece {
        Piece::Words(words) => write_whole(out, words),
        Piece::Whole(n) => write_number(out, n),
        Piece::Decimal(m) => write_decimal(out, m),
        Piece::Column(m) => write_column(out, m),
    }
}
