//! Texts written piece by piece.

ghost use Rattle.std.specs.Prelude.{OnErr};
ghost use Rattle.std.specs.List.{flat_map};
ghost use Rattle.edge_io.specs.Counts.{Grows, Rose};
ghost use Rattle.edge_io.specs.Writing.{Wrote};
ghost use Rattle.program_text.specs.Pieces.{piece_text};

use edge_io::{Sink, WriteFault, write_number, write_whole};

/// A piece of a line.
#[derive(Clone, Copy, Debug)]
pub(crate) enum Piece<'a> {
    /// Words and spaces, as they stand.
    Words(&'a [u8]),
    /// One letter.
    Letter(u8),
    /// A number, in decimal digits.
    Number(i128),
}

/// Pieces, one behind the other.
pub(crate) fn write_pieces<K: Sink>(out: &mut K, pieces: &[Piece]) -> Result<(), WriteFault>
    ensures wrote { Wrote result (K.taken out.old) (flat_map piece_text pieces.now) (K.taken out.new) }
    ensures failed { OnErr result (Rose (K.faults out.old) (K.faults out.new)) }
    ensures faults_grow { Grows (K.faults out.old) (K.faults out.new) }
{
    for piece in pieces {
        write_piece(out, *piece)?;
    }
    Ok(())
}

fn write_piece<K: Sink>(out: &mut K, piece: Piece) -> Result<(), WriteFault>
    ensures wrote { Wrote result (K.taken out.old) (piece_text piece.entry) (K.taken out.new) }
    ensures failed { OnErr result (Rose (K.faults out.old) (K.faults out.new)) }
    ensures faults_grow { Grows (K.faults out.old) (K.faults out.new) }
{
    match piece {
        Piece::Words(words) => write_whole(out, words),
        Piece::Letter(letter) => write_whole(out, &[letter]),
        Piece::Number(n) => write_number(out, n),
    }
}
