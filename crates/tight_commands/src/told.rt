//! The lines that `checktight` prints.

ghost use Rattle.std.specs.Prelude.{◌≡◌, OnErr};
ghost use Rattle.edge_io.specs.Counts.{Grows, Rose};
ghost use Rattle.edge_io.specs.Writing.{Wrote};
ghost use Rattle.tight_commands.specs.Lines.{accepted_tight_line, bound_text, cause_line, counts_text, refused_tight_line};

use edge_io::{Sink, WriteFault, write_whole};
use text_buffer::TextBuffer;
use text_pieces::{Piece, write_line};
use tight_checks::{TightRefusal, TightVerdict};

/// Writes the line of marks that are accepted, as one piece. It takes no memory.
pub(crate) fn write_accepted_tight<K: Sink>(
    verdict: &TightVerdict,
    out: &mut K,
) -> Result<(), WriteFault>
    ensures wrote { Wrote result (K.taken out.old) (accepted_tight_line verdict.now) (K.taken out.new) }
    ensures failed { OnErr result (Rose (K.faults out.old) (K.faults out.new)) }
{
    let mut line = TextBuffer::new();
    match put_accepted(verdict, &mut line) {
        Ok(()) => write_whole(out, line.text()),
        Err(_) => put_accepted(verdict, out),
    }
}

/// Writes the line of marks that are accepted, part by part.
fn put_accepted<K: Sink>(verdict: &TightVerdict, out: &mut K) -> Result<(), WriteFault>
    ensures wrote { Wrote result (K.taken out.old) (accepted_tight_line verdict.now) (K.taken out.new) }
    ensures failed { OnErr result (Rose (K.faults out.old) (K.faults out.new)) }
    ensures faults_grow { Grows (K.faults out.old) (K.faults out.new) }
{
    write_counts(verdict, out)?;
    write_bound(verdict.bound, out)
}

/// Writes how many marks there are of each kind.
fn write_counts<K: Sink>(verdict: &TightVerdict, out: &mut K) -> Result<(), WriteFault>
    ensures wrote { Wrote result (K.taken out.old) (counts_text verdict.now) (K.taken out.new) }
    ensures failed { OnErr result (Rose (K.faults out.old) (K.faults out.new)) }
    ensures faults_grow { Grows (K.faults out.old) (K.faults out.new) }
{
    let TightVerdict {
        tight,
        raised,
        empty,
        loose,
        ..
    } = *verdict;
    write_line(
        out,
        &[
            Piece::Words(b"accepted tight "),
            Piece::Whole(i128::from(tight)),
            Piece::Words(b" raised "),
            Piece::Whole(i128::from(raised)),
            Piece::Words(b" empty "),
            Piece::Whole(i128::from(empty)),
            Piece::Words(b" loose "),
            Piece::Whole(i128::from(loose)),
        ],
    )
}

/// Writes the bound, or that there is none, and the end of the line.
fn write_bound<K: Sink>(bound: Option<i128>, out: &mut K) -> Result<(), WriteFault>
    ensures wrote { Wrote result (K.taken out.old) (bound_text bound) (K.taken out.new) }
    ensures failed { OnErr result (Rose (K.faults out.old) (K.faults out.new)) }
    ensures faults_grow { Grows (K.faults out.old) (K.faults out.new) }
{
    match bound {
        Some(bound) => write_line(
            out,
            &[
                Piece::Words(b" bound "),
                Piece::Whole(bound),
                Piece::Words(b"\n"),
            ],
        ),
        None => write_whole(out, b" bound none\n"),
    }
}

/// Writes the line of a text of marks that is refused, as one piece. It takes no memory.
pub(crate) fn write_refused_tight<K: Sink>(
    refusal: &TightRefusal,
    out: &mut K,
) -> Result<(), WriteFault>
    ensures wrote { Wrote result (K.taken out.old) (refused_tight_line refusal.now) (K.taken out.new) }
    ensures failed { OnErr result (Rose (K.faults out.old) (K.faults out.new)) }
    ensures faults_grow { Grows (K.faults out.old) (K.faults out.new) }
{
    write_cause(refusal.number(), out)
}

/// Writes the line of a cause of this number.
fn write_cause<K: Sink>(number: u32, out: &mut K) -> Result<(), WriteFault>
    ensures wrote { Wrote result (K.taken out.old) (cause_line number) (K.taken out.new) }
    ensures failed { OnErr result (Rose (K.faults out.old) (K.faults out.new)) }
    ensures faults_grow { Grows (K.faults out.old) (K.faults out.new) }
{
    write_line(
        out,
        &[
            Piece::Words(b"refused tight "),
            Piece::Whole(i128::from(number)),
            Piece::Words(b"\n"),
        ],
    )
}
