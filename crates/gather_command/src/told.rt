//! What came of answers, written.

ghost use Rattle.std.specs.Prelude.{◌≡◌, [], ◌∷◌, length, codes, pos, OnErr};
ghost use Rattle.std.specs.List.{flat_map};
ghost use Rattle.std.specs.Fmt.{signed_decimal};
ghost use Rattle.edge_io.specs.Counts.{Grows, Rose};
ghost use Rattle.edge_io.specs.Writing.{Wrote};
ghost use Rattle.pool_model.specs.Network.{Net};
ghost use Rattle.row_model.specs.Trees.{tree_bound};
ghost use Rattle.box_tree.specs.Kept.{IsOf, searched_of};
ghost use Rattle.box_tree.specs.EntryFaults as faults;
ghost use Rattle.text_pieces.specs.Pieces.{joined, piece_text};
ghost use Rattle.gather_command.specs.Told.{bound_text, line_text, taken_line};
ghost use Rattle.gather_command.specs.Brought.{text_of};

use box_tree::EntryFault;
use edge_io::{Sink, WriteFault};
use gathered_run::{Gathered, Line};
use text_pieces::{Piece, write_line};
use work_units::{Desk, Judged};

/// Writes what came of answers: a line for each, and for each file that spells none, and one of the tree that they leave. It takes no memory.
///
/// `WriteFault` comes only where the sink's count of faults rose; the sink has taken a front of the text then.
pub(crate) fn write_gathered<K: Sink>(gathered: &Gathered, out: &mut K) -> Result<(), WriteFault>
    ensures wrote { (n : Net) → IsOf n gathered.now.desk.tree → Wrote result (K.taken out.old) (text_of n gathered.now) (K.taken out.new) }
    ensures failed { OnErr result (Rose (K.faults out.old) (K.faults out.new)) }
{
    write_lines(gathered.lines.as_slice(), out)?;
    write_desk(&gathered.desk, out)
}

/// Writes lines, one after another.
fn write_lines<K: Sink>(lines: &[Line], out: &mut K) -> Result<(), WriteFault>
    ensures wrote { Wrote result (K.taken out.old) (flat_map line_text lines.now) (K.taken out.new) }
    ensures failed { OnErr result (Rose (K.faults out.old) (K.faults out.new)) }
    ensures faults_grow { Grows (K.faults out.old) (K.faults out.new) }
{
    for line in lines {
        write_one(line, out)?;
    }
    Ok(())
}

/// Writes the line of an answer, or of a file that spells none.
fn write_one<K: Sink>(line: &Line, out: &mut K) -> Result<(), WriteFault>
    ensures wrote { Wrote result (K.taken out.old) (line_text line.now) (K.taken out.new) }
    ensures failed { OnErr result (Rose (K.faults out.old) (K.faults out.new)) }
    ensures faults_grow { Grows (K.faults out.old) (K.faults out.new) }
{
    match line {
        Line::Answer { number, judged } => write_judged(*number, judged, out),
        Line::Faulty { file, line } => write_faulty(*file, *line, out),
    }
}

/// Writes the line of a file that spells no answers.
fn write_faulty<K: Sink>(file: usize, line: u64, out: &mut K) -> Result<(), WriteFault>
    ensures wrote { Wrote result (K.taken out.old) (line_text (Line.Faulty file line)) (K.taken out.new) }
    ensures failed { OnErr result (Rose (K.faults out.old) (K.faults out.new)) }
    ensures faults_grow { Grows (K.faults out.old) (K.faults out.new) }
{
    write_line(
        out,
        &[
            Piece::Words(b"file "),
            Piece::Whole(file as i128),
            Piece::Words(b" text "),
            Piece::Whole(i128::from(line)),
            Piece::Words(b"\n"),
        ],
    )
}

/// Writes the line of an answer.
fn write_judged<K: Sink>(number: u32, judged: &Judged, out: &mut K) -> Result<(), WriteFault>
    ensures wrote { Wrote result (K.taken out.old) (line_text (Line.Answer number judged.now)) (K.taken out.new) }
    ensures failed { OnErr result (Rose (K.faults out.old) (K.faults out.new)) }
    ensures faults_grow { Grows (K.faults out.old) (K.faults out.new) }
{
    match judged {
        Judged::Fits => write_answer(number, b" taken\n", out),
        Judged::Stranger => write_answer(number, b" stranger\n", out),
        Judged::Repeated => write_answer(number, b" repeated\n", out),
        Judged::Wrong => write_answer(number, b" wrong\n", out),
        Judged::Refused(fault) => write_refused(number, fault, out),
    }
}

/// Writes the line of an answer that is told in a word.
fn write_answer<K: Sink>(number: u32, word: &[u8], out: &mut K) -> Result<(), WriteFault>
    ensures wrote { Wrote result (K.taken out.old) (joined (codes "answer " ∷ signed_decimal (pos number) ∷ word.now ∷ [])) (K.taken out.new) }
    ensures failed { OnErr result (Rose (K.faults out.old) (K.faults out.new)) }
    ensures faults_grow { Grows (K.faults out.old) (K.faults out.new) }
{
    write_line(
        out,
        &[
            Piece::Words(b"answer "),
            Piece::Whole(i128::from(number)),
            Piece::Words(word),
        ],
    )
}

/// Writes the line of an answer that the tree doesn't take.
fn write_refused<K: Sink>(number: u32, fault: &EntryFault, out: &mut K) -> Result<(), WriteFault>
    ensures wrote { Wrote result (K.taken out.old) (line_text (Line.Answer number (Judged.Refused fault.now))) (K.taken out.new) }
    ensures failed { OnErr result (Rose (K.faults out.old) (K.faults out.new)) }
    ensures faults_grow { Grows (K.faults out.old) (K.faults out.new) }
{
    write_line(
        out,
        &[
            Piece::Words(b"answer "),
            Piece::Whole(i128::from(number)),
            Piece::Words(b" refused "),
            Piece::Whole(i128::from(number_of(fault))),
            Piece::Words(b"\n"),
        ],
    )
}

/// The number of a fault, in the order in which they are looked for.
fn number_of(fault: &EntryFault) -> u32
    ensures { result ≡ faults.number fault.now }
{
    match fault {
        EntryFault::NotALeaf => 1,
        EntryFault::BadCoord => 2,
        EntryFault::CutOutside => 3,
        EntryFault::TooManySplits => 4,
        EntryFault::BadProof(_) => 5,
        EntryFault::BadPlan(_) => 6,
        EntryFault::PlanNotBetter => 7,
        EntryFault::RootLate => 8,
        EntryFault::Memory => 9,
    }
}

/// Writes how many answers were taken, and splits and bound of the tree then.
fn write_desk<K: Sink>(desk: &Desk, out: &mut K) -> Result<(), WriteFault>
    ensures wrote { (n : Net) → IsOf n desk.now.tree
        → Wrote result (K.taken out.old) (taken_line (length desk.now.taken) (length desk.now.tree.kept.splits.list) (tree_bound n (searched_of desk.now.tree.kept).tree)) (K.taken out.new) }
    ensures failed { OnErr result (Rose (K.faults out.old) (K.faults out.new)) }
{
    let tree = desk.tree();
    write_taken(desk.taken().len(), tree.splits().len(), tree.bound(), out)
}

/// Writes the last line.
fn write_taken<K: Sink>(
    taken: usize,
    splits: usize,
    bound: Option<i128>,
    out: &mut K,
) -> Result<(), WriteFault>
    ensures wrote { Wrote result (K.taken out.old) (taken_line taken splits bound) (K.taken out.new) }
    ensures failed { OnErr result (Rose (K.faults out.old) (K.faults out.new)) }
{
    write_line(
        out,
        &[
            Piece::Words(b"taken "),
            Piece::Whole(taken as i128),
            Piece::Words(b" splits "),
            Piece::Whole(splits as i128),
            Piece::Words(b" bound "),
            bound_piece(bound),
            Piece::Words(b"\n"),
        ],
    )
}

/// A bound, or the word for none.
fn bound_piece(bound: Option<i128>) -> Piece<'static>
    ensures { piece_text result ≡ bound_text bound }
{
    match bound {
        Some(bound) => Piece::Whole(bound),
        None => Piece::Words(b"none"),
    }
}
