//! Marks, written line by line. Lines are handed on as one piece, or by halves where that is too long.

ghost use Rattle.std.specs.Prelude.{◌≡◌, [], ◌∷◌, ◌++◌, map, OnErr, codes, decimal};
ghost use Rattle.std.specs.List.{flat_map};
ghost use Rattle.edge_io.specs.Counts.{Grows, Rose};
ghost use Rattle.edge_io.specs.Writing.{Wrote};
ghost use Rattle.exact_num.specs.Views.{shown_frac};
ghost use Rattle.box_space.specs.Views.{shown_proof};
ghost use Rattle.cert_writing.specs.Text.{field};
ghost use Rattle.tight_texts.specs.Texts.{bound_line, form_line, fraction_fields, head_lines, mark_fields, mark_line, mark_lines, mark_word, marks_text, operation_word, point_fields, proof_fields, reason_fields, wide_fields};
ghost use Rattle.tight_texts.specs.Views.{shown_leaf, shown_mark, shown_marks, shown_reason, shown_values, shown_wide};

use crate::marks::{LeafMark, TightText};
use box_space::{Form, Proof};
use cert_writing::{Text, write_counted, write_fields, write_line};
use edge_io::{Sink, WriteFault, write_whole};
use exact_num::Frac;
use exact_run::{Operation, TooWide};
use leaf_marks::{Mark, Reason};
use relaxation_points::RelaxPoint;

/// The fields of a point.
fn write_point<K: Sink>(out: &mut K, point: &RelaxPoint) -> Result<(), WriteFault>
    ensures wrote { Wrote result (K.taken out.old) (flat_map field (point_fields (shown_values point.now))) (K.taken out.new) }
    ensures failed { OnErr result (Rose (K.faults out.old) (K.faults out.new)) }
    ensures faults_grow { Grows (K.faults out.old) (K.faults out.new) }
{
    let values = point.values.as_slice();
    write_fields(out, &[point.base, values.len() as u64])?;
    write_fields(out, values)
}

/// The fields of a fraction.
fn write_fraction<K: Sink>(out: &mut K, fraction: Frac) -> Result<(), WriteFault>
    ensures wrote { Wrote result (K.taken out.old) (flat_map field (fraction_fields (shown_frac fraction))) (K.taken out.new) }
    ensures failed { OnErr result (Rose (K.faults out.old) (K.faults out.new)) }
    ensures faults_grow { Grows (K.faults out.old) (K.faults out.new) }
{
    write_fields(out, &[fraction.num(), fraction.den()])
}

/// The number of the reason, and that of the operation.
fn write_operation<K: Sink>(out: &mut K, operation: Operation) -> Result<(), WriteFault>
    ensures wrote { Wrote result (K.taken out.old) (flat_map field (codes "2" ∷ operation_word operation ∷ [])) (K.taken out.new) }
    ensures failed { OnErr result (Rose (K.faults out.old) (K.faults out.new)) }
    ensures faults_grow { Grows (K.faults out.old) (K.faults out.new) }
{
    match operation {
        Operation::Add => write_whole(out, b" 2 1"),
        Operation::Sub => write_whole(out, b" 2 2"),
        Operation::Mul => write_whole(out, b" 2 3"),
        Operation::Div => write_whole(out, b" 2 4"),
    }
}

/// The fields of an operation that is too wide.
fn write_wide<K: Sink>(out: &mut K, wide: &TooWide) -> Result<(), WriteFault>
    ensures wrote { Wrote result (K.taken out.old) (flat_map field (codes "2" ∷ wide_fields (shown_wide wide.now))) (K.taken out.new) }
    ensures failed { OnErr result (Rose (K.faults out.old) (K.faults out.new)) }
    ensures faults_grow { Grows (K.faults out.old) (K.faults out.new) }
{
    write_operation(out, wide.operation)?;
    write_fraction(out, wide.left)?;
    write_fraction(out, wide.right)
}

/// The fields of a number and a fraction that are too coarse.
fn write_coarse<K: Sink>(out: &mut K, times: u64, fraction: Frac) -> Result<(), WriteFault>
    ensures wrote { Wrote result (K.taken out.old) (flat_map field (codes "3" ∷ decimal times ∷ fraction_fields (shown_frac fraction))) (K.taken out.new) }
    ensures failed { OnErr result (Rose (K.faults out.old) (K.faults out.new)) }
    ensures faults_grow { Grows (K.faults out.old) (K.faults out.new) }
{
    write_whole(out, b" 3")?;
    write_fields(out, &[times])?;
    write_fraction(out, fraction)
}

/// The fields of a proof that is too heavy.
fn write_heavy_proof<K: Sink>(out: &mut K, proof: &Proof) -> Result<(), WriteFault>
    ensures wrote { Wrote result (K.taken out.old) (flat_map field (codes "4" ∷ proof_fields (shown_proof proof.now))) (K.taken out.new) }
    ensures failed { OnErr result (Rose (K.faults out.old) (K.faults out.new)) }
    ensures faults_grow { Grows (K.faults out.old) (K.faults out.new) }
{
    write_whole(out, b" 4")?;
    proof.put(out)
}

/// The fields of a point that is too heavy.
fn write_heavy_point<K: Sink>(out: &mut K, point: &RelaxPoint) -> Result<(), WriteFault>
    ensures wrote { Wrote result (K.taken out.old) (flat_map field (codes "5" ∷ point_fields (shown_values point.now))) (K.taken out.new) }
    ensures failed { OnErr result (Rose (K.faults out.old) (K.faults out.new)) }
    ensures faults_grow { Grows (K.faults out.old) (K.faults out.new) }
{
    write_whole(out, b" 5")?;
    write_point(out, point)
}

/// The fields of a run that goes on.
fn write_pivots<K: Sink>(out: &mut K, count: u32) -> Result<(), WriteFault>
    ensures wrote { Wrote result (K.taken out.old) (flat_map field (codes "1" ∷ decimal count ∷ [])) (K.taken out.new) }
    ensures failed { OnErr result (Rose (K.faults out.old) (K.faults out.new)) }
    ensures faults_grow { Grows (K.faults out.old) (K.faults out.new) }
{
    write_whole(out, b" 1")?;
    write_fields(out, &[count])
}

/// The fields of a reason.
fn write_reason<K: Sink>(out: &mut K, reason: &Reason) -> Result<(), WriteFault>
    ensures wrote { Wrote result (K.taken out.old) (flat_map field (reason_fields (shown_reason reason.now))) (K.taken out.new) }
    ensures failed { OnErr result (Rose (K.faults out.old) (K.faults out.new)) }
    ensures faults_grow { Grows (K.faults out.old) (K.faults out.new) }
{
    match reason {
        Reason::Pivots(count) => write_pivots(out, *count),
        Reason::Wide(wide) => write_wide(out, wide),
        Reason::Coarse(times, fraction) => write_coarse(out, *times, *fraction),
        Reason::HeavyProof(proof) => write_heavy_proof(out, proof),
        Reason::HeavyPoint(point) => write_heavy_point(out, point),
    }
}

/// The fields of a proof and a point.
fn write_raised<K: Sink>(out: &mut K, proof: &Proof, point: &RelaxPoint) -> Result<(), WriteFault>
    ensures wrote { Wrote result (K.taken out.old) (flat_map field (proof_fields (shown_proof proof.now) ++ point_fields (shown_values point.now))) (K.taken out.new) }
    ensures failed { OnErr result (Rose (K.faults out.old) (K.faults out.new)) }
    ensures faults_grow { Grows (K.faults out.old) (K.faults out.new) }
{
    proof.put(out)?;
    write_point(out, point)
}

/// What a mark carries.
fn write_carried<K: Sink>(out: &mut K, mark: &Mark) -> Result<(), WriteFault>
    ensures wrote { Wrote result (K.taken out.old) (flat_map field (mark_fields (shown_mark mark.now))) (K.taken out.new) }
    ensures failed { OnErr result (Rose (K.faults out.old) (K.faults out.new)) }
    ensures faults_grow { Grows (K.faults out.old) (K.faults out.new) }
{
    match mark {
        Mark::Tight(point) => write_point(out, point),
        Mark::Raised(proof, point) => write_raised(out, proof, point),
        Mark::Empty(proof) => proof.put(out),
        Mark::Loose(reason) => write_reason(out, reason),
    }
}

/// The word of a mark.
fn word_of(mark: &Mark) -> &'static [u8]
    ensures { result.now ≡ mark_word (shown_mark mark.now) }
{
    match mark {
        Mark::Tight(_) => b"tight",
        Mark::Raised(..) => b"raised",
        Mark::Empty(_) => b"empty",
        Mark::Loose(_) => b"loose",
    }
}

/// The line of a mark.
impl Text for LeafMark {
    ghost text = { λ m. mark_line (shown_leaf m) };

    fn put<K: Sink>(&self, out: &mut K) -> Result<(), WriteFault> {
        write_whole(out, word_of(&self.mark))?;
        write_fields(out, &[self.node])?;
        write_carried(out, &self.mark)?;
        write_whole(out, b"\n")
    }
}

/// The count of the marks, and their lines.
fn write_mark_lines<K: Sink>(out: &mut K, marks: &[LeafMark]) -> Result<(), WriteFault>
    ensures wrote { Wrote result (K.taken out.old) (mark_lines (map shown_leaf marks.now)) (K.taken out.new) }
    ensures failed { OnErr result (Rose (K.faults out.old) (K.faults out.new)) }
    ensures faults_grow { Grows (K.faults out.old) (K.faults out.new) }
{
    write_counted(out, b"leaves", marks)
}

/// The line of the form.
fn write_form<K: Sink>(out: &mut K, form: Form) -> Result<(), WriteFault>
    ensures wrote { Wrote result (K.taken out.old) (form_line form) (K.taken out.new) }
    ensures failed { OnErr result (Rose (K.faults out.old) (K.faults out.new)) }
    ensures faults_grow { Grows (K.faults out.old) (K.faults out.new) }
{
    match form {
        Form::P => write_whole(out, b"form p\n"),
        Form::Q => write_whole(out, b"form q\n"),
        Form::Pq => write_whole(out, b"form pq\n"),
    }
}

/// The line of the bound.
fn write_bound<K: Sink>(out: &mut K, bound: Option<i128>) -> Result<(), WriteFault>
    ensures wrote { Wrote result (K.taken out.old) (bound_line bound) (K.taken out.new) }
    ensures failed { OnErr result (Rose (K.faults out.old) (K.faults out.new)) }
    ensures faults_grow { Grows (K.faults out.old) (K.faults out.new) }
{
    match bound {
        None => write_whole(out, b"bound none\n"),
        Some(bound) => write_line(out, b"bound", &[bound]),
    }
}

/// The first lines.
fn write_head<K: Sink>(out: &mut K, form: Form, pivots: u32) -> Result<(), WriteFault>
    ensures wrote { Wrote result (K.taken out.old) (head_lines form pivots) (K.taken out.new) }
    ensures failed { OnErr result (Rose (K.faults out.old) (K.faults out.new)) }
    ensures faults_grow { Grows (K.faults out.old) (K.faults out.new) }
{
    write_whole(out, b"pooltight 1\n")?;
    write_form(out, form)?;
    write_line(out, b"pivots", &[pivots])
}

/// Writes the text of marks. It takes no memory.
///
/// `WriteFault` comes only where the sink's count of faults rose; the sink has taken a front of the text then.
pub fn write_tight<K: Sink>(text: &TightText, out: &mut K) -> Result<(), WriteFault>
    // Promise: Marks are written as their text, or a front of it where the sink fails
    ensures wrote { Wrote result (K.taken out.old) (marks_text (shown_marks text.now)) (K.taken out.new) }
    ensures failed { OnErr result (Rose (K.faults out.old) (K.faults out.new)) }
    ensures faults_grow { Grows (K.faults out.old) (K.faults out.new) }
{
    write_head(out, text.form, text.pivots)?;
    write_mark_lines(out, text.marks.as_slice())?;
    write_bound(out, text.bound)?;
    write_whole(out, b"end\n")
}
