//! Marks, read from left to right, line by line.
//!
//! A reader stops with `Stop::Text` where its line is faulty. The source is a text in memory, which is never broken.

ghost use Rattle.std.specs.Prelude.{◌≡◌, ◌+◌, ◌≤◌, map, pos, ◌≤ℤ◌, unsigned_abs, false, IfOk, IfErr};
ghost use Rattle.exact_num.specs.Fraction.{IsShort};
ghost use Rattle.exact_num.specs.Views.{shown_frac};
ghost use Rattle.box_space.specs.Views.{shown_part, shown_proof};
ghost use Rattle.cert_text.specs.Reading.{Gives, each_at, ends_before, finished, i128_at, whole};
ghost use Rattle.cert_format.specs.Reading.{part_at};
ghost use Rattle.tight_texts.specs.Texts.{AreMarks, Marks, marks_text};
ghost use Rattle.tight_texts.specs.Reading.{bound_at, bound_word_at, carried_at, cause_at, count_ends, form_at, form_word_at, fraction_at, kind_at, leaf_at, leaves_at, marks_at, operation_at, pivots_at, point_at, proof_at, reason_at, told_at, wide_at, num_at, den_at};
ghost use Rattle.tight_texts.specs.Views.{place_of, shown_leaf, shown_mark, shown_marks, shown_reason, shown_values, shown_wide};
ghost use Rattle.cert_text.specs.Results.{Closes, Comes, IsFaultIn, IsReadAs, Yields};
ghost use Rattle.tight_texts.specs.Results.{IsLowestOf, Took, over};

use crate::kinds::{MarkKind, ReasonKind};
use crate::marks::{LeafMark, TightText};
use box_space::{Form, Part, Proof};
use cert_format::reading::part;
use cert_text::{
    Ends, Halt, ReadFault, SliceSource, Source, Stop, TextFault, i128_then, number, u32_then,
    u64_then, word,
};
use exact_num::Frac;
use exact_run::{Operation, TooWide};
use leaf_marks::{Mark, Reason};
use relaxation_points::RelaxPoint;
use std::alloc::Global;

/// Takes a word where the source goes on with it. Whether it did.
fn take(src: &mut SliceSource, name: &[u8]) -> bool
    ensures { Took result name.now (place_of src.old) (place_of src.new) }
{
    if src.rest().starts_with(name) {
        matches!(word(src, name), Ok(()))
    } else {
        false
    }
}

/// The word of a form, and the end of its line.
fn form_word(src: &mut SliceSource) -> Result<Form, Stop>
    ensures { Gives (λ x. x) result (place_of src.new) false (form_word_at (place_of src.old)) }
{
    if take(src, b"p\n") {
        Ok(Form::P)
    } else if take(src, b"q\n") {
        Ok(Form::Q)
    } else if take(src, b"pq\n") {
        Ok(Form::Pq)
    } else {
        Err(Stop::Text(TextFault { line: src.line() }))
    }
}

/// The line of the form.
#[tactic(auto, unfolding(crate::specs::Reading::form_at))]
fn form(src: &mut SliceSource) -> Result<Form, Stop>
    ensures { Gives (λ x. x) result (place_of src.new) false (form_at (place_of src.old)) }
{
    word(src, b"form ")?;
    form_word(src)
}

/// The line of the pivots.
#[tactic(auto, unfolding(crate::specs::Reading::pivots_at))]
fn pivots(src: &mut SliceSource) -> Result<u32, Stop>
    ensures { Gives (λ x. x) result (place_of src.new) false (pivots_at (place_of src.old)) }
{
    word(src, b"pivots ")?;
    u32_then(src, Ends::Line)
}

/// The word of a kind of mark.
fn mark_kind(src: &mut SliceSource) -> Result<MarkKind, Stop>
    ensures { Gives (λ x. x) result (place_of src.new) false (kind_at (place_of src.old)) }
{
    if take(src, b"tight ") {
        Ok(MarkKind::Tight)
    } else if take(src, b"raised ") {
        Ok(MarkKind::Raised)
    } else if take(src, b"empty ") {
        Ok(MarkKind::Empty)
    } else if take(src, b"loose ") {
        Ok(MarkKind::Loose)
    } else {
        Err(Stop::Text(TextFault { line: src.line() }))
    }
}

/// The number of a kind of reason.
fn reason_kind(src: &mut SliceSource) -> Result<ReasonKind, Stop>
    ensures { Gives (λ x. x) result (place_of src.new) false (cause_at (place_of src.old)) }
{
    if take(src, b"1 ") {
        Ok(ReasonKind::Pivots)
    } else if take(src, b"2 ") {
        Ok(ReasonKind::Wide)
    } else if take(src, b"3 ") {
        Ok(ReasonKind::Coarse)
    } else if take(src, b"4 ") {
        Ok(ReasonKind::HeavyProof)
    } else if take(src, b"5 ") {
        Ok(ReasonKind::HeavyPoint)
    } else {
        Err(Stop::Text(TextFault { line: src.line() }))
    }
}

/// The number of an operation.
fn operation(src: &mut SliceSource) -> Result<Operation, Stop>
    ensures { Gives (λ x. x) result (place_of src.new) false (operation_at (place_of src.old)) }
{
    if take(src, b"1 ") {
        Ok(Operation::Add)
    } else if take(src, b"2 ") {
        Ok(Operation::Sub)
    } else if take(src, b"3 ") {
        Ok(Operation::Mul)
    } else if take(src, b"4 ") {
        Ok(Operation::Div)
    } else {
        Err(Stop::Text(TextFault { line: src.line() }))
    }
}

/// The bound, or the word for none.
fn bound_word(src: &mut SliceSource) -> Result<Option<i128>, Stop>
    ensures { Gives (λ x. x) result (place_of src.new) false (bound_word_at (place_of src.old)) }
{
    if take(src, b"none\n") {
        Ok(None)
    } else {
        let bound = i128_then(src, Ends::Line)?;
        Ok(Some(bound))
    }
}

/// The line of the bound.
#[tactic(auto, unfolding(crate::specs::Reading::bound_at))]
fn bound(src: &mut SliceSource) -> Result<Option<i128>, Stop>
    ensures { Gives (λ x. x) result (place_of src.new) false (bound_at (place_of src.old)) }
{
    word(src, b"bound ")?;
    bound_word(src)
}

/// A numerator.
fn numerator(src: &mut SliceSource) -> Result<i128, Stop>
    ensures read { Gives (λ x. x) result (place_of src.new) false (num_at (place_of src.old)) }
    ensures short { IfOk result (λ z. IsShort z) }
{
    let line = src.line();
    let num = i128_then(src, Ends::Space)?;
    if num == i128::MIN {
        Err(Stop::Text(TextFault { line }))
    } else {
        Ok(num)
    }
}

/// The fraction of these numbers, where they are in lowest terms.
fn lowest(num: i128, den: i128) -> Option<Frac>
    requires num { IsShort num }
    requires den { pos 0 ≤ℤ den }
    ensures { IsLowestOf num (unsigned_abs den) result }
{
    match Frac::new(num, den) {
        Ok(fraction) if fraction.num() == num && fraction.den() == den => Some(fraction),
        _ => None,
    }
}

/// The denominator for a numerator, and so the fraction.
fn denominator(src: &mut SliceSource, num: i128, ends: Ends) -> Result<Frac, Stop>
    requires { IsShort num }
    ensures { Gives shown_frac result (place_of src.new) false (over num (den_at ends num (place_of src.old))) }
{
    let line = src.line();
    let den = number(src, i128::MAX as u128, ends)? as i128;
    match lowest(num, den) {
        Some(fraction) => Ok(fraction),
        None => Err(Stop::Text(TextFault { line })),
    }
}

/// A fraction in lowest terms.
#[tactic(auto, unfolding(crate::specs::Reading::fraction_at))]
fn fraction(src: &mut SliceSource, ends: Ends) -> Result<Frac, Stop>
    ensures { Gives shown_frac result (place_of src.new) false (fraction_at ends (place_of src.old)) }
{
    let num = numerator(src)?;
    denominator(src, num, ends)
}

/// n values, to the end of the line.
fn values(alloc: Global, src: &mut SliceSource, n: u32) -> Result<Vec<i128>, Halt>
    ensures { Yields (λ v. v.items) result (place_of src.new) false (each_at (λ k. i128_at (ends_before k)) n (place_of src.old)) }
{
    let mut values = Vec::new(alloc);
    for i in 0..n {
        let value = i128_then(src, Ends::before(n - i - 1))?;
        values.push(value)?;
    }
    Ok(values)
}

/// A point, to the end of its line.
#[tactic(auto, unfolding(crate::specs::Reading::point_at))]
fn point(alloc: Global, src: &mut SliceSource) -> Result<RelaxPoint, Halt>
    ensures { Yields shown_values result (place_of src.new) false (point_at (place_of src.old)) }
{
    let base = u64_then(src, Ends::Space)?;
    let count = u32_then(src, Ends::LineIfZero)?;
    let values = values(alloc, src, count)?;
    Ok(RelaxPoint { base, values })
}

/// n parts, which so many fields follow in their line.
fn part_list(alloc: Global, src: &mut SliceSource, n: u32, more: u32) -> Result<Vec<Part>, Halt>
    requires { more ≤ 1 }
    ensures { Yields (λ v. map shown_part v.items) result (place_of src.new) false (each_at (λ k. part_at (k + more)) n (place_of src.old)) }
{
    let mut parts = Vec::new(alloc);
    for i in 0..n {
        let part = part(src, n - i - 1 + more)?;
        parts.push(part)?;
    }
    Ok(parts)
}

/// How a count ends, where so many fields follow its items.
fn ends_of_count(more: u32) -> Ends
    ensures { result ≡ count_ends more }
{
    if more == 0 {
        Ends::LineIfZero
    } else {
        Ends::Space
    }
}

/// A proof, which so many fields follow in its line.
#[tactic(auto, unfolding(crate::specs::Reading::proof_at))]
fn proof(alloc: Global, src: &mut SliceSource, more: u32) -> Result<Proof, Halt>
    requires { more ≤ 1 }
    ensures { Yields shown_proof result (place_of src.new) false (proof_at more (place_of src.old)) }
{
    let scale = u64_then(src, Ends::Space)?;
    let count = u32_then(src, ends_of_count(more))?;
    let parts = part_list(alloc, src, count, more)?;
    Ok(Proof { scale, parts })
}

/// The operation and the fractions of a reason.
#[tactic(auto, unfolding(crate::specs::Reading::wide_at))]
fn wide(src: &mut SliceSource) -> Result<TooWide, Stop>
    ensures { Gives shown_wide result (place_of src.new) false (wide_at (place_of src.old)) }
{
    let operation = operation(src)?;
    let left = fraction(src, Ends::Space)?;
    let right = fraction(src, Ends::Line)?;
    Ok(TooWide {
        operation,
        left,
        right,
    })
}

/// What a reason tells.
#[tactic(auto, unfolding(crate::specs::Reading::told_at))]
fn told(alloc: Global, src: &mut SliceSource, kind: ReasonKind) -> Result<Reason, Halt>
    ensures { Yields shown_reason result (place_of src.new) false (told_at kind (place_of src.old)) }
{
    match kind {
        ReasonKind::Pivots => {
            let count = u32_then(src, Ends::Line)?;
            Ok(Reason::Pivots(count))
        }
        ReasonKind::Wide => {
            let wide = wide(src)?;
            Ok(Reason::Wide(wide))
        }
        ReasonKind::Coarse => {
            let times = u64_then(src, Ends::Space)?;
            let fraction = fraction(src, Ends::Line)?;
            Ok(Reason::Coarse(times, fraction))
        }
        ReasonKind::HeavyProof => {
            let proof = proof(alloc, src, 0)?;
            Ok(Reason::HeavyProof(proof))
        }
        ReasonKind::HeavyPoint => {
            let point = point(alloc, src)?;
            Ok(Reason::HeavyPoint(point))
        }
    }
}

/// A reason.
#[tactic(auto, unfolding(crate::specs::Reading::reason_at))]
fn reason(alloc: Global, src: &mut SliceSource) -> Result<Reason, Halt>
    ensures { Yields shown_reason result (place_of src.new) false (reason_at (place_of src.old)) }
{
    let kind = reason_kind(src)?;
    told(alloc, src, kind)
}

/// What a mark carries.
#[tactic(auto, unfolding(crate::specs::Reading::carried_at))]
fn carried(alloc: Global, src: &mut SliceSource, kind: MarkKind) -> Result<Mark, Halt>
    ensures { Yields shown_mark result (place_of src.new) false (carried_at kind (place_of src.old)) }
{
    match kind {
        MarkKind::Tight => {
            let point = point(alloc, src)?;
            Ok(Mark::Tight(point))
        }
        MarkKind::Raised => {
            let proof = proof(alloc, src, 1)?;
            let point = point(alloc, src)?;
            Ok(Mark::Raised(proof, point))
        }
        MarkKind::Empty => {
            let proof = proof(alloc, src, 0)?;
            Ok(Mark::Empty(proof))
        }
        MarkKind::Loose => {
            let reason = reason(alloc, src)?;
            Ok(Mark::Loose(reason))
        }
    }
}

/// The line of a mark.
#[tactic(auto, unfolding(crate::specs::Reading::leaf_at))]
fn leaf(alloc: Global, src: &mut SliceSource) -> Result<LeafMark, Halt>
    ensures { Yields shown_leaf result (place_of src.new) false (leaf_at (place_of src.old)) }
{
    let kind = mark_kind(src)?;
    let node = u32_then(src, Ends::Space)?;
    let mark = carried(alloc, src, kind)?;
    Ok(LeafMark { node, mark })
}

/// The lines of n marks.
fn leaf_list(alloc: Global, src: &mut SliceSource, n: u32) -> Result<Vec<LeafMark>, Halt>
    ensures { Yields (λ v. map shown_leaf v.items) result (place_of src.new) false (each_at (λ _. leaf_at) n (place_of src.old)) }
{
    let mut leaves = Vec::new(alloc);
    for _ in 0..n {
        let leaf = leaf(alloc, src)?;
        leaves.push(leaf)?;
    }
    Ok(leaves)
}

/// The count of the marks, and their lines.
#[tactic(auto, unfolding(crate::specs::Reading::leaves_at))]
fn leaves(alloc: Global, src: &mut SliceSource) -> Result<Vec<LeafMark>, Halt>
    ensures { Yields (λ v. map shown_leaf v.items) result (place_of src.new) false (leaves_at (place_of src.old)) }
{
    word(src, b"leaves ")?;
    let n = u32_then(src, Ends::Line)?;
    leaf_list(alloc, src, n)
}

/// Marks, at the front of what the source has.
#[tactic(auto, unfolding(crate::specs::Reading::marks_at))]
fn marks(alloc: Global, src: &mut SliceSource) -> Result<TightText, Halt>
    ensures { Yields shown_marks result (place_of src.new) false (marks_at (place_of src.old)) }
{
    word(src, b"pooltight 1\n")?;
    let form = form(src)?;
    let pivots = pivots(src)?;
    let marks = leaves(alloc, src)?;
    let bound = bound(src)?;
    word(src, b"end\n")?;
    Ok(TightText {
        form,
        pivots,
        marks,
        bound,
    })
}

/// Marks, and nothing behind them in the source.
fn marks_to_the_end(alloc: Global, src: &mut SliceSource) -> Result<TightText, Halt>
    ensures { Closes shown_marks result false (finished marks_at (place_of src.old)) }
{
    let marks = marks(alloc, src)?;
    let line = src.line();
    match src.next() {
        Ok(None) => Ok(marks),
        Ok(Some(_)) => Err(Halt::Read(Stop::Text(TextFault { line }))),
        Err(_) => Err(Halt::Read(Stop::Source)),
    }
}

/// All of the bytes: marks and nothing behind them.
fn all_marks(alloc: Global, bytes: &[u8]) -> Result<TightText, ReadFault>
    ensures { Comes shown_marks result (whole marks_at bytes.now) }
{
    let mut src = SliceSource::new(bytes);
    match marks_to_the_end(alloc, &mut src) {
        Ok(marks) => Ok(marks),
        Err(Halt::Read(Stop::Text(fault))) => Err(ReadFault::Line(fault.line)),
        Err(Halt::Read(Stop::Source)) => unreachable!(),
        Err(Halt::Memory) => Err(ReadFault::Memory),
    }
}

/// The marks that have this text.
///
/// `Line` comes exactly where no marks have this text. Where there is no faulty line, and the text isn't whole or goes on behind that of the
/// marks, it is the number of the rest behind the last line feed. `Memory` is want of memory; none is taken ahead of what is read.
pub fn read_tight(alloc: Global, bytes: &[u8]) -> Result<TightText, ReadFault>
    // Promise: What is read of a text of marks is the marks that have it
    ensures found { IfOk result (λ t. AreMarks (shown_marks t) × (bytes.now ≡ marks_text (shown_marks t))) }
    // Promise: The text of marks is read as these marks, or memory ran out
    ensures only { (t : Marks) → AreMarks t → bytes.now ≡ marks_text t → IsReadAs shown_marks t result }
    // Promise: A text that no marks have is refused at its first faulty line
    ensures fault { IfErr result (IsFaultIn Marks AreMarks marks_text bytes.now) }
{
    all_marks(alloc, bytes)
}
