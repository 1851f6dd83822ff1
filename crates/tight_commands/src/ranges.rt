//! That marks that are held have a text. There is nothing here but the reading of numbers.

ghost use Rattle.std.specs.Prelude.{◌<◌, ◌^◌, All, FitsSigned, length};
ghost use Rattle.std.specs.Int.{w128};
ghost use Rattle.std.specs.Option.{ForSome};
ghost use Rattle.exact_num.specs.Views.{shown_frac};
ghost use Rattle.box_space.specs.Views.{shown_proof};
ghost use Rattle.tight_texts.specs.Texts.{AreMarks, AreValues, IsFraction, IsLeafMark, IsMark, IsProof, IsReason};
ghost use Rattle.tight_texts.specs.Views.{shown_leaf, shown_mark, shown_marks, shown_reason, shown_values};
ghost use Rattle.tight_commands.specs.Ranges.{HasParts, HasValues, IsReasonWithin, IsWithin, most_rows, most_variables};

use box_space::Proof;
use cert_writing::ranges::parts;
use exact_num::Frac;
use leaf_marks::{Mark, Reason};
use relaxation_points::RelaxPoint;
use tight_texts::{LeafMark, TightText};

/// Marks that are held have a text, where they can be counted in 32 bits, and carry no more parts and values than a network may have rows and
/// variables.
pub(crate) fn marks_law(text: &TightText)
    requires few { length text.now.marks.items < 2 ^ 32 }
    requires within { All (λ line. IsWithin most_rows most_variables (shown_mark line.mark)) text.now.marks.items }
    ensures { AreMarks (shown_marks text.now) }
{
    let _pivots = text.pivots;
    bound(text.bound);
    lines(text.marks.as_slice());
}

fn bound(bound: Option<i128>)
    ensures { ForSome bound (FitsSigned w128) }
{
    if let Some(bound) = bound {
        let _bound = bound;
    }
}

fn lines(lines: &[LeafMark])
    requires { All (λ line. IsWithin most_rows most_variables (shown_mark line.mark)) lines.now }
    ensures { All (λ line. IsLeafMark (shown_leaf line)) lines.now }
{
    for each in lines {
        line(each);
    }
}

fn line(line: &LeafMark)
    requires { IsWithin most_rows most_variables (shown_mark line.now.mark) }
    ensures { IsLeafMark (shown_leaf line.now) }
{
    let _node = line.node;
    mark(&line.mark);
}

fn mark(mark: &Mark)
    requires { IsWithin most_rows most_variables (shown_mark mark.now) }
    ensures { IsMark (shown_mark mark.now) }
{
    match mark {
        Mark::Tight(held) => point(held),
        Mark::Raised(shown, held) => {
            proof(shown);
            point(held);
        }
        Mark::Empty(shown) => proof(shown),
        Mark::Loose(held) => reason(held),
    }
}

fn reason(reason: &Reason)
    requires { IsReasonWithin most_rows most_variables (shown_reason reason.now) }
    ensures { IsReason (shown_reason reason.now) }
{
    match reason {
        Reason::Pivots(count) => {
            let _count = *count;
        }
        Reason::Wide(wide) => {
            fraction(wide.left);
            fraction(wide.right);
        }
        Reason::Coarse(times, held) => {
            let _times = *times;
            fraction(*held);
        }
        Reason::HeavyProof(held) => proof(held),
        Reason::HeavyPoint(held) => point(held),
    }
}

fn fraction(fraction: Frac)
    ensures { IsFraction (shown_frac fraction) }
{
    let _ = fraction.num();
}

fn proof(proof: &Proof)
    requires { HasParts most_rows (shown_proof proof.now) }
    ensures { IsProof (shown_proof proof.now) }
{
    let _scale = proof.scale;
    parts(proof.parts.as_slice());
}

fn point(point: &RelaxPoint)
    requires { HasValues most_variables (shown_values point.now) }
    ensures { AreValues (shown_values point.now) }
{
    let _base = point.base;
    values(point.values.as_slice());
}

fn values(values: &[i128])
    ensures { All (FitsSigned w128) values.now }
{
    for each in values {
        value(*each);
    }
}

fn value(value: i128)
    ensures { FitsSigned w128 value }
{
    let _value = value;
}
