//! How many marks of each kind there are.

ghost use Rattle.std.specs.Prelude.{◌≡◌, ◌<◌, ◌^◌, count_by, length};
ghost use Rattle.tight_checks.specs.Holding as holding;
ghost use Rattle.tight_checks.specs.Holding.{IsVerdict};

use crate::verdict::TightVerdict;
use leaf_marks::Mark;
use tight_texts::{LeafMark, TightText};

/// How many marks of each kind a text has, and its bound.
pub(crate) fn verdict_of(text: &TightText) -> TightVerdict
    requires { length text.now.marks.items < 2 ^ 32 }
    ensures { IsVerdict text.now result }
{
    let lines = text.marks.as_slice();
    TightVerdict {
        tight: count_tight(lines),
        raised: count_raised(lines),
        empty: count_empty(lines),
        loose: count_loose(lines),
        bound: text.bound,
    }
}

fn count_tight(lines: &[LeafMark]) -> u32
    requires { length lines.now < 2 ^ 32 }
    ensures { result ≡ count_by (λ line. holding.is_tight line.mark) lines.now }
{
    lines.iter().filter(|line| is_tight(&line.mark)).count() as u32
}

fn count_raised(lines: &[LeafMark]) -> u32
    requires { length lines.now < 2 ^ 32 }
    ensures { result ≡ count_by (λ line. holding.is_raised line.mark) lines.now }
{
    lines.iter().filter(|line| is_raised(&line.mark)).count() as u32
}

fn count_empty(lines: &[LeafMark]) -> u32
    requires { length lines.now < 2 ^ 32 }
    ensures { result ≡ count_by (λ line. holding.is_empty line.mark) lines.now }
{
    lines.iter().filter(|line| is_empty(&line.mark)).count() as u32
}

fn count_loose(lines: &[LeafMark]) -> u32
    requires { length lines.now < 2 ^ 32 }
    ensures { result ≡ count_by (λ line. holding.is_loose line.mark) lines.now }
{
    lines.iter().filter(|line| is_loose(&line.mark)).count() as u32
}

fn is_tight(mark: &Mark) -> bool
    ensures { result ≡ holding.is_tight mark.now }
{
    matches!(mark, Mark::Tight(_))
}

fn is_raised(mark: &Mark) -> bool
    ensures { result ≡ holding.is_raised mark.now }
{
    matches!(mark, Mark::Raised(_, _))
}

fn is_empty(mark: &Mark) -> bool
    ensures { result ≡ holding.is_empty mark.now }
{
    matches!(mark, Mark::Empty(_))
}

fn is_loose(mark: &Mark) -> bool
    ensures { result ≡ holding.is_loose mark.now }
{
    matches!(mark, Mark::Loose(_))
}
