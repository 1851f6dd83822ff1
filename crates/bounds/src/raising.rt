//! Bounds: what proofs add to them, and which of two is less.

ghost use Rattle.std.specs.Prelude.{◌≡◌, option_map};
ghost use Rattle.pool_model.specs.Starting.{lesser as lesser_of};
ghost use Rattle.row_model.specs.Trees.{raised as raised_by};
ghost use Rattle.row_book.specs.Views.{shown_value};

use row_book::Shown;

/// The bound with what a proof shows, where there is one. None is that there is no plan.
pub fn raised(bound: Option<i128>, shown: Option<Shown>) -> Option<i128>
    ensures { result ≡ raised_by bound (option_map shown_value shown) }
{
    match (bound, shown) {
        (None, _) => None,
        (Some(bound), None) => Some(bound),
        (Some(bound), Some(Shown::Bound(least))) => Some(bound.max(least)),
        (Some(_), Some(Shown::NoPlan)) => None,
    }
}

/// The lesser of two bounds, where there are some.
pub fn lesser_bound(a: Option<i128>, b: Option<i128>) -> Option<i128>
    ensures { result ≡ lesser_of a b }
{
    match (a, b) {
        (None, _) => b,
        (Some(_), None) => a,
        (Some(a), Some(b)) => Some(a.min(b)),
    }
}
