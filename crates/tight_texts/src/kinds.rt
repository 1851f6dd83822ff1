//! The kinds of marks and of reasons, as their lines name them.

/// A kind of mark.
#[derive(Clone, Copy)]
pub(crate) enum MarkKind {
    Tight,
    Raised,
    Empty,
    Loose,
}

/// A kind of reason.
#[derive(Clone, Copy)]
pub(crate) enum ReasonKind {
    Pivots,
    Wide,
    Coarse,
    HeavyProof,
    HeavyPoint,
}
