//! The ends of a box at one coordinate, and the halves of a cut.

ghost use Rattle.std.specs.Prelude.{◌↔◌, ◌<ℤ◌, IsTrue};

/// The ends of a box at one coordinate, in the coordinate's unit.
#[derive(Clone, Copy, Debug)]
pub struct Span {
    pub low: i64,
    pub high: i64,
}

/// A half of a box that is cut.
#[derive(Clone, Copy, Debug)]
pub enum Side {
    Left,
    Right,
}

impl Span {
    /// Whether a cut lies strictly between the ends.
    pub(crate) fn has_inside(&self, cut: i64) -> bool
        ensures { IsTrue result ↔ ((self.now.low <ℤ cut) × (cut <ℤ self.now.high)) }
    {
        self.low < cut && cut < self.high
    }
}
