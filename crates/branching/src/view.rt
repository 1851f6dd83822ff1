//! A leaf as a cut rule sees it.

ghost use Rattle.std.specs.Prelude.{◌≡◌, ◌↔◌, ◌^◌, IsTrue, pos, ◌≤ℤ◌, ◌<ℤ◌};
ghost use Rattle.std.specs.Int.RustNames.{int_div};

use std::marker::Model;

/// A coordinate of a leaf, in the coordinate's unit.
#[derive(Clone, Copy, Debug, PartialEq, Eq)]
pub struct CoordRow {
    /// The number of the coordinate.
    pub coord: u32,
    /// How many splits of the tree are on it.
    pub cuts: u32,
    /// The ends in the leaf's box.
    pub low: i64,
    pub high: i64,
    /// How far the ends are apart in the root box.
    pub root_width: i64,
    /// How much a cut here is expected to gain, on a scale that is the view's own.
    pub miss: u64,
}

/// A leaf, with a row for each coordinate that a rule may pick. No two rows are of one coordinate.
#[derive(Debug, Drop)]
pub struct LeafView {
    node: u32,
    rows: Vec<CoordRow>,
}

impl Model for LeafView {
    ghost use Rattle.branching.specs.Rows.{AreRows, View};

    ghost Value = { View };

    ghost view = { λ v. record { node = v.node; rows = v.rows.items } };

    ghost invariant = { λ v. AreRows v.rows.items };
}

impl CoordRow {
    ghost use Rattle.branching.specs.Rows.{middle_of, width_of, IsOpen, IsRow};

    /// Whether there is room for a cut: the ends are at least 2 apart.
    pub fn is_open(&self) -> bool
        ensures { IsTrue result ↔ IsOpen self.now }
    {
        i128::from(self.low) + 2 <= i128::from(self.high)
    }

    /// How far the ends are apart.
    pub(crate) fn width(&self) -> i64
        requires { IsRow self.now }
        ensures width { result ≡ width_of self.now }
        ensures least { pos 0 ≤ℤ result }
        ensures most { result ≤ℤ pos (2 ^ 62) }
    {
        self.high - self.low
    }

    /// The middle of the row, rounded down. Where the row is open, it lies strictly inside.
    pub(crate) fn middle(&self) -> i64
        requires { IsRow self.now }
        ensures middle { result ≡ middle_of self.now }
        ensures above { IsOpen self.now → self.now.low <ℤ result }
        ensures below { IsOpen self.now → result <ℤ self.now.high }
    {
        self.low + half(self.width())
    }
}

/// Half a width, rounded down.
fn half(width: i64) -> i64
    requires { pos 0 ≤ℤ width }
    ensures half { result ≡ int_div width (pos 2) }
    ensures least { pos 0 ≤ℤ result }
    ensures most { result ≤ℤ width }
    ensures some { pos 2 ≤ℤ width → pos 0 <ℤ result }
    ensures less { pos 2 ≤ℤ width → result <ℤ width }
{
    width / 2
}

impl LeafView {
    ghost use Rattle.branching.specs.Rows.{AreRows, HasOpen};

    /// The view of a node with these rows.
    pub fn new(node: u32, rows: Vec<CoordRow>) -> LeafView
        requires { AreRows rows.items }
        ensures node { result.node ≡ node }
        ensures rows { result.rows ≡ rows.items }
    {
        LeafView { node, rows }
    }

    /// The number of the leaf's node.
    pub fn node(&self) -> u32
        ensures { result ≡ self.now.node }
    {
        self.node
    }

    /// The rows.
    pub fn rows(&self) -> &[CoordRow]
        ensures rows { result.now ≡ self.now.rows }
        ensures proper { AreRows self.now.rows }
    {
        self.rows.as_slice()
    }

    /// Whether some row is open, so that a rule may be asked.
    pub fn has_open(&self) -> bool
        ensures { IsTrue result ↔ HasOpen self.now.rows }
    {
        let rows = self.rows();
        for row in rows {
            if row.is_open() {
                return true;
            }
        }
        false
    }
}
