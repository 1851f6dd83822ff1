//! Boxes: the ends of each coordinate.

ghost use Rattle.std.specs.Prelude.{◌≡◌, ◌<◌, ◌⊎◌, ◌↔◌, length, get_or, pos, ◌+ℤ◌, ◌≤ℤ◌, ◌<ℤ◌, IfOk, IsTrue};
ghost use Rattle.pool_model.specs.Network.{Net};
ghost use Rattle.pool_model.specs.Plan.{Plan};
ghost use Rattle.row_model.specs.Boxes.{LiesIn};
ghost use Rattle.box_space.specs.Views.{AreHalves, AreEnds, IsView, shown_box_ends};

use edge_io::Memory;
use std::alloc::Global;

/// The ends of a box, by coordinate, each in the coordinate's unit.
#[derive(Debug, Drop)]
pub struct BoxEnds {
    pub low: Vec<i64>,
    pub high: Vec<i64>,
}

/// A box that is only looked at.
#[derive(Clone, Copy, Debug)]
pub struct BoxView<'a> {
    pub low: &'a [i64],
    pub high: &'a [i64],
}

impl BoxEnds {
    /// The box, to be looked at.
    pub fn view(&self) -> BoxView<'_>
        ensures low { result.low.now ≡ self.now.low.items }
        ensures high { result.high.now ≡ self.now.high.items }
        ensures proper { (n : Net) → AreEnds n self.now → IsView n result }
    {
        BoxView {
            low: self.low.as_slice(),
            high: self.high.as_slice(),
        }
    }
}

impl BoxView<'_> {
    /// The low end of a coordinate.
    pub fn low_at(&self, n: u32) -> i64
        requires { n < length self.now.low.now }
        ensures { result ≡ get_or self.now.low.now n (pos 0) }
    {
        self.low[n as usize]
    }

    /// The high end of a coordinate.
    pub fn high_at(&self, n: u32) -> i64
        requires { n < length self.now.high.now }
        ensures { result ≡ get_or self.now.high.now n (pos 0) }
    {
        self.high[n as usize]
    }
}

/// Whether a box can be cut at a coordinate: its ends are at least 2 apart.
pub fn can_cut(v: &BoxView, n: u32) -> bool
    requires low { n < length v.now.low.now }
    requires high { n < length v.now.high.now }
    ensures { IsTrue result ↔ ((get_or v.now.low.now n (pos 0) +ℤ pos 2) ≤ℤ get_or v.now.high.now n (pos 0)) }
{
    i128::from(v.low_at(n)) + 2 <= i128::from(v.high_at(n))
}

/// The halves of a box that is cut at a coordinate: the left one ends at the cut, and the right one begins there. Both are
/// proper where the box is, and a plan in the box lies in one of them.
pub fn halves(
    alloc: Global,
    b: &BoxEnds,
    coord: u32,
    cut: i64,
) -> Result<(BoxEnds, BoxEnds), Memory>
    requires low { coord < length b.now.low.items }
    requires high { coord < length b.now.high.items }
    requires inside { (get_or b.now.low.items coord (pos 0) <ℤ cut) × (cut <ℤ get_or b.now.high.items coord (pos 0)) }
    // Promise: The halves of a box are those of the definition
    ensures cut { IfOk result (λ h. AreHalves b.now h.0 h.1 coord cut) }
    // Promise: Both halves of a box are boxes of the network
    ensures proper { IfOk result (λ h. (n : Net) → AreEnds n b.now → AreEnds n h.0 × AreEnds n h.1) }
    // Promise: A plan in a box lies in one of its halves
    ensures covers { IfOk result (λ h. (n : Net) (p : Plan) → LiesIn n p (shown_box_ends b.now) → LiesIn n p (shown_box_ends h.0) ⊎ LiesIn n p (shown_box_ends h.1)) }
{
    cut_at(alloc, b, coord, cut)
}

fn cut_at(alloc: Global, b: &BoxEnds, coord: u32, cut: i64) -> Result<(BoxEnds, BoxEnds), Memory>
    requires low { coord < length b.now.low.items }
    requires high { coord < length b.now.high.items }
    ensures { IfOk result (λ h. AreHalves b.now h.0 h.1 coord cut) }
{
    let mut left_high = Vec::from_slice(alloc, b.high.as_slice())?;
    let mut right_low = Vec::from_slice(alloc, b.low.as_slice())?;
    left_high[coord as usize] = cut;
    right_low[coord as usize] = cut;
    let left = BoxEnds {
        low: Vec::from_slice(alloc, b.low.as_slice())?,
        high: left_high,
    };
    let right = BoxEnds {
        low: right_low,
        high: Vec::from_slice(alloc, b.high.as_slice())?,
    };
    Ok((left, right))
}
