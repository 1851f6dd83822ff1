//! The split that a rule picks.

ghost use Rattle.std.specs.Prelude.{◌≡◌, ◌<ℤ◌};
ghost use Rattle.branching.specs.Rows.{HasOpen, IsOpen, IsRow, middle_of};
ghost use Rattle.branching.specs.Rules.{IsPick, PicksOpen};

use crate::rule::{CutRule, RuleClosure};
use crate::view::{CoordRow, LeafView};
use box_space::Split;

impl CutRule {
    /// The rule of a closure. It takes no memory.
    pub fn new(closure: RuleClosure) -> CutRule
        requires { PicksOpen (RuleClosure.pre closure) (RuleClosure.post closure) }
        // Promise: A cut rule that is kept answers an open row on every view that has one, so its pick is a split strictly inside
        ensures { result.closure ≡ closure }
    {
        CutRule { closure }
    }

    /// The split of the view's node in the middle of the row that the closure answers. It takes no memory.
    pub fn pick(&self, view: &LeafView) -> Split
        requires { HasOpen view.now.rows }
        // Promise: A cut rule that is kept answers an open row on every view that has one, so its pick is a split strictly inside
        ensures { IsPick (RuleClosure.post self.now.closure) view.now result }
    {
        let rows = view.rows();
        let place = (self.closure)(view);
        split_of(view.node(), &rows[place])
    }
}

/// The split of a node in the middle of an open row.
fn split_of(node: u32, row: &CoordRow) -> Split
    requires row { IsRow row.now }
    requires is_open { IsOpen row.now }
    ensures leaf { result.leaf ≡ node }
    ensures coord { result.coord ≡ row.now.coord }
    ensures middle { result.cut ≡ middle_of row.now }
    ensures above { row.now.low <ℤ result.cut }
    ensures below { result.cut <ℤ row.now.high }
{
    Split {
        leaf: node,
        coord: row.coord,
        cut: row.middle(),
    }
}
