//! The known rules by name.

ghost use Rattle.branching.specs.Rows.{HasOpen};
ghost use Rattle.branching.specs.Known.{IsPickedBy};

use crate::known::{fewest, first_open, most_violated, widest};
use crate::view::LeafView;

/// Which coordinate of a box is cut.
#[derive(Clone, Copy, Debug, PartialEq, Eq)]
pub enum RuleName {
    /// The first that can be cut.
    First,
    /// The widest, measured by its width in the root box.
    Widest,
    /// The one whose products are missed most.
    Violated,
    /// The one with the fewest splits on it.
    Fewest,
}

impl RuleName {
    /// The row that the rule picks.
    pub fn pick(self, view: &LeafView) -> usize
        requires { HasOpen view.now.rows }
        ensures { IsPickedBy self view.now.rows result }
    {
        match self {
            RuleName::First => first_open(view),
            RuleName::Widest => widest(view),
            RuleName::Violated => most_violated(view),
            RuleName::Fewest => fewest(view),
        }
    }
}
