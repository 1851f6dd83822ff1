//! States of the exact run in memory.

ghost use Rattle.std.specs.Prelude.{◌≡◌, ◌<◌, length};

use crate::factors::Factors;
use exact_num::Frac;
use exact_run::End;

/// A basic column, its value, and its factors on the other columns; its own is -1.
#[derive(Debug, Drop)]
pub struct Line {
    pub basic: usize,
    pub value: Frac,
    pub factors: Factors,
}

/// A state: a line for each place, the ends at which the other columns stand, and the cost's factors.
#[derive(Debug, Drop)]
pub struct Tableau {
    pub lines: Vec<Line>,
    pub stands: Vec<End>,
    pub cost: Factors,
}

impl Tableau {
    ghost use Rattle.exact_pivots.specs.Views.{shown_line, line_at};

    /// The line of a place.
    pub fn line(&self, place: usize) -> &Line
        requires { place < length self.now.lines.items }
        ensures { shown_line result.now ≡ line_at self.now.lines.items place }
    {
        &self.lines[place]
    }
}
