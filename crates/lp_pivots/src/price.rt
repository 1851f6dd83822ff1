//! The choice of the leaving column, by the greatest violation of the scaled program.
//!
//! That is the rule of G. B. Dantzig turned to the dual: no weights are kept, which makes a pivot cheap where programs are
//! small and starts are near. Rows are looked at only where their activity changed since they last held.

use crate::simplex::{PRIMAL_TOLERANCE, Simplex};
use lp_factors::Column;

/// A column out of its box by `violation`: it is below its low end, or above its high end.
#[derive(Clone, Copy)]
pub struct Leaving {
    pub column: Column,
    pub violation: i64,
    pub is_below: bool,
}

impl Simplex {
    /// Lists the rows that may not hold, of those whose activities changed.
    pub(crate) fn list_broken(&mut self) {
        for turn in 0..self.sums.changed_rows.len() {
            let row = self.sums.changed_rows.place(turn);
            if self.row_violation(row).is_some() {
                self.broken.mark(row);
            }
        }
        self.sums.changed_rows.clear();
    }

    /// An inactive row that does not hold.
    #[inline]
    fn row_violation(&self, row: usize) -> Option<Leaving> {
        let own = self.program.row(row);
        if !own.is_open || self.basis.is_active(row) {
            return None;
        }
        let activity = self.sums.activity(row);
        let is_below = activity < -PRIMAL_TOLERANCE;
        if !is_below && (!own.equal || activity <= PRIMAL_TOLERANCE) {
            return None;
        }
        Some(Leaving {
            column: Column::Slack(row),
            violation: activity.saturating_abs(),
            is_below,
        })
    }

    /// A basic variable out of its box.
    #[inline]
    fn variable_violation(&self, variable: usize) -> Option<Leaving> {
        let value = self.sums.value(variable);
        let is_below = value < -PRIMAL_TOLERANCE;
        let above = value.saturating_sub(self.program.variable(variable).width);
        if !is_below && above <= PRIMAL_TOLERANCE {
            return None;
        }
        let violation = if is_below {
            value.saturating_neg()
        } else {
            above
        };
        let column = Column::Structural(variable);
        Some(Leaving {
            column,
            violation,
            is_below,
        })
    }

    /// The greater of the two; the first where they are alike or the second is barred.
    #[inline]
    fn greater(&self, best: Option<Leaving>, other: Leaving) -> Option<Leaving> {
        let most = best.map_or(0, |leaving| leaving.violation);
        if other.violation > most && !self.bars.is_barred(other.column, self.progress.pivots) {
            Some(other)
        } else {
            best
        }
    }

    /// The column of the greatest violation, if any is out of its box. Rows that hold leave the list.
    pub(crate) fn price(&mut self) -> Option<Leaving> {
        let mut best: Option<Leaving> = None;
        for variable in self.basis.variables.iter() {
            if let Some(leaving) = self.variable_violation(*variable) {
                best = self.greater(best, leaving);
            }
        }
        let mut kept = 0usize;
        for turn in 0..self.broken.len() {
            let row = self.broken.place(turn);
            if let Some(leaving) = self.row_violation(row) {
                self.broken.move_to(kept, row);
                kept = kept.wrapping_add(1);
                best = self.greater(best, leaving);
            } else {
                self.broken.unmark(row);
            }
        }
        self.broken.cut(kept);
        best
    }
}
