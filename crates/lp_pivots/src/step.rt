//! The step of one pivot: duals and values move, roughly, and the sums follow exactly.
//!
//! The pivot is computed twice, along its row and along its column. Where the two differ the factors are too rough for it.

use crate::price::Leaving;
use crate::ratio::{Entering, PivotRow};
use crate::simplex::Simplex;
use lp_factors::Column;
use lp_sparse::fixed::{
    KERNEL_BITS, LOST_BITS, ONE, clamped_more, product, quotient, rounded, shifted_down,
};
use lp_sparse::lookup::put;
use lp_sparse::{Entry, number_of};
use std::alloc::{AllocError, Global};

/// How far the pivot's two numbers may lie apart: 2^-26, and what `alpha` shifted by 8 allows.
const PIVOT_SLACK: i64 = 16384;

impl Simplex {
    /// The column of what enters, over the basic variables.
    pub(crate) fn entering_column(
        &mut self,
        alloc: Global,
        entering: Column,
    ) -> Result<Vec<Entry>, AllocError> {
        let mut side = Vec::new(alloc);
        match entering {
            Column::Structural(variable) => {
                for entry in self.program.variable_line(variable) {
                    let value = rounded(i128::from(entry.value), LOST_BITS);
                    let place = entry.place;
                    side.push(Entry { place, value })?;
                }
            }
            Column::Slack(row) => {
                let value = ONE.wrapping_neg();
                side.push(Entry { place: row, value })?;
            }
        }
        self.kernel.solve_entering(alloc, &side)
    }

    /// Moves the duals so that what enters has none.
    pub(crate) fn step_duals(&mut self, leaving: Column, entering: Entering, row: &PivotRow) {
        let dual = match entering.column {
            Column::Structural(variable) => self.sums.reduced_cost(variable),
            Column::Slack(active) => self.sums.dual(active),
        };
        let step = quotient(i128::from(dual).wrapping_neg(), entering.alpha);
        let mut own = None;
        if let Column::Slack(active) = entering.column {
            own = Some(active);
        }
        for entry in row.active.iter() {
            let change = part(step, entry.value);
            if own != Some(entry.place) && change != 0 {
                let moved = self.sums.dual(entry.place).wrapping_add(change);
                let dual = clamped_more(i128::from(moved));
                self.sums.set_dual(&self.program, entry.place, dual);
            }
        }
        if let Some(active) = own {
            self.sums.set_dual(&self.program, active, 0);
        }
        if let Column::Slack(new) = leaving {
            let dual = clamped_more(i128::from(step).wrapping_neg());
            self.sums.set_dual(&self.program, new, dual);
        }
    }

    /// Moves the values so that what leaves is at its end.
    pub(crate) fn step_values(&mut self, leaving: &Leaving, entering: Entering, column: &[Entry]) {
        let distance = self.distance(leaving);
        let step = quotient(distance, entering.alpha);
        let mut own = None;
        if let Column::Structural(old) = leaving.column {
            own = Some(old);
        }
        for entry in column {
            let change = part(step, entry.value);
            if own != Some(entry.place) && change != 0 {
                let moved = self.sums.value(entry.place).wrapping_sub(change);
                let value = clamped_more(i128::from(moved));
                self.sums.set_value(&self.program, entry.place, value);
            }
        }
        if let Column::Structural(new) = entering.column {
            let moved = self.sums.value(new).wrapping_add(step);
            let value = clamped_more(i128::from(moved));
            self.sums.set_value(&self.program, new, value);
        }
        if let Column::Structural(old) = leaving.column {
            put(&mut self.at_high, old, !leaving.is_below);
            self.go_to_end(old);
            self.sums.changed_variables.mark(old);
        }
        if let Column::Slack(old) = entering.column {
            self.sums.changed_rows.mark(old);
        }
    }

    /// How far what leaves has to go.
    fn distance(&self, leaving: &Leaving) -> i128 {
        match leaving.column {
            Column::Structural(variable) => {
                let target = if leaving.is_below {
                    0
                } else {
                    self.program.variable(variable).width
                };
                i128::from(target).wrapping_sub(i128::from(self.sums.value(variable)))
            }
            Column::Slack(row) => i128::from(self.sums.activity(row)).wrapping_neg(),
        }
    }
}

/// The entering column's number for what leaves is not that of the pivot row.
pub fn is_off(leaving: Column, alpha: i64, column: &[Entry]) -> bool {
    match leaving {
        Column::Structural(variable) => {
            let sum = number_of(column, variable).wrapping_add(alpha);
            let most = (alpha.wrapping_abs() >> 8).saturating_add(PIVOT_SLACK);
            sum.wrapping_abs() > most
        }
        Column::Slack(_) => false,
    }
}

/// `step` times a number of the kernel.
#[inline]
fn part(step: i64, number: i64) -> i64 {
    clamped_more(shifted_down(product(step, number), KERNEL_BITS))
}
