//! New factors of the kernel, and what leaves the basis for want of a pivot.
//!
//! The least pivot that is allowed is a part of the state. It gets stricter where factors that are new turn out to be rough,
//! since that shows a basis that is nearly singular.

use crate::simplex::Simplex;
use lp_factors::{Change, Column, Factored, Outcome, factor};
use lp_sparse::fixed::{KERNEL_BITS, LOST_BITS, ONE, rounded};
use lp_sparse::lookup::{NOWHERE, at};
use lp_sparse::{Entry, numbers_of};
use std::alloc::{AllocError, Global};

/// How many pivots a column waits that led to rough numbers.
pub const WAIT: u32 = 30;

impl Simplex {
    /// Factors the active rows by the basic variables. What has no pivot leaves the basis, and then the answer is `false`.
    pub(crate) fn refactor(&mut self, alloc: Global) -> Result<bool, AllocError> {
        let least = ONE >> self.progress.threshold.min(KERNEL_BITS);
        let rows = self.kernel_rows(alloc)?;
        let factored = factor(alloc, rows, self.basis.variables.len(), least)?;
        let size = factored.rows.len();
        let is_regular = size == self.basis.rows.len() && size == self.basis.variables.len();
        self.take_factors(alloc, factored)?;
        Ok(is_regular)
    }

    /// The kernel, a line for each active row.
    fn kernel_rows(&self, alloc: Global) -> Result<Vec<Vec<Entry>>, AllocError> {
        let mut rows = Vec::new(alloc);
        for row in self.basis.rows.iter() {
            let mut line = Vec::new(alloc);
            for entry in self.program.row_line(*row) {
                let place = self.basis.variable_place(entry.place);
                let value = rounded(i128::from(entry.value), LOST_BITS);
                if place != NOWHERE && value != 0 {
                    line.push(Entry { place, value })?;
                }
            }
            rows.push(line)?;
        }
        Ok(rows)
    }

    /// Makes the basis what the factors have.
    fn take_factors(&mut self, alloc: Global, factored: Factored) -> Result<(), AllocError> {
        self.drop_rows(alloc, &factored.rows)?;
        self.drop_variables(alloc, &factored.columns)?;
        self.basis.keep(alloc, &factored.rows, &factored.columns)?;
        let (rows, variables) = (&self.basis.rows, &self.basis.variables);
        self.kernel.restart(alloc, factored, rows, variables)
    }

    /// Active rows with no pivot leave.
    fn drop_rows(&mut self, alloc: Global, pivots: &[usize]) -> Result<(), AllocError> {
        let numbers = numbers_of(alloc, pivots, self.basis.rows.len())?;
        for place in 0..self.basis.rows.len() {
            if at(&numbers, place, NOWHERE) == NOWHERE {
                let row = self.basis.row(place);
                self.basis.forget_row(row);
                self.sums.set_dual(&self.program, row, 0);
                self.sums.changed_rows.mark(row);
            }
        }
        Ok(())
    }

    /// Basic variables with no pivot leave, each for the nearer end of its box.
    fn drop_variables(&mut self, alloc: Global, pivots: &[usize]) -> Result<(), AllocError> {
        let numbers = numbers_of(alloc, pivots, self.basis.variables.len())?;
        for place in 0..self.basis.variables.len() {
            if at(&numbers, place, NOWHERE) == NOWHERE {
                let variable = self.basis.variable(place);
                self.basis.forget_variable(variable);
                self.choose_nearer_end(variable);
                self.sums.changed_variables.mark(variable);
                self.go_to_end(variable);
            }
        }
        Ok(())
    }

    /// Changes the basis and the border.
    pub(crate) fn change(&mut self, alloc: Global, change: Change) -> Result<Outcome, AllocError> {
        self.basis.change(change.leaving, change.entering)?;
        self.kernel.extend(alloc, &self.program.by_row, change)
    }

    /// Makes the factors anew after a change that asks for it. Both columns wait where the numbers were too rough.
    pub(crate) fn rebuild(
        &mut self,
        alloc: Global,
        outcome: Outcome,
        was_new: bool,
        one: Option<Column>,
        other: Option<Column>,
    ) -> Result<(), AllocError> {
        if outcome == Outcome::Done {
            return Ok(());
        }
        if outcome == Outcome::Failed {
            self.progress.troubles = self.progress.troubles.saturating_add(1);
            self.bar(one, WAIT);
            self.bar(other, WAIT);
            if was_new {
                self.make_stricter();
            }
        }
        if !self.refactor(alloc)? {
            self.bar(one, WAIT);
            self.bar(other, WAIT);
        }
        Ok(())
    }

    /// A pivot has to be eight times as large from now on.
    fn make_stricter(&mut self) {
        self.progress.threshold = self.progress.threshold.saturating_sub(3);
    }

    /// Makes the factors anew, unless that was done too often.
    pub(crate) fn refactor_again(&mut self, alloc: Global) -> Result<bool, AllocError> {
        if self.progress.is_hopeless() {
            return Ok(false);
        }
        self.progress.troubles = self.progress.troubles.saturating_add(1);
        if self.progress.fresh {
            self.make_stricter();
            if self.progress.threshold < 6 {
                return Ok(false);
            }
        }
        if !self.refactor(alloc)? {
            self.bar(self.progress.last_leaving, WAIT);
        }
        self.progress.fresh = true;
        Ok(true)
    }
}
