//! Duals of the right sign, the values that they ask for, and the bound that they give.
//!
//! Since every variable has two ends, only an active inequality can have a dual of the wrong sign. Its row leaves before
//! anything else, so that the duals of each pass give a bound on the cost. The best is kept for a call that runs out.

use crate::simplex::{DUAL_TOLERANCE, HARRIS, Simplex};
use lp_factors::{Change, Column};
use lp_sparse::fixed::{ONE, VALUE_BITS, product};
use lp_sparse::lookup::put;
use lp_sparse::{Entry, NO_ENTRY};
use std::alloc::{AllocError, Global};

/// How far below 0 the dual of an inequality may be before its row leaves: 2^-35.
const NEGATIVE_DUAL: i64 = 4 * HARRIS;
/// A gain in the bound that counts: 2^-40.
const GAIN: i128 = 16;

impl Simplex {
    /// The most negative dual of an active inequality leaves, with the variable of the largest number in its column.
    pub(crate) fn drop_negative_dual(&mut self, alloc: Global) -> Result<bool, AllocError> {
        let mut found: Option<usize> = None;
        let mut least = -NEGATIVE_DUAL;
        for row in self.basis.rows.iter() {
            let dual = self.sums.dual(*row);
            if dual < least && !self.program.row(*row).equal {
                least = dual;
                found = Some(*row);
            }
        }
        let Some(row) = found else {
            return Ok(false);
        };
        let unit = Entry {
            place: row,
            value: -ONE,
        };
        let column = self.kernel.solve_entering(alloc, &[unit])?;
        let partner = largest(&column);
        if partner.value == 0 {
            return Ok(false);
        }
        self.drop_row(alloc, row, partner)?;
        Ok(true)
    }

    /// An active row leaves together with a basic variable.
    fn drop_row(&mut self, alloc: Global, row: usize, partner: Entry) -> Result<(), AllocError> {
        self.sums.set_dual(&self.program, row, 0);
        let was_new = self.kernel.is_new();
        let variable = partner.place;
        let leaving = Column::Structural(variable);
        let entering = Column::Slack(row);
        let alpha = partner.value;
        let outcome = self.change(
            alloc,
            Change {
                leaving,
                entering,
                alpha,
            },
        )?;
        self.choose_nearer_end(variable);
        self.sums.changed_variables.mark(variable);
        self.sums.changed_rows.mark(row);
        self.rebuild(alloc, outcome, was_new, Some(leaving), Some(entering))
    }

    /// Each nonbasic variable whose reduced cost changed goes to the end of its box that this asks for.
    pub(crate) fn choose_bounds(&mut self) {
        for turn in 0..self.sums.changed_variables.len() {
            let variable = self.sums.changed_variables.place(turn);
            if self.basis.is_basic(variable) || self.program.variable(variable).width == 0 {
                continue;
            }
            let reduced_cost = self.sums.reduced_cost(variable);
            if reduced_cost > DUAL_TOLERANCE {
                put(&mut self.at_high, variable, false);
            } else if reduced_cost < -DUAL_TOLERANCE {
                put(&mut self.at_high, variable, true);
            }
            self.go_to_end(variable);
        }
        self.sums.changed_variables.clear();
    }

    /// Keeps the duals where their bound is the best so far.
    pub(crate) fn keep_best(&mut self, alloc: Global) -> Result<(), AllocError> {
        let bound = self.bound();
        if bound > self.best.bound.saturating_add(GAIN) {
            self.progress.last_gain = self.progress.pivots;
        }
        if bound > self.best.bound {
            self.best.bound = bound;
            let mut duals = Vec::with_capacity(alloc, self.basis.rows.len())?;
            for row in self.basis.rows.iter() {
                let value = self.sums.dual(*row);
                duals.push(Entry { place: *row, value })?;
            }
            self.best.duals = duals;
            self.best.waits = true;
        }
        Ok(())
    }

    /// Keeps the values that came with the best duals.
    pub(crate) fn keep_best_values(&mut self, alloc: Global) -> Result<(), AllocError> {
        if self.best.waits {
            self.best.values = Vec::from_slice(alloc, &self.sums.values)?;
            self.best.waits = false;
        }
        Ok(())
    }

    /// Goes back to the duals of the best bound, with the values that came with them. The sums don't follow.
    pub fn return_to_best(&mut self, alloc: Global) -> Result<(), AllocError> {
        if self.best.values.len() == self.sums.values.len() {
            self.sums.values = Vec::from_slice(alloc, &self.best.values)?;
        }
        self.sums.duals = vec![in alloc; 0i64; self.program.rows.len()]?;
        for entry in self.best.duals.iter() {
            put(&mut self.sums.duals, entry.place, entry.value);
        }
        Ok(())
    }

    /// What the duals say of the least cost.
    fn bound(&self) -> i128 {
        let mut bound = 0i128;
        for (place, variable) in self.program.variables.iter().enumerate() {
            if self.sums.exact_reduced_cost(place) < 0 && !self.basis.is_basic(place) {
                let reduced_cost = self.sums.reduced_cost(place);
                bound = bound.wrapping_add(product(reduced_cost, variable.width) >> VALUE_BITS);
            }
        }
        for row in self.basis.rows.iter() {
            let dual = self.sums.dual(*row);
            let row = self.program.row(*row);
            let dual = if row.equal { dual } else { dual.max(0) };
            bound = bound.wrapping_sub(product(dual, row.short_constant) >> VALUE_BITS);
        }
        bound
    }
}

/// The first entry of the largest size.
fn largest(entries: &[Entry]) -> Entry {
    let mut best = NO_ENTRY;
    for entry in entries {
        if entry.value.wrapping_abs() > best.value.wrapping_abs() {
            best = *entry;
        }
    }
    best
}
