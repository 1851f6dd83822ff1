//! The passes: settle the duals and the values, and change the basis.
//!
//! A pass that makes a pivot takes duals that are settled, settles the values, prices, tests the ratios and steps. Others
//! only factor anew, drop a row, or keep a column from leaving.

use crate::price::Leaving;
use crate::ratio::{Entering, PivotRow};
use crate::simplex::{End, Simplex};
use crate::step::is_off;
use lp_factors::{Change, Column, Outcome};
use std::alloc::{AllocError, Global};

/// Pivots without gain after which the method stops.
const MOST_IDLE_PIVOTS: u32 = 2000;
/// How often the costs may be moved, and put back.
const MOST_MOVES: u32 = 20;

const MOST_RESTORES: u32 = 50;

impl Simplex {
    /// Goes from basis to basis. The passes are counted, and not the pivots, since a pass may make none.
    pub fn run(&mut self, alloc: Global, pivots: u32) -> Result<End, AllocError> {
        let variables = self.program.variables.len() as u64;
        let passes = (4 * u64::from(pivots) + 1001).saturating_add(variables);
        self.progress.fresh = self.basis.size() == 0;
        for _ in 0..passes {
            if let Some(end) = self.pass(alloc, pivots)? {
                return Ok(end);
            }
        }
        Ok(End::Stopped)
    }

    /// One pass, and how it ended where that is the end.
    fn pass(&mut self, alloc: Global, pivots: u32) -> Result<Option<End>, AllocError> {
        if !self.progress.reprice {
            if self.progress.is_hopeless() {
                return Ok(Some(End::Refused));
            }
            if !self.settle_duals(alloc)? {
                return self.refactor_or_refuse(alloc);
            }
            if self.drop_negative_dual(alloc)? {
                self.progress.fresh = false;
                return Ok(None);
            }
            self.choose_bounds();
            self.keep_best(alloc)?;
            if !self.settle_values(alloc)? {
                return self.refactor_or_refuse(alloc);
            }
            self.keep_best_values(alloc)?;
            self.list_broken();
        }
        self.progress.reprice = false;
        if self.is_over(pivots) {
            return Ok(Some(End::Stopped));
        }
        if self.is_stalled() {
            self.move_costs();
            return Ok(None);
        }
        self.pivot(alloc)
    }

    /// The pivots, or the patience, are at an end.
    fn is_over(&self, pivots: u32) -> bool {
        self.progress.pivots >= pivots
            || self.progress.idle() > MOST_IDLE_PIVOTS
            || self.progress.moves > MOST_MOVES
            || self.progress.restores > MOST_RESTORES
    }

    /// Chooses a leaving and an entering column and changes the basis.
    fn pivot(&mut self, alloc: Global) -> Result<Option<End>, AllocError> {
        let Some(leaving) = self.price() else {
            return Ok(self.finish());
        };
        let row = self.pivot_row(alloc, &leaving)?;
        if i128::from(leaving.violation) <= row.noise() {
            self.bar_once(leaving.column);
            return Ok(None);
        }
        match self.ratio_test(alloc, &leaving, &row)? {
            Some(entering) => {
                self.exchange(alloc, leaving, entering, &row)?;
                Ok(None)
            }
            None => self.give_up_row(alloc, leaving, &row),
        }
    }

    /// Everything holds: the end, or the program with its own costs again.
    fn finish(&mut self) -> Option<End> {
        if self.progress.is_moved || self.progress.is_shifted {
            self.restore_costs();
            None
        } else {
            Some(End::Optimal)
        }
    }

    /// Changes the basis, or refactors first where the pivot is not to be trusted.
    fn exchange(
        &mut self,
        alloc: Global,
        leaving: Leaving,
        entering: Entering,
        row: &PivotRow,
    ) -> Result<(), AllocError> {
        if entering.is_tiny() && !self.progress.fresh && self.refactor_again(alloc)? {
            return Ok(());
        }
        let column = self.entering_column(alloc, entering.column)?;
        if is_off(leaving.column, entering.alpha, &column)
            && !self.progress.fresh
            && self.refactor_again(alloc)?
        {
            return Ok(());
        }
        self.shift_wrong_sign(entering.column);
        self.step_duals(leaving.column, entering, row);
        self.step_values(&leaving, entering, &column);
        self.change_basis(alloc, leaving.column, entering)
    }

    /// Changes the basis, with new factors where the border cannot take the change.
    fn change_basis(
        &mut self,
        alloc: Global,
        leaving: Column,
        entering: Entering,
    ) -> Result<(), AllocError> {
        let was_new = self.kernel.is_new();
        let change = Change {
            leaving,
            entering: entering.column,
            alpha: entering.alpha,
        };
        let outcome = self.change(alloc, change)?;
        self.progress.pivots = self.progress.pivots.saturating_add(1);
        self.progress.last_leaving = Some(leaving);
        self.rebuild(alloc, outcome, was_new, Some(leaving), None)?;
        self.progress.fresh = outcome != Outcome::Done;
        Ok(())
    }

    /// Nothing can take up the violation: a ray, or a violation that only rough factors show.
    fn give_up_row(
        &mut self,
        alloc: Global,
        leaving: Leaving,
        row: &PivotRow,
    ) -> Result<Option<End>, AllocError> {
        if let Some(ray) = self.ray(alloc, &leaving, row)? {
            return Ok(Some(End::Ray(ray)));
        }
        if self.progress.fresh || !self.refactor_again(alloc)? {
            self.bar_once(leaving.column);
        }
        Ok(None)
    }

    /// Keeps a column from leaving in the next choice.
    fn bar_once(&mut self, column: Column) {
        self.bar(Some(column), 1);
        self.progress.reprice = true;
    }

    /// Makes the factors anew, or ends where that was done too often.
    fn refactor_or_refuse(&mut self, alloc: Global) -> Result<Option<End>, AllocError> {
        Ok(if self.refactor_again(alloc)? {
            None
        } else {
            Some(End::Refused)
        })
    }
}
