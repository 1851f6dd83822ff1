//! Moved costs: of all variables at random where there is no gain for long, and of one where a dual has the wrong sign.
//!
//! Both keep the method from going round in circles where many bases have the same cost. To move the numbers so that no two
//! are alike goes back to A. Charnes (Optimality and degeneracy in linear programming, 1952) and P. Wolfe (A technique for
//! resolving degeneracy in linear programming, 1963). The program that is solved in the end is the one with its own costs.

use crate::simplex::Simplex;
use lp_factors::Column;
use lp_sparse::fixed::product;
use lp_sparse::lookup::at;
use lp_state::NO_BOUND;

/// Pivots without gain, beyond the size of the kernel, after which the costs are moved.
const STALL: usize = 100;
/// What comes to that after some moves.
const LATER_STALL: usize = 300;
/// The bits that bring a random number of 21 bits to 2^-20 of the greatest cost.
const MOVE_BITS: u32 = 51;

impl Simplex {
    /// There was no gain for long, and the costs are not moved.
    pub(crate) fn is_stalled(&self) -> bool {
        let later = if self.progress.moves > 3 {
            LATER_STALL
        } else {
            0
        };
        let most = self
            .basis
            .size()
            .saturating_add(STALL.saturating_add(later));
        !self.progress.is_moved && self.progress.idle() as usize > most
    }

    /// Moves each cost by a fixed sequence of random numbers, to the side that its variable's end asks for.
    pub(crate) fn move_costs(&mut self) {
        self.progress.is_moved = true;
        self.progress.moves = self.progress.moves.saturating_add(1);
        let mut random = 12345u64.wrapping_add(u64::from(self.progress.moves));
        for variable in 0..self.at_high.len() {
            if self.program.variable(variable).width == 0 {
                continue;
            }
            random = random
                .wrapping_mul(6_364_136_223_846_793_005)
                .wrapping_add(1_442_695_040_888_963_407);
            let size = i128::from(random >> 44).wrapping_add(1_048_576);
            let change = size.wrapping_shl(MOVE_BITS);
            let is_down = if self.basis.is_basic(variable) {
                (random >> 43) & 1 == 1
            } else {
                at(&self.at_high, variable, false)
            };
            let change = if is_down {
                change.wrapping_neg()
            } else {
                change
            };
            self.sums.move_cost(variable, change);
            self.sums.changed_variables.mark(variable);
        }
        self.forget_bound();
    }

    /// The costs of the program again.
    pub(crate) fn restore_costs(&mut self) {
        self.progress.restores = self.progress.restores.saturating_add(1);
        self.progress.is_moved = false;
        self.progress.is_shifted = false;
        self.sums.restore_costs(&self.program);
        self.forget_bound();
    }

    /// Bounds at other costs say nothing of these.
    fn forget_bound(&mut self) {
        self.best.bound = NO_BOUND;
        self.progress.last_gain = self.progress.pivots;
    }

    /// What enters may have a dual value of the wrong sign, within tolerance, which would grow over a small pivot. It is
    /// set to 0, and costs take the difference until the end.
    pub(crate) fn shift_wrong_sign(&mut self, entering: Column) {
        match entering {
            Column::Structural(variable) => self.shift_variable(variable),
            Column::Slack(row) => self.shift_row(row),
        }
    }

    fn shift_variable(&mut self, variable: usize) {
        let reduced_cost = self.sums.exact_reduced_cost(variable);
        let is_right = if at(&self.at_high, variable, false) {
            reduced_cost <= 0
        } else {
            reduced_cost >= 0
        };
        if !is_right {
            self.progress.is_shifted = true;
            self.sums.move_cost(variable, reduced_cost.wrapping_neg());
            self.sums.changed_variables.mark(variable);
        }
    }

    fn shift_row(&mut self, row: usize) {
        let dual = self.sums.dual(row);
        if dual >= 0 || self.program.row(row).equal {
            return;
        }
        self.progress.is_shifted = true;
        self.sums.set_dual(&self.program, row, 0);
        for entry in self.program.row_line(row) {
            if self.basis.is_basic(entry.place) {
                let change = product(entry.value, dual).wrapping_neg();
                self.sums.move_cost(entry.place, change);
            }
        }
    }
}
