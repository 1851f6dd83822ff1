//! Lower and upper factors of a sparse square, and the solves with them, forward and backward.
//!
//! A solve passes over each pivot whose number is 0, which is most of them where a side has few entries.

use lp_sparse::fixed::{kernel_product, subtract_sum};
use lp_sparse::lookup::{at, put};
use lp_sparse::{Sparse, guarded_dot, subtract_multiple};
use std::alloc::Global;

/// Factors whose rows and columns are numbered by their pivots.
#[derive(Drop)]
pub struct Factors {
    /// 1 divided by each pivot.
    pub inverses: Vec<i64>,
    /// For each pivot the rows from which its row was taken, and how many times.
    pub lower: Sparse,
    /// What is left of each pivot's row past the pivot.
    pub upper: Sparse,
    pub upper_by_column: Sparse,
}

impl Factors {
    pub fn new(alloc: Global) -> Factors {
        Factors {
            inverses: Vec::new(alloc),
            lower: Sparse::new(alloc),
            upper: Sparse::new(alloc),
            upper_by_column: Sparse::new(alloc),
        }
    }

    pub fn size(&self) -> usize {
        self.inverses.len()
    }

    /// Turns the right side, by rows, into the solution, by columns.
    pub fn solve_columns(&self, side: &mut [i64]) {
        for pivot in 0..self.size() {
            let number = at(side, pivot, 0);
            if number != 0 {
                subtract_multiple(side, self.lower.line(pivot), number);
            }
        }
        for pivot in (0..self.size()).rev() {
            let number = at(side, pivot, 0);
            if number != 0 {
                let solved = kernel_product(number, at(&self.inverses, pivot, 0));
                put(side, pivot, solved);
                subtract_multiple(side, self.upper_by_column.line(pivot), solved);
            }
        }
    }

    /// Turns the left side, by columns, into the solution, by rows.
    pub fn solve_rows(&self, side: &mut [i64]) {
        for pivot in 0..self.size() {
            let number = at(side, pivot, 0);
            if number != 0 {
                let solved = kernel_product(number, at(&self.inverses, pivot, 0));
                put(side, pivot, solved);
                subtract_multiple(side, self.upper.line(pivot), solved);
            }
        }
        for pivot in (0..self.size()).rev() {
            let sum = guarded_dot(self.lower.line(pivot), side);
            if sum != 0 {
                put(side, pivot, subtract_sum(at(side, pivot, 0), sum));
            }
        }
    }
}
