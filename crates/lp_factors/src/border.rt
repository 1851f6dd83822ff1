//! The border of the base factors: for each change of the basis since they were made one row and one column.
//!
//! The row is the one that became active, or says that the variable that left is 0. The column is of the variable that
//! entered, or of the row that left, as its unit. So the factors of the base stay as they are (J. Bisschop and A. Meeraus,
//! Matrix augmentation and partitioning in the updating of the basis inverse, 1977). What is left of the border past the
//! base, its Schur complement, is kept inverted, and grows by one line and one column at each change.

use lp_sparse::fixed::{
    GUARD_BITS, KERNEL_BITS, SUM_BITS, clamped, inverse, kernel_product, product, rounded,
    shifted_down, subtract_sum,
};
use lp_sparse::lookup::{at, put};
use lp_sparse::{Entry, add_multiple, guarded_dot, subtract_multiple};
use std::alloc::{AllocError, Global};

/// Changes of the basis between two factorings.
pub const MOST_CHANGES: usize = 32;

/// The places of a line of a table that the border fills.
const LINE: usize = MOST_CHANGES + 1;

/// One change of the basis.
#[derive(Drop)]
pub struct Edge {
    /// The row that became active, and the variable that entered.
    pub row: Option<usize>,
    pub variable: Option<usize>,
    /// The row's entries, by column of the base.
    pub line: Vec<Entry>,
    /// The column, solved by the base.
    pub column: Vec<Entry>,
}

/// The changes since the base was factored.
#[derive(Drop)]
pub struct Border {
    pub edges: Vec<Edge>,
    /// The columns of the edges once more, for each place of the base a line.
    columns: Vec<i64>,
    /// The inverse of the Schur complement.
    inverse: Vec<i64>,
}

/// The line of the Schur complement that a new edge adds.
#[derive(Drop)]
pub struct NewLine {
    pub numbers: Vec<i64>,
    /// The corner, before the numbers are taken from it.
    pub corner: i128,
}

impl Border {
    pub fn new(alloc: Global, base: usize) -> Result<Border, AllocError> {
        let columns = vec![in alloc; 0i64; base.saturating_mul(LINE)]?;
        Ok(Border {
            edges: Vec::new(alloc),
            columns,
            inverse: vec![in alloc; 0i64; LINE * LINE]?,
        })
    }

    pub fn len(&self) -> usize {
        self.edges.len()
    }

    /// The numbers of the edges' columns at a place of the base.
    #[inline]
    fn base_line(&self, place: usize) -> &[i64] {
        line_of(&self.columns, place, self.len())
    }

    /// From the right side past the base: solves for the border, and takes that from the base's solution.
    pub fn solve_columns(
        &self,
        alloc: Global,
        base: &mut [i64],
        side: &mut [i64],
    ) -> Result<Vec<i64>, AllocError> {
        for (number, edge) in side.iter_mut().zip(self.edges.iter()) {
            *number = subtract_sum(*number, guarded_dot(&edge.line, base));
        }
        let mut solved = Vec::with_capacity(alloc, self.len())?;
        for turn in 0..self.len() {
            let sum = short_dot(line_of(&self.inverse, turn, self.len()), side);
            solved.push(rounded(sum, SUM_BITS))?;
        }
        for (edge, number) in self.edges.iter().zip(solved.iter()) {
            if *number != 0 {
                subtract_multiple(base, &edge.column, *number);
            }
        }
        Ok(solved)
    }

    /// From the left side, of the base and past it: solves for the border, and takes that from the base's side.
    pub fn solve_rows(
        &self,
        alloc: Global,
        base: &mut [i64],
        side: &mut [i64],
    ) -> Result<Vec<i64>, AllocError> {
        let mut sums = vec![in alloc; 0i128; self.len()]?;
        for (place, number) in base.iter().enumerate() {
            if *number != 0 {
                add_multiple(&mut sums, self.base_line(place), *number);
            }
        }
        for (number, sum) in side.iter_mut().zip(sums.iter()) {
            *number = subtract_sum(*number, *sum);
        }
        let solved = self.times_inverse(alloc, side)?;
        for (edge, number) in self.edges.iter().zip(solved.iter()) {
            if *number != 0 {
                subtract_multiple(base, &edge.line, *number);
            }
        }
        Ok(solved)
    }

    /// A line times the inverse of the Schur complement.
    pub fn times_inverse(&self, alloc: Global, line: &[i64]) -> Result<Vec<i64>, AllocError> {
        let mut sums = vec![in alloc; 0i128; self.len()]?;
        for (turn, number) in line.iter().enumerate() {
            if *number != 0 {
                let own = line_of(&self.inverse, turn, self.len());
                add_multiple(&mut sums, own, *number);
            }
        }
        let mut solved = Vec::with_capacity(alloc, self.len())?;
        for sum in sums.iter() {
            solved.push(rounded(*sum, SUM_BITS))?;
        }
        Ok(solved)
    }

    /// Takes the base's part from a new line: `line` is that of the new edge, `column` the entering column by the base.
    pub fn reduce(
        &self,
        alloc: Global,
        new: &mut NewLine,
        line: &[Entry],
        column: &[i64],
    ) -> Result<(), AllocError> {
        let mut sums = vec![in alloc; 0i128; self.len()]?;
        for entry in line {
            add_multiple(&mut sums, self.base_line(entry.place), entry.value);
        }
        for (number, sum) in new.numbers.iter_mut().zip(sums.iter()) {
            *number = subtract_sum(*number, *sum);
        }
        let part = rounded_sum(guarded_dot(line, column));
        new.corner = new.corner.wrapping_sub(part);
        Ok(())
    }

    /// Adds a change to the inverse. `column` is the entering one by the border, `line` the new line times the inverse.
    pub fn grow(&mut self, column: &[i64], line: &[i64], corner: i64) {
        let size = self.len();
        let inverse = inverse(corner);
        for turn in 0..size {
            let ratio = kernel_product(at(column, turn, 0), inverse);
            let start = turn.wrapping_mul(LINE);
            if ratio != 0 {
                for (other, number) in line.iter().enumerate() {
                    let place = start.wrapping_add(other);
                    let old = i128::from(at(&self.inverse, place, 0));
                    let change = shifted_down(product(ratio, *number), KERNEL_BITS);
                    put(&mut self.inverse, place, clamped(old.wrapping_add(change)));
                }
            }
            let end = start.wrapping_add(size);
            put(&mut self.inverse, end, ratio.wrapping_neg());
        }
        let start = size.wrapping_mul(LINE);
        for (other, number) in line.iter().enumerate() {
            let ratio = kernel_product(*number, inverse).wrapping_neg();
            put(&mut self.inverse, start.wrapping_add(other), ratio);
        }
        put(&mut self.inverse, start.wrapping_add(size), inverse);
    }

    /// Adds a change, once the inverse has grown by it.
    pub fn push(&mut self, edge: Edge) -> Result<(), AllocError> {
        let turn = self.len();
        for entry in edge.column.iter() {
            let place = entry.place.wrapping_mul(LINE).wrapping_add(turn);
            put(&mut self.columns, place, entry.value);
        }
        self.edges.push(edge)?;
        Ok(())
    }
}

/// The first `count` numbers of a line of a table.
#[inline]
fn line_of(table: &[i64], line: usize, count: usize) -> &[i64] {
    let start = line.wrapping_mul(LINE);
    let end = start.wrapping_add(count);
    table.get(start..end).unwrap_or(&[])
}

/// The sum of the products, each short of its guard bits.
#[inline]
pub fn short_dot(line: &[i64], numbers: &[i64]) -> i128 {
    let mut sum = 0i128;
    for (own, number) in line.iter().zip(numbers) {
        sum = sum.wrapping_add(product(*own, *number) >> GUARD_BITS);
    }
    sum
}

/// A sum of products that are short of their guard bits, as a number of the kernel.
pub fn rounded_sum(sum: i128) -> i128 {
    shifted_down(sum, SUM_BITS)
}
