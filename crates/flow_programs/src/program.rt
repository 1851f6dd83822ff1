//! Small linear programs, put together term by term.

use linear_program::{Lp, LpRow, Term};
use lp_sparse::fixed::{bit_length, shifted_down};
use lp_sparse::lookup::at;
use std::alloc::{AllocError, Global};

/// The bits to which coefficients and costs are brought before they are handed on.
const COEF_BITS: i32 = 46;

/// Half of the bits of a point's unit.
const HALF: u32 = 16;

/// A linear program. Variables and rows are named by their places.
#[derive(Drop)]
pub struct SmallProgram {
    lp: Lp,
    /// How many bits the costs have lost.
    lost: u32,
}

impl SmallProgram {
    /// No variable and no row.
    pub fn new(alloc: Global) -> SmallProgram {
        SmallProgram {
            lp: Lp {
                low: Vec::new(alloc),
                high: Vec::new(alloc),
                cost: Vec::new(alloc),
                rows: Vec::new(alloc),
            },
            lost: 0,
        }
    }

    /// One more variable, between its ends.
    pub fn add_variable(&mut self, low: i128, high: i128, cost: i128) -> Result<(), AllocError> {
        self.lp.low.push(low)?;
        self.lp.high.push(high)?;
        self.lp.cost.push(cost)?;
        Ok(())
    }

    /// One more row, which has to be at least 0, or 0.
    pub fn add_row(
        &mut self,
        alloc: Global,
        equal: bool,
        constant: i128,
    ) -> Result<(), AllocError> {
        self.lp.rows.push(LpRow {
            id: 0,
            equal,
            constant,
            terms: Vec::new(alloc),
        })?;
        Ok(())
    }

    /// One more term of a row, if that is there.
    pub fn add_term(&mut self, row: usize, variable: usize, coef: i128) -> Result<(), AllocError> {
        let var = u32::try_from(variable).unwrap_or(u32::MAX);
        if let Some(row) = self.lp.rows.get_mut(row) {
            if coef != 0 {
                row.terms.push(Term { var, coef })?;
            }
        }
        Ok(())
    }

    /// Adds to a row's constant, if that is there.
    pub fn add_constant(&mut self, row: usize, more: i128) {
        if let Some(row) = self.lp.rows.get_mut(row) {
            row.constant = row.constant.wrapping_add(more);
        }
    }

    /// How many variables there are.
    pub fn variable_count(&self) -> usize {
        self.lp.low.len()
    }

    /// The most that a variable may be.
    pub fn high(&self, variable: usize) -> i128 {
        at(&self.lp.high, variable, 0)
    }

    /// The constant of a row.
    pub fn constant(&self, row: usize) -> i128 {
        self.lp.rows.get(row).map_or(0, |row| row.constant)
    }

    /// The terms of a row.
    pub fn terms(&self, row: usize) -> &[Term] {
        match self.lp.rows.get(row) {
            None => &[],
            Some(row) => row.terms.as_slice(),
        }
    }

    /// The program itself, as advice is asked on it.
    pub fn lp(&self) -> &Lp {
        &self.lp
    }

    /// Brings each row, and all costs together, to coefficients that are not too long for advice.
    pub fn shorten(&mut self) {
        for row in self.lp.rows.iter_mut() {
            shorten_row(row);
        }
        let mut most = 0;
        for cost in self.lp.cost.iter() {
            most = most.max(bit_length(*cost));
        }
        self.lost = excess(most);
        for cost in self.lp.cost.iter_mut() {
            *cost = shifted_down(*cost, self.lost);
        }
    }

    /// What a point costs whose numbers are in units of 2^-32, but for the bits that the costs have lost.
    pub fn cost(&self, point: &[i128]) -> i128 {
        let mut sum = 0i128;
        for (cost, number) in self.lp.cost.iter().zip(point) {
            let more = cost.wrapping_mul(number.unbounded_shr(HALF));
            sum = sum.wrapping_add(more);
        }
        sum.unbounded_shr(HALF).unbounded_shl(self.lost)
    }
}

fn shorten_row(row: &mut LpRow) {
    let mut most = 0;
    for term in row.terms.iter() {
        most = most.max(bit_length(term.coef));
    }
    let bits = excess(most);
    if bits > 0 {
        for term in row.terms.iter_mut() {
            term.coef = shifted_down(term.coef, bits);
        }
        row.constant = row.constant.unbounded_shr(bits);
    }
}

fn excess(bits: i32) -> u32 {
    bits.saturating_sub(COEF_BITS).max(0).unsigned_abs()
}
