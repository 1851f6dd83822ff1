//! A program with the state of the method on it, and its tolerances.

use lp_factors::{Column, Kernel};
use lp_scaling::Program;
use lp_sparse::lookup::{at, put};
use lp_sparse::{Entry, Marks};
use lp_state::{Bars, Basis, Best, Progress, RowSums, Sums};
use std::alloc::{AllocError, Global};

/// How far a value may lie outside its box: 2^-33.
pub const PRIMAL_TOLERANCE: i64 = 128;
/// How far a reduced cost may have the wrong sign: 2^-36.
pub const DUAL_TOLERANCE: i64 = 256;
/// What a reduced cost may give way in the ratio test: 2^-37.
pub const HARRIS: i64 = 128;
/// A program, a basis of it, and all that the method knows of both.
#[derive(Drop)]
pub struct Simplex {
    pub(crate) program: Program,
    pub(crate) basis: Basis,
    pub(crate) kernel: Kernel,
    pub(crate) sums: Sums,
    /// For each variable the end of its box that it goes to where it is not basic.
    pub(crate) at_high: Vec<bool>,
    /// The inactive rows that may not hold.
    pub(crate) broken: Marks,
    pub(crate) bars: Bars,
    pub(crate) row_sums: RowSums,
    pub(crate) best: Best,
    pub(crate) progress: Progress,
}

/// How the method ended.
#[derive(Drop)]
pub enum End {
    Optimal,
    /// No point of the box meets the rows: their sum with these multipliers is below 0 on all of it.
    Ray(Vec<i64>),
    /// It ran out of pivots, or had no gain for long.
    Stopped,
    /// The numbers were too rough to go on.
    Refused,
}

impl Simplex {
    /// Each variable at the end of its box that its cost asks for, with no active row.
    pub fn new(alloc: Global, program: Program) -> Result<Simplex, AllocError> {
        let variables = program.variables.len();
        let rows = program.rows.len();
        let kernel = Kernel::new(alloc, rows, variables)?;
        let basis = Basis::new(alloc, variables, rows)?;
        let sums = Sums::new(alloc, &program)?;
        let (broken, bars, row_sums) = rooms(alloc, variables, rows)?;
        let mut simplex = Simplex {
            at_high: vec![in alloc; false; variables]?,
            program,
            basis,
            kernel,
            sums,
            broken,
            bars,
            row_sums,
            best: Best::new(alloc),
            progress: Progress::new(),
        };
        simplex.start_at_ends();
        Ok(simplex)
    }

    fn start_at_ends(&mut self) {
        for variable in 0..self.at_high.len() {
            if self.program.variable(variable).cost < 0 {
                put(&mut self.at_high, variable, true);
                self.go_to_end(variable);
            }
        }
        self.sums.mark_all();
    }

    /// The program.
    #[inline]
    pub fn program(&self) -> &Program {
        &self.program
    }

    /// The basic variables, in the order of the kernel.
    pub fn basic_variables(&self) -> &[usize] {
        &self.basis.variables
    }

    /// The value of a variable, and 0 past the last.
    #[inline]
    pub fn value(&self, variable: usize) -> i64 {
        self.sums.value(variable)
    }

    /// The dual of a row, and 0 past the last.
    #[inline]
    pub fn dual(&self, row: usize) -> i64 {
        self.sums.dual(row)
    }

    /// How many pivots were made.
    pub fn pivots(&self) -> u32 {
        self.progress.pivots
    }

    /// Solves for the active rows, given the left side by basic variables.
    pub fn solve_rows(&self, alloc: Global, side: &[Entry]) -> Result<Vec<Entry>, AllocError> {
        self.kernel.solve_rows(alloc, side)
    }

    /// Gives a variable the value of its end.
    pub(crate) fn go_to_end(&mut self, variable: usize) {
        let value = if at(&self.at_high, variable, false) {
            self.program.variable(variable).width
        } else {
            0
        };
        self.sums.set_value(&self.program, variable, value);
    }

    /// A variable that leaves by no pivot is meant for the nearer end of its box.
    pub(crate) fn choose_nearer_end(&mut self, variable: usize) {
        let half = self.program.variable(variable).width / 2;
        let is_high = self.sums.value(variable) > half;
        put(&mut self.at_high, variable, is_high);
    }

    /// Keeps a column, if there is one, from leaving for some pivots.
    pub(crate) fn bar(&mut self, column: Option<Column>, wait: u32) {
        if let Some(column) = column {
            let until = self.progress.pivots.saturating_add(wait);
            self.bars.bar(column, until);
        }
    }
}

/// The parts of the state that are no more than rooms.
fn rooms(
    alloc: Global,
    variables: usize,
    rows: usize,
) -> Result<(Marks, Bars, RowSums), AllocError> {
    let broken = Marks::new(alloc, rows)?;
    let bars = Bars::new(alloc, variables, rows)?;
    let row_sums = RowSums::new(alloc, variables)?;
    Ok((broken, bars, row_sums))
}
