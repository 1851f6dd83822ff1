//! Values and duals, and the exact sums that belong to them.
//!
//! The reduced cost of a variable is its cost less the coefficients times the duals, the activity of a row its constant
//! plus the coefficients times the values. Both are kept up under each change of a dual or a value, with no rounding, so
//! they never drift and are never summed anew. A solve with the kernel need only be near: what it leaves over is read off
//! these sums, and corrected.

use lp_scaling::Program;
use lp_sparse::Marks;
use lp_sparse::fixed::{COEF_BITS, product, rounded};
use lp_sparse::lookup::{at, put};
use std::alloc::{AllocError, Global};

/// Values and duals, with the sums that follow them.
#[derive(Drop)]
pub struct Sums {
    pub values: Vec<i64>,
    pub duals: Vec<i64>,
    reduced_costs: Vec<i128>,
    activities: Vec<i128>,
    /// The costs as they stand, moved ones too.
    costs: Vec<i128>,
    /// The variables and the rows whose sums changed since they were looked at.
    pub changed_variables: Marks,
    pub changed_rows: Marks,
}

impl Sums {
    /// All values and duals are 0.
    pub fn new(alloc: Global, program: &Program) -> Result<Sums, AllocError> {
        let variables = program.variables.len();
        let rows = program.rows.len();
        let costs = costs_of(alloc, program)?;
        let changed_variables = Marks::new(alloc, variables)?;
        let changed_rows = Marks::new(alloc, rows)?;
        Ok(Sums {
            values: vec![in alloc; 0i64; variables]?,
            duals: vec![in alloc; 0i64; rows]?,
            reduced_costs: Vec::from_slice(alloc, &costs)?,
            activities: constants_of(alloc, program)?,
            costs,
            changed_variables,
            changed_rows,
        })
    }

    /// All sums are to be looked at.
    pub fn mark_all(&mut self) {
        for row in 0..self.activities.len() {
            self.changed_rows.mark(row);
        }
        for variable in 0..self.reduced_costs.len() {
            self.changed_variables.mark(variable);
        }
    }

    /// The value of a variable.
    #[inline]
    pub fn value(&self, variable: usize) -> i64 {
        at(&self.values, variable, 0)
    }

    /// The dual of a row.
    #[inline]
    pub fn dual(&self, row: usize) -> i64 {
        at(&self.duals, row, 0)
    }

    /// The reduced cost of a variable, with all its bits.
    #[inline]
    pub fn exact_reduced_cost(&self, variable: usize) -> i128 {
        at(&self.reduced_costs, variable, 0)
    }

    /// The reduced cost of a variable, as a dual.
    #[inline]
    pub fn reduced_cost(&self, variable: usize) -> i64 {
        rounded(self.exact_reduced_cost(variable), COEF_BITS)
    }

    /// The activity of a row, as a value.
    #[inline]
    pub fn activity(&self, row: usize) -> i64 {
        rounded(at(&self.activities, row, 0), COEF_BITS)
    }

    /// Gives a row another dual. No other method writes duals while the method runs.
    pub fn set_dual(&mut self, program: &Program, row: usize, dual: i64) {
        let change = dual.wrapping_sub(self.dual(row));
        if change == 0 {
            return;
        }
        put(&mut self.duals, row, dual);
        for entry in program.row_line(row) {
            let place = entry.place;
            if place < self.reduced_costs.len() {
                let part = product(entry.value, change);
                self.reduced_costs[place] = self.reduced_costs[place].wrapping_sub(part);
            }
            self.changed_variables.mark(place);
        }
    }

    /// Gives a variable another value. No other method writes values while the method runs.
    pub fn set_value(&mut self, program: &Program, variable: usize, value: i64) {
        let change = value.wrapping_sub(self.value(variable));
        if change == 0 {
            return;
        }
        put(&mut self.values, variable, value);
        for entry in program.variable_line(variable) {
            let place = entry.place;
            if place < self.activities.len() {
                let part = product(entry.value, change);
                self.activities[place] = self.activities[place].wrapping_add(part);
            }
            self.changed_rows.mark(place);
        }
    }

    /// Adds to a variable's cost, and so to its reduced cost.
    pub fn move_cost(&mut self, variable: usize, change: i128) {
        let cost = at(&self.costs, variable, 0);
        put(&mut self.costs, variable, cost.wrapping_add(change));
        let reduced_cost = at(&self.reduced_costs, variable, 0);
        put(
            &mut self.reduced_costs,
            variable,
            reduced_cost.wrapping_add(change),
        );
    }

    /// Gives each variable its own cost again.
    pub fn restore_costs(&mut self, program: &Program) {
        for (variable, own) in program.variables.iter().enumerate() {
            let moved = at(&self.costs, variable, 0);
            self.move_cost(variable, own.cost.wrapping_sub(moved));
            self.changed_variables.mark(variable);
        }
    }
}

fn costs_of(alloc: Global, program: &Program) -> Result<Vec<i128>, AllocError> {
    let mut costs = Vec::with_capacity(alloc, program.variables.len())?;
    for variable in program.variables.iter() {
        costs.push(variable.cost)?;
    }
    Ok(costs)
}

fn constants_of(alloc: Global, program: &Program) -> Result<Vec<i128>, AllocError> {
    let mut constants = Vec::with_capacity(alloc, program.rows.len())?;
    for row in program.rows.iter() {
        constants.push(row.constant)?;
    }
    Ok(constants)
}
