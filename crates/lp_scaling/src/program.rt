//! The program that the pivots work on: the box within the unit box, rows and costs scaled by powers of two.
//!
//! A variable is its low end plus a power of two times a value from 0 to at most 1; each row and all costs together are
//! brought to numbers of at most 1. Then one tolerance serves all.

use crate::scaling::{Merged, RowOnBox, Widths, range_of};
use linear_program::{Lp, LpRow, Term};
use lp_sparse::fixed::{COEF_BITS, DUAL_BITS, VALUE_BITS, bit_length, clamped, rounded, shifted};
use lp_sparse::lookup::at;
use lp_sparse::{Entry, Sparse};
use std::alloc::{AllocError, Global};

/// The bits behind the point of the scaled numbers.
const COEF_UNIT: i32 = COEF_BITS as i32;

const VALUE_UNIT: i32 = VALUE_BITS as i32;

const COST_UNIT: i32 = (COEF_BITS + DUAL_BITS) as i32;

const CONSTANT_UNIT: i32 = (COEF_BITS + VALUE_BITS) as i32;

/// The scaled program. Each row of the `Lp` has one here, with no entries where it holds all over the box. The costs of the
/// `Lp` are `2^cost_exponent` times the scaled ones.
#[derive(Drop)]
pub struct Program {
    pub rows: Vec<Row>,
    pub variables: Vec<Variable>,
    pub by_row: Sparse,
    pub by_variable: Sparse,
    pub cost_exponent: i32,
}

/// A row of the `Lp`, which is `2^exponent` times the scaled one.
#[derive(Clone, Copy)]
pub struct Row {
    /// It does not hold all over the box.
    pub is_open: bool,
    pub equal: bool,
    pub exponent: i32,
    pub constant: i128,
    /// The constant with as many bits as a value.
    pub short_constant: i64,
}

/// A variable of the `Lp`, which is its low end plus `2^exponent` times a value from 0 to `width`.
#[derive(Clone, Copy)]
pub struct Variable {
    pub exponent: i32,
    pub width: i64,
    pub cost: i128,
}

/// What scaling finds.
#[derive(Drop)]
pub enum Scaled {
    Program(Program),
    /// No point of the box meets this row: its activity is below 0 or, where `sign` is -1, above 0.
    NoPoint { row: usize, sign: i128 },
}

/// Scales a program, up to a row that no point meets.
pub fn scale(alloc: Global, lp: &Lp) -> Result<Scaled, AllocError> {
    let widths = Widths::new(alloc, lp)?;
    let mut program = Program::without_rows(alloc, lp, &widths)?;
    let mut merged = Merged::new(alloc, lp.low.len())?;
    for (place, row) in lp.rows.iter().enumerate() {
        merged.read(row, &widths)?;
        match range_of(lp, row, merged.terms(), &widths) {
            RowOnBox::Below => return Ok(Scaled::NoPoint {
                row: place,
                sign: 1,
            }),
            RowOnBox::Above => return Ok(Scaled::NoPoint {
                row: place,
                sign: -1,
            }),
            RowOnBox::Idle => program.add_idle_row(row)?,
            RowOnBox::Open { at_low } => {
                program.add_row(row, merged.terms(), at_low, &widths)?;
            }
        }
    }
    program.by_variable = program.by_row.transposed(alloc, program.variables.len())?;
    Ok(Scaled::Program(program))
}

/// The exponent that brings each cost to at most 1, and 0 where nothing costs.
fn cost_exponent(lp: &Lp, widths: &Widths) -> i32 {
    let mut most: Option<i32> = None;
    for (variable, cost) in lp.cost.iter().enumerate() {
        if *cost != 0 && widths.width(variable) > 0 {
            let exponent = bit_length(*cost).saturating_add(widths.exponent(variable));
            most = Some(most.map_or(exponent, |seen| seen.max(exponent)));
        }
    }
    most.unwrap_or(0)
}

impl Program {
    fn without_rows(alloc: Global, lp: &Lp, widths: &Widths) -> Result<Program, AllocError> {
        let cost_exponent = cost_exponent(lp, widths);
        let mut variables = Vec::with_capacity(alloc, lp.low.len())?;
        for variable in 0..lp.low.len() {
            let exponent = widths.exponent(variable);
            let unit = VALUE_UNIT.saturating_sub(exponent);
            let width = clamped(shifted(widths.width(variable), unit));
            let unit = exponent.saturating_sub(cost_exponent);
            let grown = unit.saturating_add(COST_UNIT);
            let cost = if width > 0 {
                at(&lp.cost, variable, 0)
            } else {
                0
            };
            variables.push(Variable {
                exponent,
                width,
                cost: shifted(cost, grown),
            })?;
        }
        Ok(Program {
            rows: Vec::new(alloc),
            variables,
            by_row: Sparse::new(alloc),
            by_variable: Sparse::new(alloc),
            cost_exponent,
        })
    }

    fn add_row(
        &mut self,
        row: &LpRow,
        terms: &[Term],
        at_low: i128,
        widths: &Widths,
    ) -> Result<(), AllocError> {
        let exponent = widths.row_exponent(terms);
        for term in terms {
            let variable = term.var as usize;
            let unit = widths.exponent(variable).saturating_sub(exponent);
            let grown = unit.saturating_add(COEF_UNIT);
            let value = clamped(shifted(term.coef, grown));
            if value != 0 {
                let place = variable;
                self.by_row.push_entry(Entry { place, value })?;
            }
        }
        self.by_row.end_line()?;
        let unit = CONSTANT_UNIT.saturating_sub(exponent);
        let constant = shifted(at_low, unit);
        let short_constant = rounded(constant, COEF_BITS);
        self.rows.push(Row {
            is_open: true,
            equal: row.equal,
            exponent,
            constant,
            short_constant,
        })?;
        Ok(())
    }

    fn add_idle_row(&mut self, row: &LpRow) -> Result<(), AllocError> {
        self.by_row.end_line()?;
        self.rows.push(Row {
            is_open: false,
            equal: row.equal,
            exponent: 0,
            constant: 0,
            short_constant: 0,
        })?;
        Ok(())
    }

    /// A row, or past the end one of no effect.
    #[inline]
    pub fn row(&self, row: usize) -> Row {
        let none = Row {
            is_open: false,
            equal: false,
            exponent: 0,
            constant: 0,
            short_constant: 0,
        };
        at(&self.rows, row, none)
    }

    /// A variable, or past the end one of no effect.
    #[inline]
    pub fn variable(&self, variable: usize) -> Variable {
        at(
            &self.variables,
            variable,
            Variable {
                exponent: 0,
                width: 0,
                cost: 0,
            },
        )
    }

    /// The entries of a row, by variable.
    #[inline]
    pub fn row_line(&self, row: usize) -> &[Entry] {
        self.by_row.line(row)
    }

    /// The entries of a variable, by row.
    #[inline]
    pub fn variable_line(&self, variable: usize) -> &[Entry] {
        self.by_variable.line(variable)
    }
}
