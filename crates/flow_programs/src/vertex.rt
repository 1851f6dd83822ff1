//! The vertex of a flow program, exactly.
//!
//! A basis names the flows that lie strictly between their ends and the rows that bind: as many equations as unknowns, once
//! the other flows stand at their ends. They are solved by Gauss and Jordan in exact fractions. Where a fraction leaves 128
//! bits, or the flows need a greater base than a plan may have, there is no vertex.

use crate::program::SmallProgram;
use exact_num::Frac;
use linear_program::Advice;
use lp_sparse::lookup::{at, put};
use std::alloc::{AllocError, Global};

/// The greatest flow base of a plan.
const MAX_FLOW_BASE: i128 = 65_536;

/// The most unknowns that are solved for.
const MAX_UNKNOWNS: usize = 64;

/// Flows over a base of their own, by out and by direct.
#[derive(Drop)]
pub struct Vertex {
    pub base: u32,
    pub outflows: Vec<u64>,
    pub directs: Vec<u64>,
}

/// Equations in some columns of a program; the last number of each is its right side.
#[derive(Drop)]
struct Equations {
    cells: Vec<Frac>,
    rows: usize,
    width: usize,
    zero: Frac,
}

/// The basis of an advice: the unknown columns, the rows that bind, and where each column stands that is not unknown.
#[derive(Drop)]
struct Basis {
    columns: Vec<usize>,
    rows: Vec<usize>,
    ends: Vec<i128>,
    /// For each column its place among the unknown ones.
    places: Vec<usize>,
}

/// The vertex where an advice on a program ended, if it can be had. The program's first columns are the outs.
pub fn vertex_of(
    alloc: Global,
    program: &SmallProgram,
    advice: &Advice,
    outs: usize,
) -> Result<Option<Vertex>, AllocError> {
    let basis = Basis::new(alloc, program, advice)?;
    if basis.columns.len() > MAX_UNKNOWNS || basis.rows.len() < basis.columns.len() {
        return Ok(None);
    }
    let equations = match Frac::new(0, 1) {
        Err(_) => return Ok(None),
        Ok(zero) => Equations::new(alloc, program, &basis, zero)?,
    };
    match equations {
        None => Ok(None),
        Some(mut equations) => match equations.solve() {
            None => Ok(None),
            Some(_) => flows_of(alloc, &basis, &equations, outs),
        },
    }
}

impl Basis {
    fn new(alloc: Global, program: &SmallProgram, advice: &Advice) -> Result<Basis, AllocError> {
        let count = program.variable_count();
        let mut basis = Basis {
            columns: Vec::new(alloc),
            rows: Vec::new(alloc),
            ends: Vec::new(alloc),
            places: vec![in alloc; usize::MAX; count]?,
        };
        for number in advice.basis.iter() {
            basis.add(*number as usize, count)?;
        }
        for column in 0..count {
            let high = program.high(column);
            let twice = at(&advice.point, column, 0).unbounded_shr(31);
            basis.ends.push(if twice >= high { high } else { 0 })?;
        }
        Ok(basis)
    }

    fn add(&mut self, number: usize, count: usize) -> Result<(), AllocError> {
        match number.checked_sub(count) {
            Some(row) => self.rows.push(row)?,
            None => {
                put(&mut self.places, number, self.columns.len());
                self.columns.push(number)?;
            }
        }
        Ok(())
    }
}

impl Equations {
    fn new(
        alloc: Global,
        program: &SmallProgram,
        basis: &Basis,
        zero: Frac,
    ) -> Result<Option<Equations>, AllocError> {
        let unknowns = basis.columns.len();
        let width = unknowns.saturating_add(1);
        let rows = basis.rows.len();
        let mut equations = Equations {
            cells: vec![in alloc; zero; rows.saturating_mul(width)]?,
            rows,
            width,
            zero,
        };
        for (row, number) in basis.rows.iter().enumerate() {
            if equations.read(program, basis, row, *number).is_none() {
                return Ok(None);
            }
        }
        Ok(Some(equations))
    }

    /// Reads a row of the program: what the known columns bring goes to the right side.
    fn read(
        &mut self,
        program: &SmallProgram,
        basis: &Basis,
        row: usize,
        number: usize,
    ) -> Option<()> {
        let mut known = program.constant(number);
        for term in program.terms(number) {
            let column = term.var as usize;
            let place = at(&basis.places, column, usize::MAX);
            if place < self.width {
                let more = Frac::new(term.coef, 1).ok()?;
                self.set(row, place, self.cell(row, place).add(more).ok()?);
            } else {
                let end = at(&basis.ends, column, 0);
                known = known.wrapping_add(term.coef.wrapping_mul(end));
            }
        }
        let last = self.width.wrapping_sub(1);
        self.set(row, last, Frac::new(known.wrapping_neg(), 1).ok()?);
        Some(())
    }

    fn cell(&self, row: usize, column: usize) -> Frac {
        let place = row.wrapping_mul(self.width).wrapping_add(column);
        at(&self.cells, place, self.zero)
    }

    fn set(&mut self, row: usize, column: usize, value: Frac) {
        let place = row.wrapping_mul(self.width).wrapping_add(column);
        put(&mut self.cells, place, value);
    }

    /// Solves for each unknown by the equation of its place; none where one has no pivot or a fraction is too long.
    fn solve(&mut self) -> Option<()> {
        for column in 0..self.width.wrapping_sub(1) {
            let pivot = self.find_pivot(column)?;
            self.swap(pivot, column);
            self.divide(column)?;
            for row in 0..self.rows {
                if row != column {
                    self.subtract(row, column)?;
                }
            }
        }
        Some(())
    }

    /// A row from its place on in which a column is not 0.
    fn find_pivot(&self, column: usize) -> Option<usize> {
        for row in column..self.rows {
            if self.cell(row, column).num() != 0 {
                return Some(row);
            }
        }
        None
    }

    fn swap(&mut self, row: usize, other: usize) {
        for column in 0..self.width {
            let number = self.cell(row, column);
            self.set(row, column, self.cell(other, column));
            self.set(other, column, number);
        }
    }

    /// Brings a row's pivot to 1.
    fn divide(&mut self, row: usize) -> Option<()> {
        let pivot = self.cell(row, row);
        for column in row..self.width {
            let number = self.cell(row, column);
            if number.num() != 0 {
                self.set(row, column, number.div(pivot).ok()?);
            }
        }
        Some(())
    }

    /// Takes the row of a pivot from another one, so often that the pivot's column is 0 there.
    fn subtract(&mut self, row: usize, pivot: usize) -> Option<()> {
        let times = self.cell(row, pivot);
        if times.num() == 0 {
            return Some(());
        }
        for column in pivot..self.width {
            let number = self.cell(pivot, column);
            if number.num() != 0 {
                let taken = number.mul(times).ok()?;
                self.set(row, column, self.cell(row, column).sub(taken).ok()?);
            }
        }
        Some(())
    }

    /// What was found for an unknown.
    fn value(&self, unknown: usize) -> Frac {
        self.cell(unknown, self.width.wrapping_sub(1))
    }
}

/// All flows over the least base that serves, if that is no more than a plan's may be and no flow is below 0.
fn flows_of(
    alloc: Global,
    basis: &Basis,
    equations: &Equations,
    outs: usize,
) -> Result<Option<Vertex>, AllocError> {
    let base = common_base(basis.columns.len(), equations);
    if base < 1 || base > MAX_FLOW_BASE {
        return Ok(None);
    }
    let mut outflows = Vec::new(alloc);
    let mut directs = Vec::new(alloc);
    for column in 0..basis.ends.len() {
        let flow = flow_at(basis, equations, base, column);
        if column < outs {
            outflows.push(flow)?;
        } else {
            directs.push(flow)?;
        }
    }
    Ok(Some(Vertex {
        base: u32::try_from(base).unwrap_or(1),
        outflows,
        directs,
    }))
}

/// A column's flow over the base: what was found for it, or its end.
fn flow_at(basis: &Basis, equations: &Equations, base: i128, column: usize) -> u64 {
    let unknown = at(&basis.places, column, usize::MAX);
    let flow = if unknown < basis.columns.len() {
        over_base(equations.value(unknown), base)
    } else {
        at(&basis.ends, column, 0).wrapping_mul(base)
    };
    flow.clamp(0, 4_611_686_018_427_387_904) as u64
}

/// The least common denominator of what was found, or 0 where it is too great.
fn common_base(unknowns: usize, equations: &Equations) -> i128 {
    let mut base = 1;
    for unknown in 0..unknowns {
        base = common_multiple(base, equations.value(unknown).den());
        if base > MAX_FLOW_BASE {
            return 0;
        }
    }
    base
}

/// The least common multiple of two numbers, or 0 where the second is greater than a flow base may be.
fn common_multiple(a: i128, b: i128) -> i128 {
    if b > MAX_FLOW_BASE {
        return 0;
    }
    match Frac::new(a, b) {
        Err(_) => 0,
        Ok(ratio) => a.wrapping_mul(ratio.den()),
    }
}

fn over_base(value: Frac, base: i128) -> i128 {
    let factor = base.checked_div(value.den()).unwrap_or(0);
    value.num().wrapping_mul(factor)
}
