//! A change of the basis: one more row and one more column of the border.
//!
//! The number in the corner of the new row and column, less what the rest explains of it, has to be the pivot of the change
//! once more, up to its sign. That is a test of the factors that costs nothing.

use crate::border::{Edge, MOST_CHANGES, NewLine, rounded_sum, short_dot};
use crate::kernel::Kernel;
use lp_sparse::fixed::{LOST_BITS, ONE, clamped, rounded};
use lp_sparse::lookup::{NOWHERE, at, put};
use lp_sparse::{Entry, Sparse};
use std::alloc::{AllocError, Global};

/// A corner below this is too small: 2^-20.
const LEAST_CORNER: i64 = 1_048_576;

/// A column of the method: a variable, or the slack of a row.
#[derive(Clone, Copy)]
pub enum Column {
    Structural(usize),
    Slack(usize),
}

/// One column leaves the basis, another enters, and `alpha` is the number of both.
#[derive(Clone, Copy)]
pub struct Change {
    pub leaving: Column,
    pub entering: Column,
    pub alpha: i64,
}

/// What a change of the basis asks for.
#[derive(Clone, Copy, PartialEq, Eq)]
pub enum Outcome {
    Done,
    /// The border is full.
    Full,
    /// The corner is not the pivot, so the factors are too rough.
    Failed,
}

impl Kernel {
    /// Adds a change to the border. The entering column is the one that was solved for last.
    pub fn extend(
        &mut self,
        alloc: Global,
        table: &Sparse,
        change: Change,
    ) -> Result<Outcome, AllocError> {
        let size = self.border.len();
        let base = self.base_size();
        if size >= MOST_CHANGES || size >= (base / 3).saturating_add(8) {
            return Ok(Outcome::Full);
        }
        let mut new = NewLine {
            numbers: vec![in alloc; 0i64; size]?,
            corner: 0,
        };
        let line = self.edge_line(alloc, table, change, &mut new)?;
        let column = scattered(alloc, &self.entering_base, base)?;
        self.border.reduce(alloc, &mut new, &line, &column)?;
        let part = rounded_sum(short_dot(&new.numbers, &self.entering_border));
        let corner = clamped(new.corner.wrapping_sub(part));
        if !is_pivot(corner, change.alpha) {
            return Ok(Outcome::Failed);
        }
        let numbers = self.border.times_inverse(alloc, &new.numbers)?;
        self.border.grow(&self.entering_border, &numbers, corner);
        self.push_edge(alloc, change, line)?;
        Ok(Outcome::Done)
    }

    /// The entries of a new edge's row by column of the base, and those past the base.
    fn edge_line(
        &self,
        alloc: Global,
        table: &Sparse,
        change: Change,
        new: &mut NewLine,
    ) -> Result<Vec<Entry>, AllocError> {
        let mut line = Vec::new(alloc);
        match change.leaving {
            Column::Slack(row) => {
                for entry in table.line(row) {
                    let value = rounded(i128::from(entry.value), LOST_BITS);
                    let place = at(&self.places.in_base, entry.place, NOWHERE);
                    if place != NOWHERE {
                        line.push(Entry { place, value })?;
                    }
                    self.add_border_entry(change.entering, entry.place, value, new);
                }
            }
            Column::Structural(variable) => {
                let place = at(&self.places.of_variables, variable, NOWHERE);
                if place < self.base_size() {
                    line.push(Entry { place, value: ONE })?;
                } else {
                    put(&mut new.numbers, place.wrapping_sub(self.base_size()), ONE);
                }
            }
        }
        Ok(line)
    }

    /// The number of a variable in a new edge's row, where that variable is in the border or enters.
    fn add_border_entry(&self, entering: Column, variable: usize, value: i64, new: &mut NewLine) {
        for (number, edge) in new.numbers.iter_mut().zip(self.border.edges.iter()) {
            if edge.variable.unwrap_or(NOWHERE) == variable {
                *number = value;
            }
        }
        if let Column::Structural(own) = entering
            && own == variable
        {
            new.corner = i128::from(value);
        }
    }

    fn push_edge(
        &mut self,
        alloc: Global,
        change: Change,
        line: Vec<Entry>,
    ) -> Result<(), AllocError> {
        let place = self.base_size().wrapping_add(self.border.len());
        let mut row = None;
        let mut variable = None;
        match change.leaving {
            Column::Slack(new) => {
                row = Some(new);
                put(&mut self.places.of_rows, new, place);
            }
            Column::Structural(old) => put(&mut self.places.of_variables, old, NOWHERE),
        }
        match change.entering {
            Column::Structural(new) => {
                variable = Some(new);
                put(&mut self.places.of_variables, new, place);
            }
            Column::Slack(old) => put(&mut self.places.of_rows, old, NOWHERE),
        }
        let column = Vec::from_slice(alloc, &self.entering_base)?;
        self.border.push(Edge {
            row,
            variable,
            line,
            column,
        })
    }
}

/// The corner is the pivot a second time, up to its sign.
fn is_pivot(corner: i64, alpha: i64) -> bool {
    let size = corner.wrapping_abs();
    let wanted = alpha.wrapping_abs();
    let off = size.wrapping_sub(wanted).wrapping_abs();
    size >= LEAST_CORNER && off <= (wanted >> 10).saturating_add(4096)
}

fn scattered(alloc: Global, entries: &[Entry], count: usize) -> Result<Vec<i64>, AllocError> {
    let mut numbers = vec![in alloc; 0i64; count]?;
    for entry in entries {
        put(&mut numbers, entry.place, entry.value);
    }
    Ok(numbers)
}
