//! The factoring of a sparse rectangle in fixed point, by Gaussian elimination.
//!
//! Each step takes the row of a pivot from the rows below it and keeps what it took. Rows and columns for which there is no
//! pivot of at least `least` stay out, so any rectangle leaves a square that can be solved with, be it an empty one.

use crate::factors::Factors;
use crate::pivots::{Step, next_step};
use lp_sparse::fixed::{clamped, inverse, kernel_product};
use lp_sparse::lookup::{NOWHERE, at, put};
use lp_sparse::{Entry, NO_ENTRY, Sparse, numbers_of};
use std::alloc::{AllocError, Global};
use std::mem;

/// Numbers below this are taken for 0 where they are left over: 2^-36.
const CANCELLED: i64 = 16;

/// A row or a column that may have one entry left.
#[derive(Clone, Copy)]
pub enum Single {
    Row(usize),
    Column(usize),
}

/// What is left to be factored, and what has been found.
#[derive(Drop)]
pub struct Table {
    pub rows: Vec<Vec<Entry>>,
    /// For each column the rows that have it. Rows that are done may still be there.
    pub columns: Vec<Vec<usize>>,
    /// How many rows that are not done have it.
    pub column_counts: Vec<usize>,
    pub row_done: Vec<bool>,
    pub column_done: Vec<bool>,
    pub singles: Vec<Single>,
    pub least: i64,
    /// For each column its turn in the row at work.
    turns: Vec<usize>,
    found: Found,
}

/// The factors with rows and columns by their old numbers.
#[derive(Drop)]
pub struct Found {
    pub rows: Vec<usize>,
    pub columns: Vec<usize>,
    inverses: Vec<i64>,
    lower: Sparse,
    upper: Sparse,
}

/// The factors, and for each pivot its row and its column.
#[derive(Drop)]
pub struct Factored {
    pub(crate) factors: Factors,
    pub rows: Vec<usize>,
    pub columns: Vec<usize>,
}

/// Factors `rows`, whose entries have places below `columns`.
pub fn factor(
    alloc: Global,
    rows: Vec<Vec<Entry>>,
    columns: usize,
    least: i64,
) -> Result<Factored, AllocError> {
    let mut table = Table::new(alloc, rows, columns, least)?;
    let steps = columns.saturating_add(columns);
    for _ in 0..steps {
        match next_step(&mut table) {
            Some(Step::Pivot { row, column }) => table.pivot(alloc, row, column)?,
            Some(Step::Drop { column }) => table.drop_column(alloc, column)?,
            None => break,
        }
    }
    let row_count = table.rows.len();
    table.found.numbered(alloc, row_count, columns)
}

impl Table {
    fn new(
        alloc: Global,
        rows: Vec<Vec<Entry>>,
        columns: usize,
        least: i64,
    ) -> Result<Table, AllocError> {
        let mut table = Table {
            row_done: vec![in alloc; false; rows.len()]?,
            rows,
            columns: Vec::new(alloc),
            column_counts: vec![in alloc; 0usize; columns]?,
            column_done: vec![in alloc; false; columns]?,
            singles: Vec::new(alloc),
            least,
            turns: vec![in alloc; NOWHERE; columns]?,
            found: Found::new(alloc),
        };
        for _ in 0..columns {
            table.columns.push(Vec::new(alloc))?;
        }
        table.fill_columns()?;
        table.list_singles()?;
        Ok(table)
    }

    fn fill_columns(&mut self) -> Result<(), AllocError> {
        for (row, line) in self.rows.iter().enumerate() {
            for entry in line.iter() {
                if let Some(column) = self.columns.get_mut(entry.place) {
                    column.push(row)?;
                    let count = at(&self.column_counts, entry.place, 0);
                    put(&mut self.column_counts, entry.place, count.wrapping_add(1));
                }
            }
        }
        Ok(())
    }

    fn list_singles(&mut self) -> Result<(), AllocError> {
        for (column, count) in self.column_counts.iter().enumerate() {
            if *count == 1 {
                self.singles.push(Single::Column(column))?;
            }
        }
        for (row, line) in self.rows.iter().enumerate() {
            if line.len() == 1 {
                self.singles.push(Single::Row(row))?;
            }
        }
        Ok(())
    }

    #[inline]
    pub fn line(&self, row: usize) -> &[Entry] {
        match self.rows.get(row) {
            Some(line) => line.as_slice(),
            None => &[],
        }
    }

    pub fn number(&self, row: usize, column: usize) -> i64 {
        for entry in self.line(row) {
            if entry.place == column {
                return entry.value;
            }
        }
        0
    }

    /// The rows of a column that are not done.
    pub fn open_rows(&mut self, column: usize) -> &[usize] {
        match self.columns.get_mut(column) {
            Some(rows) => {
                keep_open(rows, &self.row_done);
                rows.as_slice()
            }
            None => &[],
        }
    }

    pub fn column_len(&self, column: usize) -> usize {
        match self.columns.get(column) {
            Some(rows) => rows.len(),
            None => 0,
        }
    }

    /// A row of a column, by its turn there.
    pub fn row_of(&self, column: usize, turn: usize) -> usize {
        match self.columns.get(column) {
            Some(rows) => at(rows, turn, NOWHERE),
            None => NOWHERE,
        }
    }

    /// Takes a column from a row.
    fn erase(&mut self, row: usize, column: usize) -> Result<(), AllocError> {
        let Some(line) = self.rows.get_mut(row) else {
            return Ok(());
        };
        for turn in 0..line.len() {
            if at(line, turn, NO_ENTRY).place == column {
                if turn < line.len() {
                    let _entry = line.swap_remove(turn);
                }
                if line.len() == 1 {
                    self.singles.push(Single::Row(row))?;
                }
                return Ok(());
            }
        }
        Ok(())
    }

    /// Leaves a column out of the factors.
    fn drop_column(&mut self, alloc: Global, column: usize) -> Result<(), AllocError> {
        put(&mut self.column_done, column, true);
        let rows = self.take_open_rows(alloc, column);
        for row in rows.iter() {
            self.erase(*row, column)?;
        }
        Ok(())
    }

    fn take_open_rows(&mut self, alloc: Global, column: usize) -> Vec<usize> {
        match self.columns.get_mut(column) {
            Some(rows) => {
                keep_open(rows, &self.row_done);
                mem::replace(rows, Vec::new(alloc))
            }
            None => Vec::new(alloc),
        }
    }

    fn take_line(&mut self, alloc: Global, row: usize) -> Vec<Entry> {
        match self.rows.get_mut(row) {
            Some(line) => mem::replace(line, Vec::new(alloc)),
            None => Vec::new(alloc),
        }
    }

    /// Takes the pivot's row from each other row that has its column.
    fn pivot(&mut self, alloc: Global, row: usize, column: usize) -> Result<(), AllocError> {
        put(&mut self.row_done, row, true);
        put(&mut self.column_done, column, true);
        let inverse = inverse(self.number(row, column));
        let line = self.take_line(alloc, row);
        self.found.push_pivot(row, column, inverse)?;
        self.found.push_upper(&line, column)?;
        for entry in line.iter() {
            if entry.place != column {
                self.lower_count(entry.place)?;
            }
        }
        let others = self.take_open_rows(alloc, column);
        for other in others.iter() {
            let factor = kernel_product(self.number(*other, column), inverse);
            self.erase(*other, column)?;
            if factor != 0 {
                self.found.push_lower(*other, factor)?;
                if line.len() >= 2 {
                    self.subtract_line(*other, &line, column, factor)?;
                }
            }
        }
        self.found.lower.end_line()
    }

    /// Takes `factor` times the pivot's row from a row.
    fn subtract_line(
        &mut self,
        row: usize,
        pivot_line: &[Entry],
        column: usize,
        factor: i64,
    ) -> Result<(), AllocError> {
        let count = self.line(row).len();
        self.number_turns(row);
        for entry in pivot_line {
            if entry.place != column {
                let change = kernel_product(factor, entry.value);
                self.subtract_entry(row, entry.place, change)?;
            }
        }
        self.forget_turns(row, count);
        self.cancel(row)?;
        if self.line(row).len() == 1 {
            self.singles.push(Single::Row(row))?;
        }
        Ok(())
    }

    fn number_turns(&mut self, row: usize) {
        for turn in 0..self.line(row).len() {
            let place = at(self.line(row), turn, NO_ENTRY).place;
            put(&mut self.turns, place, turn);
        }
    }

    /// Forgets the turns of the first `count` entries of a row.
    fn forget_turns(&mut self, row: usize, count: usize) {
        for turn in 0..count {
            let place = at(self.line(row), turn, NO_ENTRY).place;
            put(&mut self.turns, place, NOWHERE);
        }
    }

    fn subtract_entry(&mut self, row: usize, place: usize, change: i64) -> Result<(), AllocError> {
        let turn = at(&self.turns, place, NOWHERE);
        let Some(line) = self.rows.get_mut(row) else {
            return Ok(());
        };
        if turn < line.len() {
            let rest = i128::from(line[turn].value).wrapping_sub(i128::from(change));
            let value = clamped(rest);
            line[turn] = Entry { place, value };
            return Ok(());
        }
        let value = change.wrapping_neg();
        line.push(Entry { place, value })?;
        if let Some(rows) = self.columns.get_mut(place) {
            rows.push(row)?;
        }
        let count = at(&self.column_counts, place, 0);
        put(&mut self.column_counts, place, count.wrapping_add(1));
        Ok(())
    }

    /// Takes the numbers that are left over from a row.
    fn cancel(&mut self, row: usize) -> Result<(), AllocError> {
        let mut turn = 0usize;
        for _ in 0..self.line(row).len() {
            let entry = at(self.line(row), turn, NO_ENTRY);
            if entry.value.wrapping_abs() >= CANCELLED {
                turn = turn.wrapping_add(1);
                continue;
            }
            if let Some(rows) = self.columns.get_mut(entry.place) {
                take_member(rows, row);
            }
            self.lower_count(entry.place)?;
            if let Some(line) = self.rows.get_mut(row)
                && turn < line.len()
            {
                let _entry = line.swap_remove(turn);
            }
        }
        Ok(())
    }

    fn lower_count(&mut self, column: usize) -> Result<(), AllocError> {
        let count = at(&self.column_counts, column, 0).wrapping_sub(1);
        put(&mut self.column_counts, column, count);
        if count == 1 {
            self.singles.push(Single::Column(column))?;
        }
        Ok(())
    }
}

fn keep_open(rows: &mut Vec<usize>, done: &[bool]) {
    rows.retain(|row| !at(done, *row, true));
}

fn take_member(rows: &mut Vec<usize>, member: usize) {
    for turn in 0..rows.len() {
        if at(rows, turn, NOWHERE) == member {
            if turn < rows.len() {
                let _row = rows.swap_remove(turn);
            }
            return;
        }
    }
}

impl Found {
    fn new(alloc: Global) -> Found {
        Found {
            rows: Vec::new(alloc),
            columns: Vec::new(alloc),
            inverses: Vec::new(alloc),
            lower: Sparse::new(alloc),
            upper: Sparse::new(alloc),
        }
    }

    fn push_pivot(&mut self, row: usize, column: usize, inverse: i64) -> Result<(), AllocError> {
        self.rows.push(row)?;
        self.columns.push(column)?;
        self.inverses.push(inverse)?;
        Ok(())
    }

    /// The row of a pivot without the pivot.
    fn push_upper(&mut self, line: &[Entry], column: usize) -> Result<(), AllocError> {
        for entry in line {
            if entry.place != column {
                self.upper.push_entry(*entry)?;
            }
        }
        self.upper.end_line()
    }

    fn push_lower(&mut self, place: usize, value: i64) -> Result<(), AllocError> {
        self.lower.push_entry(Entry { place, value })
    }

    /// The factors with rows and columns numbered by their pivots; what has no pivot stays out.
    fn numbered(
        self,
        alloc: Global,
        row_count: usize,
        column_count: usize,
    ) -> Result<Factored, AllocError> {
        let row_numbers = numbers_of(alloc, &self.rows, row_count)?;
        let lower = self.lower.renumbered(alloc, &row_numbers)?;
        let column_numbers = numbers_of(alloc, &self.columns, column_count)?;
        let upper = self.upper.renumbered(alloc, &column_numbers)?;
        let upper_by_column = upper.transposed(alloc, self.rows.len())?;
        Ok(Factored {
            factors: Factors {
                inverses: self.inverses,
                lower,
                upper,
                upper_by_column,
            },
            rows: self.rows,
            columns: self.columns,
        })
    }
}
