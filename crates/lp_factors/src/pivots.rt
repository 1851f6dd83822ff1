//! Which pivot comes next.
//!
//! A row or a column of one entry makes no new entries, so those come first. Then it is the entry with the least product of
//! what else stands in its row and in its column (H. M. Markowitz, The elimination form of the inverse and its application
//! to linear programming, 1957), among those of at least an eighth of the largest of their column, in a few columns of the
//! least counts (U. H. Suhl and L. M. Suhl, Computing sparse LU factorizations for large-scale linear programming bases,
//! 1990).

use crate::elimination::{Single, Table};
use lp_sparse::NO_ENTRY;
use lp_sparse::lookup::{NOWHERE, at};

/// How many columns of the least count are looked at.
const MOST_COLUMNS: u32 = 6;

/// A step of the elimination.
#[derive(Clone, Copy)]
pub enum Step {
    Pivot { row: usize, column: usize },
    /// No number of this column is large enough.
    Drop { column: usize },
}

/// A row or a column of one entry, if there is one, and else the pivot that fills in least.
pub fn next_step(table: &mut Table) -> Option<Step> {
    for _ in 0..table.singles.len() {
        let Some(single) = table.singles.pop() else {
            break;
        };
        let step = match single {
            Single::Column(column) => single_column(table, column),
            Single::Row(row) => single_row(table, row),
        };
        if step.is_some() {
            return step;
        }
    }
    least_fill(table)
}

fn single_column(table: &mut Table, column: usize) -> Option<Step> {
    if !is_open(table, column, 1) {
        return None;
    }
    let rows = table.open_rows(column);
    if rows.len() != 1 {
        return None;
    }
    let row = at(rows, 0, NOWHERE);
    if table.number(row, column).wrapping_abs() < table.least {
        Some(Step::Drop { column })
    } else {
        Some(Step::Pivot { row, column })
    }
}

fn single_row(table: &mut Table, row: usize) -> Option<Step> {
    if at(&table.row_done, row, true) || table.line(row).len() != 1 {
        return None;
    }
    let entry = at(table.line(row), 0, NO_ENTRY);
    let size = entry.value.wrapping_abs();
    if size < table.least {
        return None;
    }
    let column = entry.place;
    if size >= greatest(table, column) >> 6 {
        Some(Step::Pivot { row, column })
    } else {
        None
    }
}

/// The greatest size in a column, over the rows that are not done.
fn greatest(table: &mut Table, column: usize) -> i64 {
    let mut most = 0i64;
    for turn in 0..table.open_rows(column).len() {
        let row = table.row_of(column, turn);
        most = most.max(table.number(row, column).wrapping_abs());
    }
    most
}

#[inline]
fn is_open(table: &Table, column: usize, count: usize) -> bool {
    !at(&table.column_done, column, true) && at(&table.column_counts, column, 0) == count
}

#[derive(Clone, Copy)]
struct Search {
    seen: u32,
    best: Option<Step>,
    fill: usize,
    too_small: Option<usize>,
}

fn least_fill(table: &mut Table) -> Option<Step> {
    let least = least_count(table)?;
    let mut search = Search {
        seen: 0,
        best: None,
        fill: usize::MAX,
        too_small: None,
    };
    search.look_at(table, least);
    search.look_at(table, least.saturating_add(1));
    match (search.best, search.too_small) {
        (Some(step), _) => Some(step),
        (None, Some(column)) => Some(Step::Drop { column }),
        (None, None) => None,
    }
}

fn least_count(table: &Table) -> Option<usize> {
    let mut least: Option<usize> = None;
    for (column, count) in table.column_counts.iter().enumerate() {
        if *count > 0 && !at(&table.column_done, column, true) {
            least = Some(least.map_or(*count, |seen| seen.min(*count)));
        }
    }
    least
}

impl Search {
    /// Looks at the columns of one count, up to one whose numbers are all too small.
    fn look_at(&mut self, table: &mut Table, count: usize) {
        for column in 0..table.column_counts.len() {
            if self.seen >= MOST_COLUMNS {
                break;
            }
            if is_open(table, column, count) {
                self.seen = self.seen.saturating_add(1);
                let most = greatest(table, column);
                if most < table.least {
                    self.too_small = Some(column);
                    break;
                }
                self.look_in(table, column, most >> 3);
            }
        }
    }

    /// Compares the entries of a column, of at least `floor`.
    fn look_in(&mut self, table: &Table, column: usize, floor: i64) {
        let count = at(&table.column_counts, column, 0).wrapping_sub(1);
        for turn in 0..table.column_len(column) {
            let row = table.row_of(column, turn);
            let size = table.number(row, column).wrapping_abs();
            if size < floor || size < table.least {
                continue;
            }
            let fill = table.line(row).len().wrapping_sub(1).wrapping_mul(count);
            if fill < self.fill {
                self.fill = fill;
                self.best = Some(Step::Pivot { row, column });
            }
        }
    }
}
