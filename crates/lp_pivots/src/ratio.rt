//! The row of the leaving column, and the choice of the entering one by a ratio test that passes over box flips.
//!
//! Reduced costs may give way by a tolerance, so that of several columns that block at nearly the same step the one of the
//! largest number enters (P. M. J. Harris, Pivot selection methods of the Devex LP code, 1973). A variable that blocks and
//! whose whole box takes up less than the violation goes to its other end, and the step goes on (the long step of R.
//! Gabasov, F. M. Kirillova and O. I. Kostyukova, 1979; I. Maros, A generalized dual phase-2 simplex algorithm, 2003).

use crate::price::Leaving;
use crate::simplex::{HARRIS, PRIMAL_TOLERANCE, Simplex};
use lp_factors::Column;
use lp_sparse::Entry;
use lp_sparse::fixed::{
    COEF_BITS, KERNEL_BITS, LOST_BITS, ONE, VALUE_BITS, product, rounded, signed,
};
use lp_sparse::lookup::at;
use std::alloc::{AllocError, Global};

/// The part of a row's norm that its violation may be by the tolerances of the values alone.
const NOISE: i64 = PRIMAL_TOLERANCE * 2;

/// The row of the basis inverse that belongs to the leaving column.
#[derive(Drop)]
pub struct PivotRow {
    /// By active rows.
    pub active: Vec<Entry>,
    /// By variables that are not basic.
    pub structural: Vec<Entry>,
    /// The largest of all, at least 1.
    pub norm: i64,
}

impl PivotRow {
    /// A violation up to this may be nothing but the tolerances of the values.
    pub fn noise(&self) -> i128 {
        product(NOISE, self.norm) >> KERNEL_BITS
    }

    /// Numbers up to this are not told from 0.
    fn floor(&self) -> i64 {
        (self.norm >> 30).max(16384)
    }
}

/// The column that enters, and its number in the pivot row.
#[derive(Clone, Copy)]
pub struct Entering {
    pub column: Column,
    pub alpha: i64,
}

impl Entering {
    /// The pivot is below 2^-14, so that a stale inverse is not to be trusted with it.
    pub fn is_tiny(self) -> bool {
        self.alpha.wrapping_abs() < 67_108_864
    }
}

/// A column that can take up the violation, at `room / size` of it.
#[derive(Clone, Copy)]
struct Candidate {
    room: i64,
    size: i64,
    entering: Entering,
}

impl Candidate {
    /// It comes before the other, or at the same time.
    #[inline]
    fn is_first(self, other: Candidate) -> bool {
        product(self.room, other.size) <= product(other.room, self.size)
    }
}

impl Simplex {
    /// The row of the leaving column: its active part by a solve, the rest by the rows that this touches.
    pub(crate) fn pivot_row(
        &mut self,
        alloc: Global,
        leaving: &Leaving,
    ) -> Result<PivotRow, AllocError> {
        let active = self.active_part(alloc, leaving.column)?;
        for entry in active.iter() {
            self.add_row_sum(entry.place, i128::from(entry.value.wrapping_neg()));
        }
        if let Column::Slack(row) = leaving.column {
            self.add_row_sum(row, i128::from(ONE));
        }
        let mut norm = ONE;
        for entry in active.iter() {
            norm = norm.max(entry.value.wrapping_abs());
        }
        let mut structural = Vec::with_capacity(alloc, self.row_sums.places.len())?;
        for turn in 0..self.row_sums.places.len() {
            let place = self.row_sums.places.place(turn);
            if self.basis.is_basic(place) {
                continue;
            }
            let value = rounded(at(&self.row_sums.sums, place, 0), COEF_BITS);
            if value != 0 {
                norm = norm.max(value.wrapping_abs());
                structural.push(Entry { place, value })?;
            }
        }
        self.row_sums.places.clear();
        Ok(PivotRow {
            active,
            structural,
            norm,
        })
    }

    /// Adds `factor` times a row to the sums.
    fn add_row_sum(&mut self, row: usize, factor: i128) {
        if factor == 0 {
            return;
        }
        for entry in self.program.row_line(row) {
            let part = factor.wrapping_mul(i128::from(entry.value));
            self.row_sums.add(entry.place, part);
        }
    }

    /// The pivot row over the active rows.
    fn active_part(&self, alloc: Global, leaving: Column) -> Result<Vec<Entry>, AllocError> {
        match leaving {
            Column::Structural(variable) => {
                let place = variable;
                let unit = Entry { place, value: ONE };
                self.kernel.solve_rows(alloc, &[unit])
            }
            Column::Slack(row) => {
                let mut side = Vec::new(alloc);
                for entry in self.program.row_line(row) {
                    if self.basis.is_basic(entry.place) {
                        side.push(*entry)?;
                    }
                }
                let mut solved = self.kernel.solve_rows(alloc, &side)?;
                for entry in solved.iter_mut() {
                    entry.value = rounded(i128::from(entry.value), LOST_BITS);
                }
                Ok(solved)
            }
        }
    }

    /// The column that blocks, where variables whose box is used up on the way only go to their other end.
    pub(crate) fn ratio_test(
        &self,
        alloc: Global,
        leaving: &Leaving,
        row: &PivotRow,
    ) -> Result<Option<Entering>, AllocError> {
        let mut candidates = self.candidates(alloc, leaving.is_below, row)?;
        let noise = row.noise();
        let mut slope = i128::from(leaving.violation);
        for _ in 0..candidates.len() {
            let Some(first) = first_of(&candidates) else {
                break;
            };
            let group = self.group(&candidates, first);
            let rest = slope.saturating_sub(group.flips);
            if group.has_slack || rest <= noise {
                return Ok(Some(group.best.entering));
            }
            slope = rest;
            candidates.retain(|candidate| !candidate.is_first(first));
        }
        Ok(None)
    }

    /// The columns that can take up the violation.
    fn candidates(
        &self,
        alloc: Global,
        is_below: bool,
        row: &PivotRow,
    ) -> Result<Vec<Candidate>, AllocError> {
        let floor = row.floor();
        let mut candidates = Vec::new(alloc);
        for entry in row.structural.iter() {
            let variable = entry.place;
            let is_high = at(&self.at_high, variable, false);
            let size = signed(entry.value, is_high != is_below);
            if size > floor {
                let room = signed(self.sums.reduced_cost(variable), !is_high);
                let column = Column::Structural(variable);
                candidates.push(with_slack(column, entry.value, size, room))?;
            }
        }
        for entry in row.active.iter() {
            let size = signed(entry.value, is_below);
            if size > floor && !self.program.row(entry.place).equal {
                let room = self.sums.dual(entry.place);
                let column = Column::Slack(entry.place);
                candidates.push(with_slack(column, entry.value, size, room))?;
            }
        }
        Ok(candidates)
    }

    /// The candidates that come with the first.
    fn group(&self, candidates: &[Candidate], first: Candidate) -> Group {
        let mut group = Group {
            best: Candidate { size: -1, ..first },
            flips: 0,
            has_slack: false,
        };
        for candidate in candidates {
            if !candidate.is_first(first) {
                continue;
            }
            match candidate.entering.column {
                Column::Structural(variable) => {
                    let width = self.program.variable(variable).width;
                    let flip = product(candidate.size, width) >> VALUE_BITS;
                    group.flips = group.flips.wrapping_add(flip);
                }
                Column::Slack(_) => group.has_slack = true,
            }
            if candidate.size > group.best.size {
                group.best = *candidate;
            }
        }
        group
    }
}

/// Candidates of one key: the largest of them, and what flips of all would take from the violation.
#[derive(Clone, Copy)]
struct Group {
    best: Candidate,
    flips: i128,
    has_slack: bool,
}

fn with_slack(column: Column, alpha: i64, size: i64, room: i64) -> Candidate {
    let entering = Entering { column, alpha };
    Candidate {
        room: room.max(0).saturating_add(HARRIS),
        size,
        entering,
    }
}

/// The first candidate of the least key.
fn first_of(candidates: &[Candidate]) -> Option<Candidate> {
    let mut first: Option<Candidate> = None;
    for candidate in candidates {
        let is_less = match first {
            Some(least) => !least.is_first(*candidate),
            None => true,
        };
        if is_less {
            first = Some(*candidate);
        }
    }
    first
}
