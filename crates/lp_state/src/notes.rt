//! What the method notes on its way: columns that may not leave, room for a row's sums, the best bound, and how far it has come.

use lp_factors::Column;
use lp_sparse::lookup::{at, put};
use lp_sparse::{Entry, Marks};
use std::alloc::{AllocError, Global};

/// Below every bound.
pub const NO_BOUND: i128 = -85_070_591_730_234_615_865_843_651_857_942_052_864;

/// The number of pivots before which a column can't leave.
#[derive(Drop)]
pub struct Bars {
    variables: Vec<u32>,
    rows: Vec<u32>,
}

/// Room for the sums of a pivot row.
#[derive(Drop)]
pub struct RowSums {
    pub sums: Vec<i128>,
    pub places: Marks,
}

/// The duals of the best bound so far, and the values that came with them.
#[derive(Drop)]
pub struct Best {
    pub bound: i128,
    pub duals: Vec<Entry>,
    pub values: Vec<i64>,
    /// The duals are newer than the values.
    pub waits: bool,
}

/// How far the method has come, and what it has met with.
#[derive(Drop)]
pub struct Progress {
    pub pivots: u32,
    pub last_gain: u32,
    /// How often the numbers were too rough.
    pub troubles: u32,
    /// A pivot of the factors has to be at least 2^-threshold.
    pub threshold: u32,
    /// The factors are new, with no pivot since.
    pub fresh: bool,
    /// The basis stands, and only the choice of the leaving column is made again.
    pub reprice: bool,
    pub last_leaving: Option<Column>,
    /// The costs are moved at random, and single ones by a shift.
    pub is_moved: bool,
    pub is_shifted: bool,
    pub moves: u32,
    pub restores: u32,
}

impl Bars {
    /// No column is barred.
    pub fn new(alloc: Global, variables: usize, rows: usize) -> Result<Bars, AllocError> {
        Ok(Bars {
            variables: vec![in alloc; 0u32; variables]?,
            rows: vec![in alloc; 0u32; rows]?,
        })
    }

    /// Whether a column can't leave after so many pivots.
    pub fn is_barred(&self, column: Column, pivots: u32) -> bool {
        let until = match column {
            Column::Structural(variable) => at(&self.variables, variable, 0),
            Column::Slack(row) => at(&self.rows, row, 0),
        };
        until > pivots
    }

    /// A column can't leave before so many pivots.
    pub fn bar(&mut self, column: Column, until: u32) {
        match column {
            Column::Structural(variable) => put(&mut self.variables, variable, until),
            Column::Slack(row) => put(&mut self.rows, row, until),
        }
    }
}

impl RowSums {
    /// Nothing was summed.
    pub fn new(alloc: Global, variables: usize) -> Result<RowSums, AllocError> {
        Ok(RowSums {
            sums: vec![in alloc; 0i128; variables]?,
            places: Marks::new(alloc, variables)?,
        })
    }

    /// Adds a number to the sum at a place.
    #[inline]
    pub fn add(&mut self, place: usize, number: i128) {
        if self.places.mark(place) {
            put(&mut self.sums, place, number);
        } else if place < self.sums.len() {
            self.sums[place] = self.sums[place].wrapping_add(number);
        }
    }
}

impl Best {
    /// There is no bound yet.
    pub fn new(alloc: Global) -> Best {
        Best {
            bound: NO_BOUND,
            duals: Vec::new(alloc),
            values: Vec::new(alloc),
            waits: true,
        }
    }
}

impl Progress {
    /// No pivot was made.
    pub fn new() -> Progress {
        Progress {
            pivots: 0,
            last_gain: 0,
            troubles: 0,
            threshold: 18,
            fresh: true,
            reprice: false,
            last_leaving: None,
            is_moved: false,
            is_shifted: false,
            moves: 0,
            restores: 0,
        }
    }

    /// The pivots since the last gain.
    pub fn idle(&self) -> u32 {
        self.pivots.saturating_sub(self.last_gain)
    }

    /// The numbers will not get better.
    pub fn is_hopeless(&self) -> bool {
        self.threshold < 6 || self.troubles >= 60 || (self.troubles >= 10 && self.idle() > 20)
    }
}
