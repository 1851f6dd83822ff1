//! Programs in memory.

ghost use Rattle.std.specs.Prelude.{◌≡◌, ◌≢◌, ◌<◌, ◌^◌, ◌↔◌, unsigned_abs, Some, IfSome, IsTrue};
ghost use Rattle.exact_num.specs.Fraction.{IsShort};

use exact_run::End;

/// A linear program whose columns lie between ends: the variables first, then a column for each row, which stands for the row's value.
#[derive(Debug, Drop)]
pub struct BoundedProgram {
    pub variables: Vec<Variable>,
    pub rows: Vec<BoundedRow>,
}

/// A variable: its ends, and what one of it costs.
#[derive(Clone, Copy, Debug)]
pub struct Variable {
    pub low: i128,
    pub high: i128,
    pub cost: i128,
    pub ghost short_low: { IsShort low },
    pub ghost short_high: { IsShort high },
    pub ghost short_cost: { IsShort cost },
}

/// `constant` plus the terms is equal to 0, or at least 0 where `equal` is false. Terms stand in rising order of variables.
#[derive(Debug, Drop)]
pub struct BoundedRow {
    pub equal: bool,
    pub constant: i128,
    pub terms: Vec<Coefficient>,
}

/// A variable's coefficient in a row.
#[derive(Clone, Copy, Debug)]
pub struct Coefficient {
    pub variable: usize,
    pub value: i128,
    pub ghost short: { IsShort value },
}

impl BoundedProgram {
    ghost use Rattle.exact_run.specs.Programs as programs;
    ghost use Rattle.exact_pivots.specs.Views.{program_of};

    /// The low end of a column.
    pub fn low_end(&self, column: usize) -> i128
        ensures value { result ≡ programs.low_end (program_of self.now) column }
        ensures short { IsShort result }
    {
        if column < self.variables.len() {
            self.variables[column].low
        } else {
            0
        }
    }

    /// The high end of a column, if it has one.
    pub fn high_end(&self, column: usize) -> Option<i128>
        requires { column < programs.columns (program_of self.now) }
        ensures value { result ≡ programs.high_end (program_of self.now) column }
        ensures short { IfSome result (λ z. IsShort z) }
    {
        let count = self.variables.len();
        if column < count {
            return Some(self.variables[column].high);
        }
        if self.rows[column - count].equal {
            Some(0)
        } else {
            None
        }
    }

    /// The value of a column that stands at an end.
    pub fn end_value(&self, column: usize, end: End) -> i128
        requires { column < programs.columns (program_of self.now) }
        ensures value { result ≡ programs.end_value (program_of self.now) column end }
        ensures short { IsShort result }
    {
        match end {
            End::Low => self.low_end(column),
            End::High => self.high_end(column).unwrap_or(0),
        }
    }

    /// Whether a column's ends differ.
    pub fn can_move(&self, column: usize) -> bool
        requires { column < programs.columns (program_of self.now) }
        ensures { IsTrue result ↔ (programs.high_end (program_of self.now) column ≢ Some (programs.low_end (program_of self.now) column)) }
    {
        match self.high_end(column) {
            Some(high) => high != self.low_end(column),
            None => true,
        }
    }
}
