//! Rows of factors, made and read.

ghost use Rattle.std.specs.Prelude.{◌≡◌, ℕ, ◌+◌, pos, if◌then◌else◌, ◌==◌, OnOk};
ghost use Rattle.exact_num.specs.Views.{shown_frac};
ghost use Rattle.exact_run.specs.Operations as operations;
ghost use Rattle.exact_pivots.specs.Entries.{factor_at, AreRising};
ghost use Rattle.exact_pivots.specs.Factors.{factors_of, IsUnder};

use super::Factors;
use crate::entry::Entry;
use crate::wholes::whole;
use exact_num::Frac;
use std::alloc::{AllocError, Global};

impl Factors {
    /// No factor but 0.
    pub fn new(alloc: Global) -> Factors
        ensures zero { (j : ℕ) → factors_of result j ≡ operations.whole (pos 0) }
        ensures under { IsUnder 0 result }
    {
        Factors {
            entries: Vec::new(alloc),
        }
    }

    /// Sets the factor on a column past those that have one.
    pub fn push(&mut self, column: usize, value: Frac) -> Result<(), AllocError>
        requires { IsUnder column self.old }
        // Promise: A row of factors has each factor that it was given, and 0 on the other columns
        ensures factor { OnOk result ((j : ℕ) → factors_of self.new j ≡ (if column == j then shown_frac value else factors_of self.old j)) }
        ensures under { OnOk result (IsUnder (column + 1) self.new) }
    {
        if value.num() == 0 {
            return Ok(());
        }
        self.entries.push(Entry { column, value })?;
        Ok(())
    }

    /// The factor on a column.
    pub fn at(&self, column: usize) -> Frac
        ensures { shown_frac result ≡ factors_of self.now column }
    {
        let mut rest = self.entries.as_slice();
        while let Some((entry, later)) = rest.split_first() {
            if entry.column == column {
                return entry.value;
            }
            rest = later;
        }
        whole(0)
    }
}

impl Factors {
    /// The entries, in rising order of columns.
    pub fn entries(&self) -> &[Entry]
        ensures rising { AreRising 0 result.now }
        ensures factor { (j : ℕ) → factor_at result.now j ≡ factors_of self.now j }
    {
        self.entries.as_slice()
    }
}
