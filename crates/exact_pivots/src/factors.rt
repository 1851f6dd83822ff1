//! A row of factors, those that are not 0.

ghost use Rattle.exact_pivots.specs.Entries.{AreRising, AreRising-prop};

mod changed;
mod row;
mod solved;

use crate::entry::Entry;
pub(crate) use changed::added;

/// Factors by column: those that are not 0, in rising order of columns.
#[derive(Debug, Drop)]
pub struct Factors {
    entries: Vec<Entry>,
    pub ghost rising: { AreRising 0 entries.items } by { AreRising-prop 0 entries.items },
}
