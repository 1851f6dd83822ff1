//! One factor of a row.

use exact_num::Frac;

/// A factor on a column.
#[derive(Clone, Copy, Debug, PartialEq, Eq)]
pub struct Entry {
    pub column: usize,
    pub value: Frac,
}
