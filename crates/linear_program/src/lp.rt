//! Linear programs over a box.

ghost use Rattle.std.specs.Prelude.{◌≡◌};
ghost use Rattle.linear_program.specs.Columns.{columns_in, NamesColumns};

use crate::terms::Term;

/// The least `cost`, where each variable lies between `low` and `high` and each row holds.
#[derive(Debug, Drop)]
pub struct Lp {
    /// The least value of each variable. There are as many variables as numbers here.
    pub low: Vec<i128>,
    pub high: Vec<i128>,
    pub cost: Vec<i128>,
    pub rows: Vec<LpRow>,
}

/// `constant` plus the terms has to be 0, or at least 0 where `equal` is false.
#[derive(Debug, Drop)]
pub struct LpRow {
    /// The number by which a proof names the row.
    pub id: u32,
    pub equal: bool,
    pub constant: i128,
    pub terms: Vec<Term>,
}

impl Lp {
    /// Of a list the numbers of variables and, past the last variable, of rows.
    pub fn named(&self, mut list: Vec<u32>) -> Vec<u32>
        ensures kept { result.items ≡ columns_in self.now list.items }
        ensures columns { NamesColumns self.now result.items }
    {
        let columns = self.low.len().saturating_add(self.rows.len());
        list.retain(|number| (*number as usize) < columns);
        list
    }
}
