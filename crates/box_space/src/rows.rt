//! Rows of a linear program.

ghost use Rattle.std.specs.Prelude.{◌≡◌, ◌++◌, ◌<◌, [], length, pos, IfOk};
ghost use Rattle.box_space.specs.Lines.{term_of};

use edge_io::Memory;
use linear_program::Term;
use std::alloc::Global;
use std::marker::Model;

/// What is said of a row.
#[derive(Clone, Copy, Debug, PartialEq, Eq)]
pub enum RowKind {
    /// The row is at least 0.
    AtLeast,
    /// The row is equal to 0.
    Equal,
}

/// How many terms a row has room for: more than any row of a network needs.
const ROOM: usize = 1024;

/// A row that is written term by term, over and over, in memory that is taken once.
#[derive(Drop)]
pub struct LinRow {
    room: Vec<Term>,
    len: usize,
    constant: i128,
}

impl Model for LinRow {
    ghost use Rattle.std.specs.Prelude.{◌≡◌, ◌≤◌, length, take};
    ghost use Rattle.box_space.specs.Lines as lines;

    ghost Value = { lines.Line };

    ghost view = { λ r. record { terms = take r.len r.room.items; constant = r.constant } };

    ghost invariant = { λ r. (length r.room.items ≡ 1024) × (r.len ≤ 1024) };
}

impl LinRow {
    /// A row without terms, with room for 1,024.
    pub fn new(alloc: Global) -> Result<LinRow, Memory>
        ensures terms { IfOk result (λ r. r.terms ≡ []) }
        ensures constant { IfOk result (λ r. r.constant ≡ pos 0) }
    {
        let room = vec![in alloc; Term { var: 0, coef: 0 }; ROOM]?;
        Ok(LinRow {
            room,
            len: 0,
            constant: 0,
        })
    }

    /// The terms, in the order in which they were added.
    pub fn terms(&self) -> &[Term]
        ensures { result.now ≡ self.now.terms }
    {
        &self.room.as_slice()[..self.len]
    }

    /// The constant.
    pub fn constant(&self) -> i128
        ensures { result ≡ self.now.constant }
    {
        self.constant
    }

    /// Takes all terms away, and sets the constant to 0.
    pub fn clear(&mut self)
        ensures terms { self.new.terms ≡ [] }
        ensures constant { self.new.constant ≡ pos 0 }
    {
        self.len = 0;
        self.constant = 0;
    }

    /// Adds a term at the end. A coefficient 0 is not kept.
    pub fn add_term(&mut self, var: u32, coef: i128)
        requires { length self.old.terms < 1024 }
        ensures terms { self.new.terms ≡ self.old.terms ++ term_of var coef }
        ensures constant { self.new.constant ≡ self.old.constant }
    {
        if coef != 0 {
            self.room[self.len] = Term { var, coef };
            self.len += 1;
        }
    }

    /// Sets the constant.
    pub fn set_constant(&mut self, constant: i128)
        ensures terms { self.new.terms ≡ self.old.terms }
        ensures constant { self.new.constant ≡ constant }
    {
        self.constant = constant;
    }
}
