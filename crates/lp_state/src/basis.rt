//! The basis: the rows that are active, those whose slack is not basic, and the variables that are basic.
//!
//! A row that is not active costs nothing here, so a basis is as large as its kernel and not as the program.

use lp_factors::Column;
use lp_sparse::lookup::{NOWHERE, at, put};
use std::alloc::{AllocError, Global};

/// Active rows and basic variables, as many of the one as of the other, but for a start that has no factors yet.
#[derive(Drop)]
pub struct Basis {
    pub variables: Vec<usize>,
    pub rows: Vec<usize>,
    /// Where a variable is among the basic ones, and a row among the active ones, or `NOWHERE`.
    variable_places: Vec<usize>,
    row_places: Vec<usize>,
}

impl Basis {
    /// The empty basis of a program of so many variables and rows.
    pub fn new(alloc: Global, variables: usize, rows: usize) -> Result<Basis, AllocError> {
        Ok(Basis {
            variables: Vec::new(alloc),
            rows: Vec::new(alloc),
            variable_places: vec![in alloc; NOWHERE; variables]?,
            row_places: vec![in alloc; NOWHERE; rows]?,
        })
    }

    /// How many variables are basic.
    pub fn size(&self) -> usize {
        self.variables.len()
    }

    /// The basic variable at a place of the kernel, or `NOWHERE`.
    #[inline]
    pub fn variable(&self, place: usize) -> usize {
        at(&self.variables, place, NOWHERE)
    }

    /// The active row at a place of the kernel, or `NOWHERE`.
    #[inline]
    pub fn row(&self, place: usize) -> usize {
        at(&self.rows, place, NOWHERE)
    }

    /// The place of a variable among the basic ones, or `NOWHERE`.
    #[inline]
    pub fn variable_place(&self, variable: usize) -> usize {
        at(&self.variable_places, variable, NOWHERE)
    }

    /// Whether a variable is basic.
    #[inline]
    pub fn is_basic(&self, variable: usize) -> bool {
        self.variable_place(variable) != NOWHERE
    }

    /// Whether a row is active.
    #[inline]
    pub fn is_active(&self, row: usize) -> bool {
        at(&self.row_places, row, NOWHERE) != NOWHERE
    }

    /// Makes a variable basic, behind the others.
    pub fn add_variable(&mut self, variable: usize) -> Result<(), AllocError> {
        put(&mut self.variable_places, variable, self.variables.len());
        self.variables.push(variable)?;
        Ok(())
    }

    /// Makes a row active, behind the others.
    pub fn add_row(&mut self, row: usize) -> Result<(), AllocError> {
        put(&mut self.row_places, row, self.rows.len());
        self.rows.push(row)?;
        Ok(())
    }

    /// A variable is basic no more. It stays in the list until `keep`.
    pub fn forget_variable(&mut self, variable: usize) {
        put(&mut self.variable_places, variable, NOWHERE);
    }

    /// The same for a row.
    pub fn forget_row(&mut self, row: usize) {
        put(&mut self.row_places, row, NOWHERE);
    }

    /// Keeps the members at these places of their lists, in this order. All others are forgotten before.
    pub fn keep(
        &mut self,
        alloc: Global,
        rows: &[usize],
        variables: &[usize],
    ) -> Result<(), AllocError> {
        self.rows = chosen(alloc, &self.rows, rows)?;
        self.variables = chosen(alloc, &self.variables, variables)?;
        number(&self.rows, &mut self.row_places);
        number(&self.variables, &mut self.variable_places);
        Ok(())
    }

    /// One column leaves its side, and another enters.
    pub fn change(&mut self, leaving: Column, entering: Column) -> Result<(), AllocError> {
        match (leaving, entering) {
            (Column::Slack(row), Column::Structural(variable)) => {
                self.add_row(row)?;
                self.add_variable(variable)
            }
            (Column::Slack(new), Column::Slack(old)) => {
                replace(&mut self.rows, &mut self.row_places, old, new);
                Ok(())
            }
            (Column::Structural(old), Column::Structural(new)) => {
                replace(&mut self.variables, &mut self.variable_places, old, new);
                Ok(())
            }
            (Column::Structural(variable), Column::Slack(row)) => {
                take_out(&mut self.variables, &mut self.variable_places, variable);
                take_out(&mut self.rows, &mut self.row_places, row);
                Ok(())
            }
        }
    }
}

/// The members at these places.
fn chosen(alloc: Global, members: &[usize], places: &[usize]) -> Result<Vec<usize>, AllocError> {
    let mut list = Vec::with_capacity(alloc, places.len())?;
    for place in places {
        list.push(at(members, *place, NOWHERE))?;
    }
    Ok(list)
}

/// Tells the members their places.
fn number(members: &[usize], places: &mut [usize]) {
    for (place, member) in members.iter().enumerate() {
        put(places, *member, place);
    }
}

/// Another member takes the place of one.
fn replace(members: &mut [usize], places: &mut [usize], old: usize, new: usize) {
    let place = at(places, old, NOWHERE);
    put(members, place, new);
    put(places, old, NOWHERE);
    put(places, new, place);
}

/// Takes a member out of a list whose members know their places; the last one moves there.
fn take_out(members: &mut Vec<usize>, places: &mut [usize], member: usize) {
    let place = at(places, member, NOWHERE);
    if place < members.len() {
        let _member = members.swap_remove(place);
        if place < members.len() {
            put(places, members[place], place);
        }
    }
    put(places, member, NOWHERE);
}
