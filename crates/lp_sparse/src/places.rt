//! Who is where in the factors and their border.

use crate::lookup::{NOWHERE, put};
use std::alloc::{AllocError, Global};

/// The rows and variables of the base, by place, and the place of each.
///
/// Base places are numbered by pivots, and those of the border come after them.
#[derive(Drop)]
pub struct Places {
    pub rows: Vec<usize>,
    pub variables: Vec<usize>,
    /// The place of each row that is active, and of each variable that is basic, or `NOWHERE`.
    pub of_rows: Vec<usize>,
    pub of_variables: Vec<usize>,
    /// The place in the base of each variable that is there, basic or not any more.
    pub in_base: Vec<usize>,
}

impl Places {
    /// No places, of so many rows and variables.
    pub fn new(alloc: Global, rows: usize, variables: usize) -> Result<Places, AllocError> {
        Ok(Places {
            rows: Vec::new(alloc),
            variables: Vec::new(alloc),
            of_rows: vec![in alloc; NOWHERE; rows]?,
            of_variables: vec![in alloc; NOWHERE; variables]?,
            in_base: vec![in alloc; NOWHERE; variables]?,
        })
    }

    /// Gives the places of the base anew, in the order of the lists.
    pub fn restart(
        &mut self,
        alloc: Global,
        rows: &[usize],
        variables: &[usize],
    ) -> Result<(), AllocError> {
        self.rows = Vec::from_slice(alloc, rows)?;
        self.variables = Vec::from_slice(alloc, variables)?;
        number(&mut self.of_rows, rows);
        number(&mut self.of_variables, variables);
        number(&mut self.in_base, variables);
        Ok(())
    }
}

/// Gives the members of a list their places there, and all others none.
fn number(places: &mut [usize], members: &[usize]) {
    for place in places.iter_mut() {
        *place = NOWHERE;
    }
    for (place, member) in members.iter().enumerate() {
        put(places, *member, place);
    }
}

/// For each of `count` members its place in the list, or `NOWHERE`.
pub fn numbers_of(alloc: Global, list: &[usize], count: usize) -> Result<Vec<usize>, AllocError> {
    let mut numbers = vec![in alloc; NOWHERE; count]?;
    for (number, member) in list.iter().enumerate() {
        put(&mut numbers, *member, number);
    }
    Ok(numbers)
}
