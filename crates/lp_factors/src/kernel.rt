//! The kernel, the square of the active rows and the basic variables, and solves with it.
//!
//! A basis of all columns, slacks too, would be as large as the program. The rows whose slack is not basic, the active
//! ones, times the basic variables are all of it that is not a unit column, and that square is the kernel. A solve brings
//! the numbers of its side to 44 bits, so that small sides keep their accuracy.

use crate::border::Border;
use crate::elimination::Factored;
use crate::factors::Factors;
use lp_sparse::fixed::{bit_length, clamped_more, moved};
use lp_sparse::lookup::{NOWHERE, at, put};
use lp_sparse::{Entry, Places};
use std::alloc::{AllocError, Global};

/// The bits that the greatest number of a side is brought to before a solve.
const SIDE_BITS: i32 = 44;

/// Factors of a base, with a border for the changes since.
#[derive(Drop)]
pub struct Kernel {
    factors: Factors,
    pub(crate) border: Border,
    pub(crate) places: Places,
    /// The column that enters, by the base and by the border.
    pub(crate) entering_base: Vec<Entry>,
    pub(crate) entering_border: Vec<i64>,
}

/// A side or a solution, by the places of the base and of the border.
#[derive(Drop)]
struct Parts {
    base: Vec<i64>,
    border: Vec<i64>,
}

impl Kernel {
    /// The kernel of no active rows, in a program of so many rows and variables.
    pub fn new(alloc: Global, rows: usize, variables: usize) -> Result<Kernel, AllocError> {
        Ok(Kernel {
            factors: Factors::new(alloc),
            border: Border::new(alloc, 0)?,
            places: Places::new(alloc, rows, variables)?,
            entering_base: Vec::new(alloc),
            entering_border: Vec::new(alloc),
        })
    }

    /// Takes new factors, with the rows and variables of their pivots, and no border.
    pub fn restart(
        &mut self,
        alloc: Global,
        factored: Factored,
        rows: &[usize],
        variables: &[usize],
    ) -> Result<(), AllocError> {
        self.border = Border::new(alloc, factored.rows.len())?;
        self.factors = factored.factors;
        self.places.restart(alloc, rows, variables)
    }

    pub(crate) fn base_size(&self) -> usize {
        self.factors.size()
    }

    /// Nothing has changed since the factors were made.
    pub fn is_new(&self) -> bool {
        self.border.len() == 0
    }

    /// Solves for the basic variables, given the right side by rows.
    pub fn solve_columns(&self, alloc: Global, side: &[Entry]) -> Result<Vec<Entry>, AllocError> {
        let most = greatest(side, &self.places.of_rows);
        if most == 0 {
            return Ok(Vec::new(alloc));
        }
        let bits = SIDE_BITS.saturating_sub(bit_length(i128::from(most)));
        let mut parts = self.parts(alloc, side, &self.places.of_rows, bits)?;
        self.factors.solve_columns(&mut parts.base);
        let border = self
            .border
            .solve_columns(alloc, &mut parts.base, &mut parts.border)?;
        self.variables_of(alloc, &parts.base, &border, bits)
    }

    /// The same for the column that enters, with no scaling. What it is by the base and the border is kept for `extend`.
    pub fn solve_entering(
        &mut self,
        alloc: Global,
        side: &[Entry],
    ) -> Result<Vec<Entry>, AllocError> {
        let mut parts = self.parts(alloc, side, &self.places.of_rows, 0)?;
        self.factors.solve_columns(&mut parts.base);
        self.entering_base = nonzero(alloc, &parts.base)?;
        let border = self
            .border
            .solve_columns(alloc, &mut parts.base, &mut parts.border)?;
        let solved = self.variables_of(alloc, &parts.base, &border, 0)?;
        self.entering_border = border;
        Ok(solved)
    }

    /// Solves for the active rows, given the left side by variables.
    pub fn solve_rows(&self, alloc: Global, side: &[Entry]) -> Result<Vec<Entry>, AllocError> {
        let most = greatest(side, &self.places.of_variables);
        if most == 0 {
            return Ok(Vec::new(alloc));
        }
        let bits = SIDE_BITS.saturating_sub(bit_length(i128::from(most)));
        let mut parts = self.parts(alloc, side, &self.places.of_variables, bits)?;
        let border = self
            .border
            .solve_rows(alloc, &mut parts.base, &mut parts.border)?;
        self.factors.solve_rows(&mut parts.base);
        self.rows_of(alloc, &parts.base, &border, bits)
    }

    /// A side by base and border.
    fn parts(
        &self,
        alloc: Global,
        side: &[Entry],
        places: &[usize],
        bits: i32,
    ) -> Result<Parts, AllocError> {
        let size = self.base_size();
        let mut base = vec![in alloc; 0i64; size]?;
        let mut border = vec![in alloc; 0i64; self.border.len()]?;
        for entry in side {
            let place = at(places, entry.place, NOWHERE);
            if place != NOWHERE && entry.value != 0 {
                let number = moved(entry.value, bits);
                put(&mut base, place, number);
                put(&mut border, place.wrapping_sub(size), number);
            }
        }
        Ok(Parts { base, border })
    }

    fn variables_of(
        &self,
        alloc: Global,
        base: &[i64],
        border: &[i64],
        bits: i32,
    ) -> Result<Vec<Entry>, AllocError> {
        let mut solved = Vec::new(alloc);
        let places = &self.places.of_variables;
        for (place, number) in base.iter().enumerate() {
            let variable = at(&self.places.variables, place, NOWHERE);
            push_solved(&mut solved, places, variable, place, *number, bits)?;
        }
        for (turn, number) in border.iter().enumerate() {
            let variable = self.edge_variable(turn);
            let place = self.base_size().wrapping_add(turn);
            push_solved(&mut solved, places, variable, place, *number, bits)?;
        }
        Ok(solved)
    }

    fn rows_of(
        &self,
        alloc: Global,
        base: &[i64],
        border: &[i64],
        bits: i32,
    ) -> Result<Vec<Entry>, AllocError> {
        let mut solved = Vec::new(alloc);
        let places = &self.places.of_rows;
        for (place, number) in base.iter().enumerate() {
            let row = at(&self.places.rows, place, NOWHERE);
            push_solved(&mut solved, places, row, place, *number, bits)?;
        }
        for (turn, number) in border.iter().enumerate() {
            let row = self.edge_row(turn);
            let place = self.base_size().wrapping_add(turn);
            push_solved(&mut solved, places, row, place, *number, bits)?;
        }
        Ok(solved)
    }

    fn edge_variable(&self, turn: usize) -> usize {
        match self.border.edges.get(turn) {
            Some(edge) => edge.variable.unwrap_or(NOWHERE),
            None => NOWHERE,
        }
    }

    fn edge_row(&self, turn: usize) -> usize {
        match self.border.edges.get(turn) {
            Some(edge) => edge.row.unwrap_or(NOWHERE),
            None => NOWHERE,
        }
    }
}

fn greatest(side: &[Entry], places: &[usize]) -> i64 {
    let mut most = 0i64;
    for entry in side {
        if at(places, entry.place, NOWHERE) != NOWHERE {
            most = most.max(entry.value.wrapping_abs());
        }
    }
    most
}

/// Adds what a solve found for a member, if it still has that place.
#[inline]
fn push_solved(
    solved: &mut Vec<Entry>,
    places: &[usize],
    member: usize,
    place: usize,
    number: i64,
    bits: i32,
) -> Result<(), AllocError> {
    if number != 0 && at(places, member, NOWHERE) == place {
        let value = clamped_more(i128::from(moved(number, bits.saturating_neg())));
        if value != 0 {
            let place = member;
            solved.push(Entry { place, value })?;
        }
    }
    Ok(())
}

fn nonzero(alloc: Global, numbers: &[i64]) -> Result<Vec<Entry>, AllocError> {
    let mut entries = Vec::new(alloc);
    for (place, number) in numbers.iter().enumerate() {
        if *number != 0 {
            let value = *number;
            entries.push(Entry { place, value })?;
        }
    }
    Ok(entries)
}
