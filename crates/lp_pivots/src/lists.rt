//! The basis from a list of numbers, and as one: each variable by its number, each row by its place past the last variable.

use crate::simplex::Simplex;
use std::alloc::{AllocError, Global};

impl Simplex {
    /// Takes a list of variables and, past the last variable, of rows. What is not there, comes twice, is fixed or has no
    /// pivot is left out.
    pub fn begin_at(&mut self, alloc: Global, start: &[u32]) -> Result<(), AllocError> {
        let count = self.program.variables.len();
        for number in start {
            let number = *number as usize;
            if number < count {
                let is_free = self.program.variable(number).width > 0;
                if is_free && !self.basis.is_basic(number) {
                    self.basis.add_variable(number)?;
                }
            } else {
                let row = number.wrapping_sub(count);
                if self.program.row(row).is_open && !self.basis.is_active(row) {
                    self.basis.add_row(row)?;
                }
            }
        }
        let _is_regular = self.refactor(alloc)?;
        Ok(())
    }

    /// The basic variables, and the active rows past the last variable.
    pub fn basis_list(&self, alloc: Global) -> Result<Vec<u32>, AllocError> {
        let mut list = Vec::new(alloc);
        for variable in self.basis.variables.iter() {
            list.push(u32::try_from(*variable).unwrap_or(u32::MAX))?;
        }
        for row in self.basis.rows.iter() {
            let number = self.program.variables.len().saturating_add(*row);
            list.push(u32::try_from(number).unwrap_or(u32::MAX))?;
        }
        Ok(list)
    }
}
