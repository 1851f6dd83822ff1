//! The test of a row that nothing can mend.
//!
//! By the lemma of J. Farkas (1902), rows that no point of the box meets have multipliers that show it: the sum of the rows,
//! each times its own, is below 0 on the whole box. A pivot row along which nothing can take up a violation has such
//! multipliers, up to rounding; they are claimed only after they were summed.

use crate::price::Leaving;
use crate::ratio::PivotRow;
use crate::simplex::Simplex;
use lp_factors::Column;
use lp_sparse::dot;
use lp_sparse::fixed::{COEF_BITS, ONE, VALUE_BITS, product, rounded, signed};
use lp_sparse::lookup::put;
use std::alloc::{AllocError, Global};

impl Simplex {
    /// The multipliers that show that no point of the box meets the rows, if the pivot row has them.
    pub(crate) fn ray(
        &self,
        alloc: Global,
        leaving: &Leaving,
        row: &PivotRow,
    ) -> Result<Option<Vec<i64>>, AllocError> {
        let multipliers = self.multipliers(alloc, leaving, row)?;
        let mut proved = 0i128;
        let mut lost = 0i128;
        for (row, number) in self.program.rows.iter().zip(multipliers.iter()) {
            let part = product(*number, row.short_constant) >> VALUE_BITS;
            proved = proved.wrapping_sub(part).wrapping_sub(1);
            lost = lost.wrapping_add(i128::from(*number).wrapping_abs());
        }
        for (place, variable) in self.program.variables.iter().enumerate() {
            let sum = dot(self.program.variable_line(place), &multipliers);
            let slope = rounded(sum, COEF_BITS);
            if slope > 0 && variable.width > 0 {
                let most = product(slope, variable.width) >> VALUE_BITS;
                proved = proved.wrapping_sub(most).wrapping_sub(2);
            }
        }
        proved = proved.wrapping_sub(lost >> VALUE_BITS);
        Ok(if proved > 0 { Some(multipliers) } else { None })
    }

    fn multipliers(
        &self,
        alloc: Global,
        leaving: &Leaving,
        row: &PivotRow,
    ) -> Result<Vec<i64>, AllocError> {
        let mut multipliers = vec![in alloc; 0i64; self.program.rows.len()]?;
        for entry in row.active.iter() {
            let turned = signed(entry.value, !leaving.is_below);
            let is_equal = self.program.row(entry.place).equal;
            let multiplier = if is_equal { turned } else { turned.max(0) };
            put(&mut multipliers, entry.place, multiplier);
        }
        if let Column::Slack(slack) = leaving.column {
            put(&mut multipliers, slack, signed(ONE, leaving.is_below));
        }
        Ok(multipliers)
    }
}
