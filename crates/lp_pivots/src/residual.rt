//! Duals and values, corrected by the kernel until what is left of each equation is small.
//!
//! This is iterative refinement (J. H. Wilkinson, Rounding errors in algebraic processes, 1963): the residuals are exact,
//! and a solve with rough factors brings them down by a factor each time. Where they don't come down the factors are too
//! rough.

use crate::simplex::{DUAL_TOLERANCE, PRIMAL_TOLERANCE, Simplex};
use lp_sparse::Entry;
use lp_sparse::fixed::clamped_more;
use std::alloc::{AllocError, Global};

/// After so many corrections the residuals have to be small.
const CORRECTIONS: u32 = 6;
/// A residual up to a quarter of the tolerance may stay, and one up to a 32nd is not worth a correction.
const DUAL_LIMITS: Limits = Limits {
    rest: DUAL_TOLERANCE / 4,
    floor: DUAL_TOLERANCE / 32,
    large: DUAL_TOLERANCE * 16,
};

const PRIMAL_LIMITS: Limits = Limits {
    rest: PRIMAL_TOLERANCE / 4,
    floor: PRIMAL_TOLERANCE / 32,
    large: PRIMAL_TOLERANCE * 16,
};

/// From where on a residual is too large, small enough to leave, and large.
#[derive(Clone, Copy)]
struct Limits {
    rest: i64,
    floor: i64,
    large: i64,
}

/// What is left of the equations, where it is worth a correction, and the largest of all.
#[derive(Drop)]
struct Residuals {
    parts: Vec<Entry>,
    worst: i64,
}

/// What residuals ask for.
#[derive(Clone, Copy)]
enum Verdict {
    Settled,
    Correct,
    /// Corrections do not bring them down.
    Rough,
}

impl Residuals {
    fn new(alloc: Global) -> Residuals {
        Residuals {
            parts: Vec::new(alloc),
            worst: 0,
        }
    }

    fn add(&mut self, place: usize, value: i64, floor: i64) -> Result<(), AllocError> {
        let size = value.wrapping_abs();
        self.worst = self.worst.max(size);
        if size > floor {
            self.parts.push(Entry { place, value })?;
        }
        Ok(())
    }

    /// The verdict after `corrections`, where `before` was the worst of the last time.
    fn verdict(&self, limits: Limits, corrections: u32, before: i64) -> Verdict {
        if self.worst <= limits.rest {
            Verdict::Settled
        } else if corrections >= CORRECTIONS
            || (corrections >= 2 && self.worst > before / 2 && self.worst > limits.large)
        {
            Verdict::Rough
        } else {
            Verdict::Correct
        }
    }
}

impl Simplex {
    /// Brings the reduced costs of the basic variables to 0, and says whether that came to rest.
    pub(crate) fn settle_duals(&mut self, alloc: Global) -> Result<bool, AllocError> {
        let mut before = i64::MAX;
        for corrections in 0..=CORRECTIONS {
            let residuals = self.dual_residuals(alloc)?;
            match residuals.verdict(DUAL_LIMITS, corrections, before) {
                Verdict::Settled => return Ok(true),
                Verdict::Rough => return Ok(false),
                Verdict::Correct => {}
            }
            before = residuals.worst;
            let changes = self.kernel.solve_rows(alloc, &residuals.parts)?;
            for change in changes.iter() {
                let dual = i128::from(self.sums.dual(change.place));
                let corrected = clamped_more(dual.wrapping_add(i128::from(change.value)));
                self.sums.set_dual(&self.program, change.place, corrected);
            }
        }
        Ok(false)
    }

    fn dual_residuals(&self, alloc: Global) -> Result<Residuals, AllocError> {
        let mut residuals = Residuals::new(alloc);
        for variable in self.basis.variables.iter() {
            let rest = self.sums.reduced_cost(*variable);
            residuals.add(*variable, rest, DUAL_LIMITS.floor)?;
        }
        Ok(residuals)
    }

    /// Brings the activities of the active rows to 0, and says whether that came to rest.
    pub(crate) fn settle_values(&mut self, alloc: Global) -> Result<bool, AllocError> {
        let mut before = i64::MAX;
        for corrections in 0..=CORRECTIONS {
            let residuals = self.row_residuals(alloc)?;
            match residuals.verdict(PRIMAL_LIMITS, corrections, before) {
                Verdict::Settled => return Ok(true),
                Verdict::Rough => return Ok(false),
                Verdict::Correct => {}
            }
            before = residuals.worst;
            let changes = self.kernel.solve_columns(alloc, &residuals.parts)?;
            for change in changes.iter() {
                let value = i128::from(self.sums.value(change.place));
                let corrected = clamped_more(value.wrapping_sub(i128::from(change.value)));
                self.sums.set_value(&self.program, change.place, corrected);
            }
        }
        Ok(false)
    }

    fn row_residuals(&self, alloc: Global) -> Result<Residuals, AllocError> {
        let mut residuals = Residuals::new(alloc);
        for row in self.basis.rows.iter() {
            let rest = self.sums.activity(*row);
            residuals.add(*row, rest, PRIMAL_LIMITS.floor)?;
        }
        Ok(residuals)
    }
}
