//! Lists of variables and rows that the method starts from.
//!
//! A cold start offers all rows that have to be 0, with all variables for the factors to pick from, a crash basis as in R. E.
//! Bixby, Implementing the simplex method: the initial basis, 1992. A start from a proof has the rows with a multiplier and
//! the variables whose reduced cost is no more than rounding: the duals that belong to it are the proof's, up to rounding,
//! so the method goes on from the bound that the proof shows.

use linear_program::{Lp, LpRow, Proof};
use lp_sparse::fixed::bit_length;
use lp_sparse::lookup::{at, put};
use std::alloc::{AllocError, Global};
use std::collections::BTreeMap;

/// The bits that a reduced cost of a basic variable is below the greatest cost.
const NEAR_BITS: i32 = 28;

/// All rows that have to be 0, and if there are any all variables, of which the factors pick.
pub fn cold_start(alloc: Global, lp: &Lp) -> Result<Vec<u32>, AllocError> {
    let mut start = Vec::new(alloc);
    for (row, own) in lp.rows.iter().enumerate() {
        if own.equal {
            start.push(row_number(lp, row))?;
        }
    }
    if start.len() > 0 {
        for variable in 0..lp.low.len() {
            start.push(u32::try_from(variable).unwrap_or(u32::MAX))?;
        }
    }
    Ok(start)
}

fn row_number(lp: &Lp, row: usize) -> u32 {
    u32::try_from(lp.low.len().saturating_add(row)).unwrap_or(u32::MAX)
}

/// What a proof leaves of the cost of each variable, and how far rounding may have moved that.
#[derive(Drop)]
struct Rests {
    costs: Vec<i128>,
    errors: Vec<i128>,
}

/// The rows with a multiplier, and the variables that they leave no cost but for rounding.
pub fn start_at_rest(alloc: Global, lp: &Lp, proof: &Proof) -> Result<Vec<u32>, AllocError> {
    let mut multipliers = BTreeMap::new(alloc);
    for part in proof.parts.iter() {
        multipliers.insert(part.row, i128::from(part.mult))?;
    }
    let mut rests = Rests::new(alloc, lp, proof.scale)?;
    let mut start = Vec::new(alloc);
    for (row, own) in lp.rows.iter().enumerate() {
        let multiplier = multipliers.get(&own.id).copied().unwrap_or(0);
        if multiplier != 0 {
            start.push(row_number(lp, row))?;
            rests.take_row(own, multiplier);
        }
    }
    let most = most_bits(lp).saturating_add(bit_length(i128::from(proof.scale.max(1))));
    let most = most.saturating_sub(NEAR_BITS + 1);
    for variable in 0..lp.low.len() {
        if rests.is_near(variable, width(lp, variable), most) {
            start.push(u32::try_from(variable).unwrap_or(u32::MAX))?;
        }
    }
    Ok(start)
}

fn width(lp: &Lp, variable: usize) -> i128 {
    at(&lp.high, variable, 0).wrapping_sub(at(&lp.low, variable, 0))
}

/// The bits of the greatest cost times width.
fn most_bits(lp: &Lp) -> i32 {
    let mut most = 0;
    for (variable, cost) in lp.cost.iter().enumerate() {
        if *cost != 0 {
            let bits = bit_length(*cost).saturating_add(bit_length(width(lp, variable)));
            most = most.max(bits);
        }
    }
    most
}

impl Rests {
    fn new(alloc: Global, lp: &Lp, scale: u64) -> Result<Rests, AllocError> {
        let mut costs = Vec::with_capacity(alloc, lp.low.len())?;
        for variable in 0..lp.low.len() {
            let cost = at(&lp.cost, variable, 0);
            costs.push(cost.wrapping_mul(i128::from(scale)))?;
        }
        let errors = vec![in alloc; 0i128; lp.low.len()]?;
        Ok(Rests { costs, errors })
    }

    /// Takes `multiplier` times a row from the costs.
    fn take_row(&mut self, row: &LpRow, multiplier: i128) {
        for term in row.terms.iter() {
            let variable = term.var as usize;
            let cost = at(&self.costs, variable, 0);
            let paid = term.coef.wrapping_mul(multiplier);
            put(&mut self.costs, variable, cost.wrapping_sub(paid));
            let error = at(&self.errors, variable, 0);
            let size = term.coef.wrapping_abs();
            put(&mut self.errors, variable, error.wrapping_add(size));
        }
    }

    /// A variable that can move, with nothing left of its cost but rounding, or at most `most` bits.
    fn is_near(&self, variable: usize, width: i128, most: i32) -> bool {
        let rest = at(&self.costs, variable, 0);
        let error = at(&self.errors, variable, 0);
        let bits = bit_length(rest).saturating_add(bit_length(width));
        width > 0 && (rest.wrapping_abs() <= error.wrapping_mul(2) || bits <= most)
    }
}
