//! Small programs, solved one after the other.

use flow_programs::SmallProgram;
use lp_simplex::{Advice, advise, advise_from};
use std::alloc::{AllocError, Global};

/// How many changes of the basis a small program may take.
const PIVOTS: u32 = 2000;

/// The point of least cost, in units of 2^-32, from the basis where the last program of this kind ended; none where no
/// point seems to be there. The program is shortened.
pub fn solve(
    alloc: Global,
    program: &mut SmallProgram,
    basis: &mut Vec<u32>,
) -> Result<Option<Advice>, AllocError> {
    program.shorten();
    let advice = if basis.is_empty() {
        advise(alloc, program.lp(), PIVOTS)
    } else {
        advise_from(alloc, program.lp(), basis, PIVOTS)
    };
    let advice = advice.map_err(|_| AllocError)?;
    if advice.ray {
        return Ok(None);
    }
    if !advice.basis.is_empty() {
        basis.clear();
        basis.extend_from_slice(&advice.basis)?;
    }
    Ok(Some(advice))
}
