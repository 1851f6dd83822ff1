//! The calls, and what they answer.

ghost use Rattle.std.specs.Prelude.{◌≡◌, vec_len, IfOk};
ghost use Rattle.linear_program.specs.Columns.{NamesColumns};

use crate::answer::{advice_of, one_row};
use crate::start::{cold_start, start_at_rest};
use edge_io::Memory;
use linear_program::{Advice, Lp, Proof};
use lp_pivots::{End, Simplex};
use lp_scaling::{Scaled, scale};
use std::alloc::{AllocError, Global};

/// An advice, and how the method came to it.
#[derive(Drop)]
struct Solution {
    advice: Advice,
    is_final: bool,
    pivots: u32,
}

/// Advice on the program after at most `pivots` changes of the basis.
pub fn advise(alloc: Global, lp: &Lp, pivots: u32) -> Result<Advice, Memory>
    // Promise: Advice on a linear program comes for every value of its arguments, lists of different lengths and terms on variables that
    //   are not there included
    // Promise: Advice has one dual for each row
    ensures duals { IfOk result (λ a. vec_len a.duals ≡ vec_len lp.now.rows) }
    // Promise: Advice has one number of the point for each variable
    ensures point { IfOk result (λ a. vec_len a.point ≡ vec_len lp.now.low) }
    // Promise: The basis of an advice names variables and rows of the program alone
    ensures basis { IfOk result (λ a. NamesColumns lp.now a.basis.items) }
{
    let start = cold_start(alloc, lp)?;
    Ok(solve(alloc, lp, &start, pivots)?.advice)
}

/// Advice from a start in the form of `Advice::basis`, in any order. Every list is allowed: what is not there, comes twice,
/// is fixed or makes the start singular is left out. Where the method comes to no end from there, a cold call follows with
/// the pivots that are left.
pub fn advise_from(alloc: Global, lp: &Lp, start: &[u32], pivots: u32) -> Result<Advice, Memory>
    // Promise: Advice on a linear program comes for every value of its arguments, lists of different lengths and terms on variables that
    //   are not there included
    ensures duals { IfOk result (λ a. vec_len a.duals ≡ vec_len lp.now.rows) }
    ensures point { IfOk result (λ a. vec_len a.point ≡ vec_len lp.now.low) }
    ensures basis { IfOk result (λ a. NamesColumns lp.now a.basis.items) }
{
    let solution = solve(alloc, lp, start, pivots)?;
    if solution.is_final || solution.pivots >= pivots {
        return Ok(solution.advice);
    }
    advise(alloc, lp, pivots.saturating_sub(solution.pivots))
}

/// Advice from a start after at most `pivots` changes of the basis, without a cold call; and whether the method came to an end.
pub fn advise_within(
    alloc: Global,
    lp: &Lp,
    start: &[u32],
    pivots: u32,
) -> Result<(Advice, bool), Memory>
    ensures duals { IfOk result (λ a. vec_len a.0.duals ≡ vec_len lp.now.rows) }
    ensures point { IfOk result (λ a. vec_len a.0.point ≡ vec_len lp.now.low) }
    ensures basis { IfOk result (λ a. NamesColumns lp.now a.0.basis.items) }
{
    let solution = solve(alloc, lp, start, pivots)?;
    Ok((solution.advice, solution.is_final))
}

/// A start from a rounded proof alone, its parts in any order: the rows with a multiplier, by `LpRow::id`, and the
/// variables that they leave no cost but for rounding. The multipliers are `scale` times the duals; a `scale` of 0 is that
/// of a proof that there is no point.
pub fn start_of_proof(alloc: Global, lp: &Lp, proof: &Proof) -> Result<Vec<u32>, Memory>
    ensures { IfOk result (λ start. NamesColumns lp.now start.items) }
{
    Ok(lp.named(start_at_rest(alloc, lp, proof)?))
}

/// Solves from a start, unless one row alone shows that no point is there.
fn solve(alloc: Global, lp: &Lp, start: &[u32], pivots: u32) -> Result<Solution, AllocError>
    ensures duals { IfOk result (λ s. vec_len s.advice.duals ≡ vec_len lp.now.rows) }
    ensures point { IfOk result (λ s. vec_len s.advice.point ≡ vec_len lp.now.low) }
    ensures basis { IfOk result (λ s. NamesColumns lp.now s.advice.basis.items) }
{
    match scale(alloc, lp)? {
        Scaled::NoPoint { row, sign } => Ok(Solution {
            advice: one_row(alloc, lp, row, sign)?,
            is_final: true,
            pivots: 0,
        }),
        Scaled::Program(program) => {
            let mut simplex = Simplex::new(alloc, program)?;
            solve_scaled(alloc, lp, &mut simplex, start, pivots)
        }
    }
}

fn solve_scaled(
    alloc: Global,
    lp: &Lp,
    simplex: &mut Simplex,
    start: &[u32],
    pivots: u32,
) -> Result<Solution, AllocError>
    ensures duals { IfOk result (λ s. vec_len s.advice.duals ≡ vec_len lp.now.rows) }
    ensures point { IfOk result (λ s. vec_len s.advice.point ≡ vec_len lp.now.low) }
    ensures basis { IfOk result (λ s. NamesColumns lp.now s.advice.basis.items) }
{
    simplex.begin_at(alloc, start)?;
    let end = simplex.run(alloc, pivots)?;
    let is_final = matches!(&end, End::Optimal | End::Ray(_));
    let advice = advice_of(alloc, lp, simplex, end)?;
    Ok(Solution {
        advice,
        is_final,
        pivots: simplex.pivots(),
    })
}
