//! The check of what a certificate claims, against what its plan costs and what its tree shows.

ghost use Rattle.std.specs.Prelude.{◌≡◌, ◌≢◌, pos, ◌-ℤ◌, ◌*ℤ◌, FitsSigned, IfOk, IfErr};
ghost use Rattle.std.specs.Int.{w128};
ghost use Rattle.cert_format.specs.Views.{shown_claim};
ghost use Rattle.cert_checker.specs.Claims.{IsClaimRefusal, IsBoundRefusal, AreClaimed, HasRoom};

use cert_format::Claim;
use plan_core::Cost;
use proof_lines::Refusal;

/// The first number of the claim that is not what the plan costs and the tree shows, if there is one.
pub(crate) fn check_claim(
    claim: &Claim,
    cost: Option<Cost>,
    found: Option<i128>,
) -> Result<(), Refusal>
    requires { HasRoom cost found }
    ensures claimed { IfOk result (λ _. AreClaimed cost found (shown_claim claim.now)) }
    ensures refused { IfErr result (IsClaimRefusal cost found (shown_claim claim.now)) }
{
    match claim {
        Claim::NoPlan => check_no_plan(found),
        Claim::Bound { bound } => check_bound(found, *bound),
        Claim::Gap {
            cost: num,
            base,
            bound,
            gap,
            ..
        } => {
            check_kind(found)?;
            check_cost(
                cost,
                Cost {
                    num: *num,
                    base: *base,
                },
            )?;
            check_bound(found, *bound)?;
            check_gap(*num, *base, *bound, *gap)
        }
    }
}

/// WrongKind, exactly where a leaf may hold a plan.
fn check_no_plan(found: Option<i128>) -> Result<(), Refusal>
    ensures none { IfOk result (λ _. found ≡ None) }
    ensures kind { IfErr result (λ r. r ≡ Refusal.WrongKind) }
    ensures some { IfErr result (λ _. found ≢ None) }
{
    match found {
        None => Ok(()),
        Some(_) => Err(Refusal::WrongKind),
    }
}

/// WrongKind, exactly where no leaf may hold a plan.
fn check_kind(found: Option<i128>) -> Result<(), Refusal>
    ensures some { IfOk result (λ _. found ≢ None) }
    ensures kind { IfErr result (λ r. r ≡ Refusal.WrongKind) }
    ensures none { IfErr result (λ _. found ≡ None) }
{
    match found {
        None => Err(Refusal::WrongKind),
        Some(_) => Ok(()),
    }
}

/// WrongCost, exactly where the cost is another.
fn check_cost(cost: Option<Cost>, claimed: Cost) -> Result<(), Refusal>
    ensures same { IfOk result (λ _. cost ≡ Some claimed) }
    ensures wrong { IfErr result (λ r. r ≡ Refusal.WrongCost) }
    ensures other { IfErr result (λ _. cost ≢ Some claimed) }
{
    if cost == Some(claimed) {
        Ok(())
    } else {
        Err(Refusal::WrongCost)
    }
}

/// WrongKind, exactly where no leaf may hold a plan; WrongBound, exactly where the bound is another.
fn check_bound(found: Option<i128>, bound: i128) -> Result<(), Refusal>
    ensures same { IfOk result (λ _. found ≡ Some bound) }
    ensures refused { IfErr result (IsBoundRefusal found bound) }
{
    match found {
        None => Err(Refusal::WrongKind),
        Some(least) if least == bound => Ok(()),
        Some(_) => Err(Refusal::WrongBound),
    }
}

/// WrongGap, exactly where the gap is not the cost less the bound, over the base.
fn check_gap(cost: i128, base: u64, bound: i128, gap: i128) -> Result<(), Refusal>
    requires { FitsSigned w128 (bound *ℤ pos base) }
    ensures same { IfOk result (λ _. gap ≡ cost -ℤ bound *ℤ pos base) }
    ensures wrong { IfErr result (λ r. r ≡ Refusal.WrongGap) }
    ensures other { IfErr result (λ _. gap ≢ cost -ℤ bound *ℤ pos base) }
{
    match cost.checked_sub(bound * i128::from(base)) {
        Some(difference) if difference == gap => Ok(()),
        _ => Err(Refusal::WrongGap),
    }
}
