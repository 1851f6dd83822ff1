//! The call.

ghost use Rattle.std.specs.Prelude.{◌≡◌, IfOk, IfSome, IfNone, vec_len};
ghost use Rattle.std.specs.Option.{ForSome, option_copied};
ghost use Rattle.pool_model.specs.Network.{net_of};
ghost use Rattle.row_model.specs.Variables.{variables};
ghost use Rattle.row_model.specs.Entries.{IsCheaper};
ghost use Rattle.plan_core.specs.Faults.{IsCostOf};
ghost use Rattle.plan_core.specs.Views.{shown_plan};
ghost use Rattle.plan_repair.specs.Choices.{shown_best};
ghost use Rattle.plan_repair.specs.PlainPlan.{plain_plan as plain_written};
ghost use Rattle.plan_repair.specs.Repairs.{IsAccepted, IsGain, IsNoDearer};

use crate::judging::{Judged, cheapest, gained, judge, limit_of};
use crate::plain::plain_plan;
use blend_network::Network;
use edge_io::Memory;
use linear_program::Advice;
use plan_advice::advised_plan;
use plan_core::{Cost, WrittenPlan};
use std::alloc::Global;

/// The cheapest plan that is found near the point of an advice, where it is cheaper than `best`. The plain plan of the point is
/// always among those that are judged. At a tie the advised plan goes first, whose bases are mostly smaller.
pub fn repair(
    alloc: Global,
    net: &Network,
    advice: &Advice,
    best: Option<&WrittenPlan>,
) -> Result<Option<WrittenPlan>, Memory>
    requires point { vec_len advice.now.point ≡ variables (net_of net.now) }
    requires best { ForSome (option_copied best) (λ b. IsAccepted (net_of net.now) (shown_plan b)) }
    // Promise: Whatever the advice, a repaired plan is well written, obeys, and is cheaper than the best plan, if there is one
    ensures gain { IfOk result (λ o. IfSome o (λ w. IsGain (net_of net.now) (shown_best (option_copied best.entry)) (shown_plan w))) }
    // It is no dearer than the plain plan, where that is accepted.
    // Promise: A repaired plan costs no more than the plain plan of the advice's point, where that obeys: the point's own flows, rounded
    //   down
    ensures no_dearer { IfOk result (λ o. IfSome o (λ w.
        IsAccepted (net_of net.now) (plain_written (net_of net.now) advice.now.point.items)
        → IsNoDearer (net_of net.now) (shown_plan w) (plain_written (net_of net.now) advice.now.point.items))) }
    // None comes only where the plain plan is refused or not cheaper than the best one.
    // Promise: No repaired plan comes only where the plain plan does not obey or is not cheaper than the best plan
    ensures none { IfOk result (λ o. IfNone o (
        ¬ IsGain (net_of net.now) (shown_best (option_copied best.entry)) (plain_written (net_of net.now) advice.now.point.items))) }
{
    let limit = limit_of(net, best);
    let plain = judge(net, plain_plan(alloc, net, &advice.point)?);
    let near = near(alloc, net, &advice.point, limit)?;
    Ok(gained(cheapest(near, plain), limit))
}

/// The plan that is advised near a point, where it obeys.
fn near(
    alloc: Global,
    net: &Network,
    point: &[i128],
    limit: Option<Cost>,
) -> Result<Option<Judged>, Memory>
    ensures { IfOk result (λ o. IfSome o (λ j. IsCostOf (net_of net.now) (shown_plan j.plan) j.cost)) }
{
    match advised_plan(alloc, net, point, limit)? {
        None => Ok(None),
        Some(plan) => Ok(judge(net, plan)),
    }
}
