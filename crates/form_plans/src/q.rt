//! The written plan of a point of form Q.

ghost use Rattle.std.specs.Prelude.{◌≡◌, ◌*◌, ◌/◌, ◌<◌, ◌≤◌, ◌^◌, IfErr, IfOk, OnOk};
ghost use Rattle.pool_model.specs.Network.{IsLimited, net_of};
ghost use Rattle.plan_core.specs.Views.{shown_plan};
ghost use Rattle.form_plans.specs.Taken.{HasPlanOfQ, IsFaultOfQ, IsPropPlan};

use crate::fault::FormFault;
use crate::flow_divisors::flow_divisor;
use crate::made::{is_fine, made};
use crate::slices::prop_slices;
use blend_network::Network;
use plan_core::WrittenPlan;
use point_checks::is_prop_point;
use program_points::PropPoint;
pub use program_points::q::point_of;
use std::alloc::Global;

/// The written plan of a point: its proportions as weights, and its flows over the least base that makes them whole. It is well
/// written, it obeys, and it has the point's flows and its cost. NotAPoint comes where the point is none of form Q within the
/// limits, and then TooFine where the least base is above 65,536.
pub fn plan_of(alloc: Global, net: &Network, point: &PropPoint) -> Result<WrittenPlan, FormFault>
    // Promise: The plan of a point of P, Q or PQ is that plan; it comes exactly for points within the limits whose flows have a base that a
    //   plan can have and, at a point of P, whose parts have one
    ensures plan { IfOk result (λ w. IsPropPlan (net_of net.now) point.now (shown_plan w)) }
    // Promise: The plan of a point of P, Q or PQ is that plan; it comes exactly for points within the limits whose flows have a base that a
    //   plan can have and, at a point of P, whose parts have one
    ensures has_plan { OnOk result (HasPlanOfQ (net_of net.now) point.now) }
    // Promise: The plan of a point of P, Q or PQ is that plan; it comes exactly for points within the limits whose flows have a base that a
    //   plan can have and, at a point of P, whose parts have one
    ensures fault { IfErr result (IsFaultOfQ (net_of net.now) point.now) }
    ensures limited { IsLimited (net_of net.now) }
{
    let lists = prop_slices(point);
    if !is_prop_point(net, &lists) {
        return Err(FormFault::NotAPoint);
    }
    let divisor = flow_divisor(lists.flows.base, lists.flows.outs, lists.flows.directs);
    if !is_fine(lists.flows.base, divisor) {
        return Err(FormFault::TooFine);
    }
    let weights = Vec::from_slice(alloc, lists.props)?;
    made(alloc, &lists.flows, divisor, lists.prop_base, weights)
}
