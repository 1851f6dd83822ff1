//! The written plan of a point of form P.
//!
//! A point of P says which flows and which qualities, but not which weights. A feed's weight is its part of what its pool sends,
//! over the least base that makes all parts whole: the least common multiple, over the pools, of what a pool sends over what
//! divides it and its feeds. No limit of its own is needed for it to fit. At a point the flows carry, so what a pool sends is
//! at most 2^92, and the multiple so far is at most 1,048,576, since the next one that passes this ends the search: their
//! product is below 2^128.

ghost use Rattle.std.specs.Prelude.{◌≡◌, ◌*◌, ◌/◌, ◌<◌, ◌≤◌, ◌^◌, IfErr, IfOk, OnOk};
ghost use Rattle.pool_model.specs.Network.{net_of};
ghost use Rattle.plan_core.specs.Views.{shown_plan};
ghost use Rattle.form_plans.specs.Taken.{HasPlanOfP, IsFaultOfP, IsQualPlan};

use crate::fault::FormFault;
use crate::feeds::weights;
use crate::flow_divisors::flow_divisor;
use crate::made::{is_fine, made};
use crate::part_bases::part_base;
use crate::slices::qual_slices;
use blend_network::Network;
use plan_core::WrittenPlan;
use point_checks::is_qual_point;
use program_points::QualPoint;
pub use program_points::p::point_of;
use std::alloc::Global;

/// The written plan of a point: each feed's part of what its pool sends as its weight, over the least base that makes all parts
/// whole, and flows over the least base that makes them whole. All weight of a pool that sends nothing stands on its first feed.
/// The plan is well written, it obeys, and it has the point's flows and its cost. NotAPoint comes where the point is none of form
/// P within the limits, and then TooFine where the least flow base is above 65,536 or no base within 1,048,576 makes the parts
/// whole.
pub fn plan_of(alloc: Global, net: &Network, point: &QualPoint) -> Result<WrittenPlan, FormFault>
    // Promise: The plan of a point of P, Q or PQ is that plan; it comes exactly for points within the limits whose flows have a base that a
    //   plan can have and, at a point of P, whose parts have one
    ensures plan { IfOk result (λ w. IsQualPlan (net_of net.now) point.now (shown_plan w)) }
    // Promise: The plan of a point of P, Q or PQ is that plan; it comes exactly for points within the limits whose flows have a base that a
    //   plan can have and, at a point of P, whose parts have one
    ensures has_plan { OnOk result (HasPlanOfP (net_of net.now) point.now) }
    // Promise: The plan of a point of P, Q or PQ is that plan; it comes exactly for points within the limits whose flows have a base that a
    //   plan can have and, at a point of P, whose parts have one
    ensures fault { IfErr result (IsFaultOfP (net_of net.now) point.now) }
{
    let lists = qual_slices(point);
    if !is_qual_point(net, &lists) {
        return Err(FormFault::NotAPoint);
    }
    let divisor = flow_divisor(lists.flows.base, lists.flows.outs, lists.flows.directs);
    if !is_fine(lists.flows.base, divisor) {
        return Err(FormFault::TooFine);
    }
    let Some(base) = part_base(net, &lists.flows) else {
        return Err(FormFault::TooFine);
    };
    let parts = weights(alloc, net, &lists.flows, base)?;
    made(alloc, &lists.flows, divisor, base, parts)
}
