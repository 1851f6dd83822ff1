//! The written plan of a point of form Pq.

ghost use Rattle.std.specs.Prelude.{IfErr, IfOk, OnOk};
ghost use Rattle.pool_model.specs.Network.{net_of};
ghost use Rattle.plan_core.specs.Views.{shown_plan};
ghost use Rattle.form_plans.specs.Taken.{HasPlanOfPq, IsFaultOfPq, IsPropPlan};

use crate::fault::FormFault;
use crate::q;
use blend_network::Network;
use plan_core::WrittenPlan;
use program_points::PropPoint;
pub use program_points::pq::point_of;
use std::alloc::Global;

/// The written plan of a point, as of one of form Q: its further rows hold at each of those.
pub fn plan_of(alloc: Global, net: &Network, point: &PropPoint) -> Result<WrittenPlan, FormFault>
    // Promise: The plan of a point of P, Q or PQ is that plan; it comes exactly for points within the limits whose flows have a base that a
    //   plan can have and, at a point of P, whose parts have one
    ensures plan { IfOk result (λ w. IsPropPlan (net_of net.now) point.now (shown_plan w)) }
    // Promise: The plan of a point of P, Q or PQ is that plan; it comes exactly for points within the limits whose flows have a base that a
    //   plan can have and, at a point of P, whose parts have one
    ensures has_plan { OnOk result (HasPlanOfPq (net_of net.now) point.now) }
    // Promise: The plan of a point of P, Q or PQ is that plan; it comes exactly for points within the limits whose flows have a base that a
    //   plan can have and, at a point of P, whose parts have one
    ensures fault { IfErr result (IsFaultOfPq (net_of net.now) point.now) }
{
    q::plan_of(alloc, net, point)
}
