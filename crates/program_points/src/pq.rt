//! Points of form Pq.

ghost use Rattle.std.specs.Prelude.{◌≡◌, IfOk};
ghost use Rattle.pool_model.specs.Network.{net_of};
ghost use Rattle.pool_model.specs.Plan.{IsWritten, Obeys, plan_of};
ghost use Rattle.plan_core.specs.Views.{shown_plan};
ghost use Rattle.program_model.specs.Points.{SameCost, SameFlows, proportion_flows};
ghost use Rattle.program_points.specs.Held.{IsHeldOfPq};
ghost use Rattle.program_points.specs.Views.{shown_prop};
ghost use Rattle.program_points.specs.Written.{ArePropsOf};

use crate::points::PropPoint;
use crate::q;
use blend_network::Network;
use edge_io::Memory;
use plan_core::WrittenPlan;
use std::alloc::Global;

/// The point of a plan that obeys: that of form Q, at which the further rows hold as well.
pub fn point_of(alloc: Global, net: &Network, plan: &WrittenPlan) -> Result<PropPoint, Memory>
    requires written { IsWritten (net_of net.now) (shown_plan plan.now) }
    requires obeys { Obeys (net_of net.now) (plan_of (net_of net.now) (shown_plan plan.now)) }
    ensures lists { IfOk result (ArePropsOf (net_of net.now) (shown_plan plan.now)) }
    // Promise: The point of a plan that obeys is a point of the program, with the plan's flows and its cost
    ensures point { IfOk result (IsHeldOfPq (net_of net.now)) }
    // Promise: The point of a plan that obeys is a point of the program, with the plan's flows and its cost
    ensures flows { IfOk result (λ q. SameFlows (net_of net.now) (proportion_flows (shown_prop q)) (plan_of (net_of net.now) (shown_plan plan.now))) }
    // Promise: The point of a plan that obeys is a point of the program, with the plan's flows and its cost
    ensures cost { IfOk result (λ q. SameCost (net_of net.now) (proportion_flows (shown_prop q)) (plan_of (net_of net.now) (shown_plan plan.now))) }
{
    q::point_of(alloc, net, plan)
}
