//! Points of form Q.

ghost use Rattle.std.specs.Prelude.{◌≡◌, IfOk};
ghost use Rattle.pool_model.specs.Network.{IsLimited, net_of};
ghost use Rattle.pool_model.specs.Plan.{IsWritten, Obeys, plan_of};
ghost use Rattle.plan_core.specs.Views.{shown_plan};
ghost use Rattle.program_model.specs.Points.{SameCost, SameFlows, proportion_flows};
ghost use Rattle.program_points.specs.Held.{IsHeldOfQ};
ghost use Rattle.program_points.specs.Views.{shown_prop};
ghost use Rattle.program_points.specs.Written.{ArePropsOf};

use crate::flows::{denominator, feed_flows, path_flows, scaled};
use crate::points::PropPoint;
use blend_network::Network;
use edge_io::Memory;
use plan_core::WrittenPlan;
use std::alloc::Global;

/// The point of a plan that obeys: its flows over both of its bases, and its weights as proportions.
pub fn point_of(alloc: Global, net: &Network, plan: &WrittenPlan) -> Result<PropPoint, Memory>
    requires written { IsWritten (net_of net.now) (shown_plan plan.now) }
    requires obeys { Obeys (net_of net.now) (plan_of (net_of net.now) (shown_plan plan.now)) }
    ensures lists { IfOk result (ArePropsOf (net_of net.now) (shown_plan plan.now)) }
    // Promise: The point of a plan that obeys is a point of the program, with the plan's flows and its cost
    ensures point { IfOk result (IsHeldOfQ (net_of net.now)) }
    // Promise: The point of a plan that obeys is a point of the program, with the plan's flows and its cost
    ensures flows { IfOk result (λ q. SameFlows (net_of net.now) (proportion_flows (shown_prop q)) (plan_of (net_of net.now) (shown_plan plan.now))) }
    // Promise: The point of a plan that obeys is a point of the program, with the plan's flows and its cost
    ensures cost { IfOk result (λ q. SameCost (net_of net.now) (proportion_flows (shown_prop q)) (plan_of (net_of net.now) (shown_plan plan.now))) }
    ensures limited { IsLimited (net_of net.now) }
{
    let x = feed_flows(alloc, net, plan)?;
    let props = Vec::from_slice(alloc, plan.weights.as_slice())?;
    let y = scaled(alloc, plan.base, plan.outflows.as_slice())?;
    let z = scaled(alloc, plan.base, plan.direct.as_slice())?;
    let w = path_flows(alloc, net, plan)?;
    Ok(PropPoint {
        base: denominator(plan.flow_base, plan.base),
        prop_base: plan.base,
        props,
        x,
        y,
        z,
        w,
    })
}
