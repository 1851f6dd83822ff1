//! Points of form P.

ghost use Rattle.std.specs.Prelude.{◌≡◌, IfOk};
ghost use Rattle.pool_model.specs.Network.{net_of};
ghost use Rattle.pool_model.specs.Plan.{IsWritten, Obeys, plan_of};
ghost use Rattle.plan_core.specs.Views.{shown_plan};
ghost use Rattle.program_model.specs.Points.{SameCost, SameFlows, quality_flows};
ghost use Rattle.program_points.specs.Held.{IsHeldOfP};
ghost use Rattle.program_points.specs.Views.{shown_qual};
ghost use Rattle.program_points.specs.Written.{AreQualsOf};

use crate::flows::{denominator, feed_flows, scaled};
use crate::points::QualPoint;
use crate::qualities::{mixed_flows, pool_qualities};
use blend_network::Network;
use edge_io::Memory;
use plan_core::WrittenPlan;
use std::alloc::Global;

/// The point of a plan that obeys: its flows over both of its bases, and the qualities of its pools by their weights. A pool
/// that sends nothing has the quality of its weights.
pub fn point_of(alloc: Global, net: &Network, plan: &WrittenPlan) -> Result<QualPoint, Memory>
    requires written { IsWritten (net_of net.now) (shown_plan plan.now) }
    requires obeys { Obeys (net_of net.now) (plan_of (net_of net.now) (shown_plan plan.now)) }
    ensures lists { IfOk result (AreQualsOf (net_of net.now) (shown_plan plan.now)) }
    // Promise: The point of a plan that obeys is a point of the program, with the plan's flows and its cost
    ensures point { IfOk result (IsHeldOfP (net_of net.now)) }
    // Promise: The point of a plan that obeys is a point of the program, with the plan's flows and its cost
    ensures flows { IfOk result (λ q. SameFlows (net_of net.now) (quality_flows (shown_qual (net_of net.now) q)) (plan_of (net_of net.now) (shown_plan plan.now))) }
    // Promise: The point of a plan that obeys is a point of the program, with the plan's flows and its cost
    ensures cost { IfOk result (λ q. SameCost (net_of net.now) (quality_flows (shown_qual (net_of net.now) q)) (plan_of (net_of net.now) (shown_plan plan.now))) }
{
    let quals = pool_qualities(alloc, net, plan)?;
    let x = feed_flows(alloc, net, plan)?;
    let y = scaled(alloc, plan.base, plan.outflows.as_slice())?;
    let z = scaled(alloc, plan.base, plan.direct.as_slice())?;
    let mix = mixed_flows(alloc, net, plan)?;
    Ok(QualPoint {
        base: denominator(plan.flow_base, plan.base),
        qual_base: plan.base,
        quals,
        x,
        y,
        z,
        mix,
    })
}
