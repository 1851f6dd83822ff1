//! A product's mean of a quality.

ghost use Rattle.std.specs.Prelude.{◌<◌};
ghost use Rattle.pool_model.specs.Network.{net_of};
ghost use Rattle.pool_model.specs.Plan.{IsWritten, Obeys, plan_of, product_inflow};
ghost use Rattle.plan_core.specs.Views.{shown_plan};
ghost use Rattle.plan_flows.specs.Means.{IsMean};

use crate::nodes::product_flow;
use blend_network::Network;
use plan_core::{WrittenPlan, product_qualities, weighted};

/// How much of a quality reaches a product, in parts of the scale, and the scale times what flows into it, both over the plan's
/// denominator: the first over the second is the product's mean of the quality, in millionths.
pub fn mean(net: &Network, plan: &WrittenPlan, j: u32, k: u32) -> (i128, i128)
    requires written { IsWritten (net_of net.now) (shown_plan plan.now) }
    requires obeys { Obeys (net_of net.now) (plan_of (net_of net.now) (shown_plan plan.now)) }
    requires product { j < (net_of net.now).products }
    requires quality { k < (net_of net.now).qualities }
    requires inflow { 0 < product_inflow (net_of net.now) (plan_of (net_of net.now) (shown_plan plan.now)) j }
    // Promise: A product's mean is the exact quotient of the blending rules
    ensures { IsMean (net_of net.now) (plan_of (net_of net.now) (shown_plan plan.now)) j k result.0 result.1 }
{
    let inflow = product_flow(net, plan, j);
    let qualities = product_qualities(net, plan, k);
    (
        qualities[j as usize],
        weighted(i128::from(net.scale()), inflow),
    )
}
