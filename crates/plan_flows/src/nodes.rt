//! What flows through the nodes of a plan, over its denominator.

ghost use Rattle.std.specs.Prelude.{◌≡◌, ◌<◌, ◌≤◌, ◌^◌};
ghost use Rattle.pool_model.specs.Network.{IsLimited, net_of};
ghost use Rattle.pool_model.specs.Plan.{IsWritten, plan_of, outflow, product_inflow, source_outflow};
ghost use Rattle.plan_core.specs.Views.{shown_plan};

use blend_network::Network;
use plan_core::{WrittenPlan, pool_outflows, product_inflows, source_outflows};

/// What a source sends out, over the plan's denominator: along feeds, and directly.
pub fn source_flow(net: &Network, plan: &WrittenPlan, source: u32) -> u128
    requires written { IsWritten (net_of net.now) (shown_plan plan.now) }
    requires source { source < (net_of net.now).sources }
    // Promise: What flows along an arc and through a node is that of the plan that a written plan stands for
    ensures flow { result ≡ source_outflow (net_of net.now) (plan_of (net_of net.now) (shown_plan plan.now)) source }
    ensures size { result ≤ 2 ^ 113 }
{
    let pools = pool_outflows(net, plan);
    source_outflows(net, plan, &pools)[source as usize]
}

/// What a pool sends out, over the plan's denominator.
pub fn pool_flow(net: &Network, plan: &WrittenPlan, pool: u32) -> u128
    requires written { IsWritten (net_of net.now) (shown_plan plan.now) }
    requires pool { pool < (net_of net.now).pools }
    // Promise: What flows along an arc and through a node is that of the plan that a written plan stands for
    ensures flow { result ≡ outflow (net_of net.now) (plan_of (net_of net.now) (shown_plan plan.now)) pool }
    ensures size { result ≤ 2 ^ 104 }
{
    u128::from(plan.base) * pool_outflows(net, plan)[pool as usize]
}

/// What flows into a product, over the plan's denominator: along outs, and directly.
pub fn product_flow(net: &Network, plan: &WrittenPlan, product: u32) -> u128
    requires written { IsWritten (net_of net.now) (shown_plan plan.now) }
    requires product { product < (net_of net.now).products }
    // Promise: What flows along an arc and through a node is that of the plan that a written plan stands for
    ensures flow { result ≡ product_inflow (net_of net.now) (plan_of (net_of net.now) (shown_plan plan.now)) product }
    ensures size { result ≤ 2 ^ 105 }
    ensures limited { IsLimited (net_of net.now) }
{
    product_inflows(net, plan)[product as usize]
}
