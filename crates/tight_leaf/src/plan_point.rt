//! The point of a plan.

ghost use Rattle.std.specs.Prelude.{◌≡◌, ◌*◌, ◌<◌, ◌≤◌, ◌^◌, IfOk, length, pos, ◌*ℤ◌, unsigned_abs};
ghost use Rattle.pool_model.specs.Network.{IsLimited, net_of};
ghost use Rattle.pool_model.specs.Plan.{IsWritten, Obeys, plan_of, weight as weight_of, written_out};
ghost use Rattle.row_model.specs.Variables.{variables};
ghost use Rattle.box_space.specs.Variables.{IsVariable, at_variable};
ghost use Rattle.plan_core.specs.Views.{shown_plan};
ghost use Rattle.relaxation_points.specs.Views.{HasShape, shown_point};
ghost use Rattle.tight_leaf.specs.PlanPoints.{IsPlanPoint, plan_values, quality_by, share_of};

use blend_network::{Key, Network};
use box_space::{Variable, variable_at, vars};
use plan_core::WrittenPlan;
use plan_flows::{direct_flow, feed_flow, out_flow, pool_flow};
use relaxation_points::RelaxPoint;
use start_ways::is_first_feed;
use std::alloc::{AllocError, Global};

/// How many parts a proportion is counted in.
const GRAIN: i128 = 1_048_576;

/// The point of a plan, over both of its bases: its flows, the flow along each path, and what each pool mixes. A pool that sends nothing
/// stands at its first feed.
pub(crate) fn plan_point(
    alloc: Global,
    net: &Network,
    plan: &WrittenPlan,
) -> Result<RelaxPoint, AllocError>
    requires written { IsWritten (net_of net.now) (shown_plan plan.now) }
    requires obeys { Obeys (net_of net.now) (plan_of (net_of net.now) (shown_plan plan.now)) }
    ensures limited { IsLimited (net_of net.now) }
    ensures few { variables (net_of net.now) ≤ 4096 }
    ensures shape { IfOk result (HasShape (net_of net.now)) }
    ensures point { IfOk result (λ q. IsPlanPoint (net_of net.now) (plan_of (net_of net.now) (shown_plan plan.now)) (shown_point q)) }
{
    let mut values = Vec::new(alloc);
    for var in 0..vars(net) {
        values.push(value_of(net, plan, variable_at(net, var)))?;
    }
    Ok(RelaxPoint {
        base: plan.denominator(),
        values,
    })
}

/// The value of a variable, over both bases.
fn value_of(net: &Network, plan: &WrittenPlan, variable: Variable) -> i128
    requires written { IsWritten (net_of net.now) (shown_plan plan.now) }
    requires obeys { Obeys (net_of net.now) (plan_of (net_of net.now) (shown_plan plan.now)) }
    requires limited { IsLimited (net_of net.now) }
    requires among { IsVariable (net_of net.now) variable }
    ensures { result ≡ at_variable (plan_values (net_of net.now) (shown_plan plan.now)) variable }
{
    match variable {
        Variable::Feed(feed) => feed_flow(net, plan, feed) as i128,
        Variable::Out(out) => out_flow(net, plan, out) as i128,
        Variable::Direct(arc) => direct_flow(net, plan, arc) as i128,
        Variable::Path(path) => {
            let (feed, out) = net.path(path);
            product(weight(plan, feed), outflow(plan, out))
        }
        Variable::Proportion(feed) => {
            let parts = product(GRAIN, share(net, plan, feed));
            product(parts, i128::from(plan.flow_base))
        }
        Variable::Quality(pool, quality) => {
            let mixed = mixed_quality(net, plan, pool, quality);
            product(mixed, i128::from(plan.flow_base))
        }
        Variable::Mixed(out, quality) => {
            let (pool, _) = net.out(out);
            let mixed = mixed_quality(net, plan, pool, quality);
            product(mixed, outflow(plan, out))
        }
    }
}

/// The product of a quality, or of what is no larger, and a flow, or a base.
fn product(a: i128, b: i128) -> i128
    requires first { unsigned_abs a ≤ 2 ^ 66 }
    requires second { unsigned_abs b ≤ 2 ^ 56 }
    ensures { result ≡ a *ℤ b }
{
    a * b
}

/// The weight of a feed in its pool.
fn weight(plan: &WrittenPlan, feed: u32) -> i128
    requires { feed < length plan.now.weights.items }
    ensures value { result ≡ pos (weight_of (shown_plan plan.now) feed) }
    ensures small { unsigned_abs result < 2 ^ 32 }
{
    i128::from(plan.weights.as_slice()[feed as usize])
}

/// What flows along an out, over the flow base.
fn outflow(plan: &WrittenPlan, out: u32) -> i128
    requires { out < length plan.now.outflows.items }
    ensures { result ≡ pos (written_out (shown_plan plan.now) out) }
{
    i128::from(plan.outflows.as_slice()[out as usize])
}

/// A feed's part of its pool, over the base: its weight; where the pool sends nothing, all of it is the first feed's.
fn share(net: &Network, plan: &WrittenPlan, feed: u32) -> i128
    requires written { IsWritten (net_of net.now) (shown_plan plan.now) }
    requires limited { IsLimited (net_of net.now) }
    requires feed { feed < (net_of net.now).feeds }
    ensures value { result ≡ pos (share_of (net_of net.now) (shown_plan plan.now) feed) }
    ensures small { unsigned_abs result ≤ 2 ^ 20 }
{
    let (_, pool) = net.feed(feed);
    if pool_flow(net, plan, pool) > 0 {
        weight(plan, feed)
    } else if is_first_feed(net, feed) {
        i128::from(plan.base)
    } else {
        0
    }
}

/// The quality that a pool mixes, over the base.
fn mixed_quality(net: &Network, plan: &WrittenPlan, pool: u32, quality: u32) -> i128
    requires written { IsWritten (net_of net.now) (shown_plan plan.now) }
    requires limited { IsLimited (net_of net.now) }
    requires pool { pool < (net_of net.now).pools }
    requires quality { quality < (net_of net.now).qualities }
    ensures value { result ≡ quality_by (net_of net.now) (shown_plan plan.now) pool quality }
    ensures small { unsigned_abs result ≤ 2 ^ 66 }
{
    let mut sum = 0;
    for feed in net.numbers_at(Key::FeedsInto, pool) {
        let (source, _) = net.feed(*feed);
        let part = share(net, plan, *feed);
        sum += weighted(net.source_quality(source, quality), part);
    }
    sum
}

/// A quality for each part of a share.
fn weighted(quality: i64, share: i128) -> i128
    requires quality { unsigned_abs quality ≤ 10 ^ 11 }
    requires share { unsigned_abs share ≤ 2 ^ 20 }
    ensures value { result ≡ quality *ℤ share }
    ensures small { unsigned_abs result ≤ 2 ^ 57 }
{
    i128::from(quality) * share
}
