//! What a plan costs, and the order of costs.

ghost use Rattle.std.specs.Prelude.{◌≡◌, ℕ, ◌<◌, ◌≤◌, ◌*◌, ◌^◌, get_or, pos, ◌*ℤ◌, unsigned_abs};
ghost use Rattle.std.specs.Ordering.{int_cmp};
ghost use Rattle.integers.specs.Sums.{int_sum_below, sum_below};
ghost use Rattle.pool_model.specs.Network.{net_of};
ghost use Rattle.pool_model.specs.Plan.{carriage as carriage_of, plan_of, cost_of};
ghost use Rattle.plan_core.specs.Views.{shown_plan};
ghost use Rattle.plan_core.specs.Faults.{IsShaped};
ghost use Rattle.plan_core.specs.Weighed.{ArePoolOutflows, AreSourceOutflows, AreProductInflows, HasRoom};

use crate::arcs::arc_flow;
use crate::plan::{Cost, WrittenPlan};
use crate::qualities::weighted;
use crate::sums::{MAX_POOLS, MAX_PRODUCTS, MAX_SOURCES};
use blend_network::Network;
use exact_num::compare_ratio;
use std::cmp::Ordering;

/// Which of two costs is less, as fractions.
pub fn compare_cost(a: &Cost, b: &Cost) -> Ordering
    requires a { 0 < a.now.base }
    requires b { 0 < b.now.base }
    // Promise: Costs over different bases are compared exactly
    ensures { result ≡ int_cmp (pos b.now.base *ℤ a.now.num) (pos a.now.base *ℤ b.now.num) }
{
    compare_ratio(a.num, a.base.into(), b.num, b.base.into())
}

/// What the plan costs, from what flows out of each pool and source and into each product: purchases and carriage less revenue.
pub(crate) fn cost(
    net: &Network,
    plan: &WrittenPlan,
    through: &[u128; MAX_POOLS],
    outflows: &[u128; MAX_SOURCES],
    inflows: &[u128; MAX_PRODUCTS],
) -> Cost
    requires shaped { IsShaped (net_of net.now) (shown_plan plan.now) }
    requires through { ArePoolOutflows (net_of net.now) (shown_plan plan.now) through.now }
    requires size { (l : ℕ) → get_or through.now l 0 ≤ 2 ^ 72 }
    requires outflows { AreSourceOutflows (net_of net.now) (shown_plan plan.now) outflows.now }
    requires inflows { AreProductInflows (net_of net.now) (shown_plan plan.now) inflows.now }
    requires room { HasRoom (net_of net.now) (shown_plan plan.now) }
    ensures num { result.num ≡ cost_of (net_of net.now) (plan_of (net_of net.now) (shown_plan plan.now)) }
    ensures base { result.base ≡ plan.now.flow_base * plan.now.base }
    ensures size { unsigned_abs result.num ≤ 2 ^ 124 }
{
    let spent = purchases(net, outflows) + carriage(net, plan, through);
    Cost {
        num: spent - revenue(net, inflows),
        base: plan.denominator(),
    }
}

/// What the purchases cost.
fn purchases(net: &Network, outflows: &[u128; MAX_SOURCES]) -> i128
    requires { sum_below (λ i. get_or outflows.now i 0) (net_of net.now).sources ≤ 2 ^ 82 }
    ensures value { result ≡ int_sum_below (λ i. (net_of net.now).source_cost i *ℤ pos (get_or outflows.now i 0)) (net_of net.now).sources }
    ensures size { unsigned_abs result ≤ 2 ^ 122 }
{
    let counts = net.sizes();
    let mut total = 0;
    for source in 0..counts.sources {
        total += priced(net.source_cost(source), outflows[source as usize]);
    }
    total
}

/// What the flows along all arcs cost.
fn carriage(net: &Network, plan: &WrittenPlan, through: &[u128; MAX_POOLS]) -> i128
    requires shaped { IsShaped (net_of net.now) (shown_plan plan.now) }
    requires through { ArePoolOutflows (net_of net.now) (shown_plan plan.now) through.now }
    requires size { (l : ℕ) → get_or through.now l 0 ≤ 2 ^ 72 }
    requires room { HasRoom (net_of net.now) (shown_plan plan.now) }
    ensures value { result ≡ carriage_of (net_of net.now) (plan_of (net_of net.now) (shown_plan plan.now)) }
    ensures size { unsigned_abs result ≤ 2 ^ 123 }
{
    let counts = net.sizes();
    let mut total = 0;
    for arc in 0..counts.feeds + counts.outs + counts.directs {
        total += priced(net.arc_cost(arc), arc_flow(net, plan, through, arc));
    }
    total
}

/// What the products bring.
fn revenue(net: &Network, inflows: &[u128; MAX_PRODUCTS]) -> i128
    requires { sum_below (λ j. get_or inflows.now j 0) (net_of net.now).products ≤ 2 ^ 82 }
    ensures value { result ≡ int_sum_below (λ j. (net_of net.now).price j *ℤ pos (get_or inflows.now j 0)) (net_of net.now).products }
    ensures size { unsigned_abs result ≤ 2 ^ 122 }
{
    let counts = net.sizes();
    let mut total = 0;
    for product in 0..counts.products {
        total += priced(net.product_price(product), inflows[product as usize]);
    }
    total
}

/// Money for each unit of a flow.
fn priced(money: i64, flow: u128) -> i128
    requires money { unsigned_abs money ≤ 10 ^ 12 }
    requires flow { flow ≤ 2 ^ 83 }
    ensures value { result ≡ money *ℤ pos flow }
    ensures size { unsigned_abs result ≤ 10 ^ 12 * flow }
{
    weighted(i128::from(money), flow)
}
