//! What a starting plan costs, where it obeys.

ghost use Rattle.std.specs.Prelude.{◌≡◌, ◌<◌, ◌≤◌, ◌*◌, ◌^◌, ◌↔◌, pos, ◌+ℤ◌, ◌-ℤ◌, ◌*ℤ◌, IfSome, IfNone, IsTrue, if◌then◌else◌, ◌==◌, unsigned_abs};
ghost use Rattle.pool_model.specs.Network.{net_of, IsLimited};
ghost use Rattle.pool_model.specs.Plan.{Obeys, cost_of, plan_of};
ghost use Rattle.pool_model.specs.Starting.{MeetsMinima, StartObeys, simple_plan, start_cost as start_cost_of, starts, way_carriage};
ghost use Rattle.start_ways.specs.Ways.{shown_way, IsInRange};

use crate::way::{Way, ends, start_way, way_flow};
use blend_network::Network;

/// What a starting plan costs, where it obeys.
pub(crate) fn start_cost(net: &Network, number: u32) -> Option<i128>
    requires { number < starts (net_of net.now) }
    ensures obeys { IfSome result (λ _. StartObeys (net_of net.now) number) }
    ensures cost { IfSome result (λ c. c ≡ start_cost_of (net_of net.now) number) }
    ensures size { IfSome result (λ c. unsigned_abs c ≤ 4 * 10 ^ 24) }
    ensures breaks { IfNone result (¬ StartObeys (net_of net.now) number) }
{
    match start_way(net, number) {
        None if meets_minima(net, 0, 0) => Some(0),
        None => None,
        Some(way) => way_cost(net, way),
    }
}

/// What the simple plan of a way costs, where it obeys.
fn way_cost(net: &Network, way: Way) -> Option<i128>
    requires { IsInRange (net_of net.now) way }
    ensures obeys { IfSome result (λ _. Obeys (net_of net.now) (plan_of (net_of net.now) (simple_plan (net_of net.now) (shown_way (net_of net.now) way)))) }
    ensures cost { IfSome result (λ c. c ≡ cost_of (net_of net.now) (plan_of (net_of net.now) (simple_plan (net_of net.now) (shown_way (net_of net.now) way)))) }
    ensures size { IfSome result (λ c. unsigned_abs c ≤ 4 * 10 ^ 24) }
    ensures breaks { IfNone result (¬ Obeys (net_of net.now) (plan_of (net_of net.now) (simple_plan (net_of net.now) (shown_way (net_of net.now) way)))) }
{
    let (source, product) = ends(net, way);
    let flow = way_flow(net, way);
    if meets_minima(net, product, flow) {
        Some(earned(margin(net, way, source, product), flow))
    } else {
        None
    }
}

/// Whether each product takes what it must, where so much flows into this one and nothing into the others.
fn meets_minima(net: &Network, product: u32, flow: u64) -> bool
    ensures meets { IsTrue result ↔ MeetsMinima (net_of net.now) product flow }
    ensures limited { IsLimited (net_of net.now) }
{
    let counts = net.sizes();
    for other in 0..counts.products {
        if taken(product, flow, other) < net.product_min(other).unsigned_abs() {
            return false;
        }
    }
    true
}

/// What a product takes, where so much flows into this one and nothing into the others.
fn taken(product: u32, flow: u64, other: u32) -> u64
    ensures { result ≡ (if product == other then flow else 0) }
{
    if product == other { flow } else { 0 }
}

/// What a unit costs more at the source and along the way than it brings at the product, in millionths of money.
fn margin(net: &Network, way: Way, source: u32, product: u32) -> i128
    requires way { IsInRange (net_of net.now) way }
    requires source { source < (net_of net.now).sources }
    requires product { product < (net_of net.now).products }
    ensures value { let n = net_of net.now in result ≡ n.source_cost source +ℤ way_carriage n (shown_way n way) -ℤ n.price product }
    ensures size { unsigned_abs result ≤ 4 * 10 ^ 12 }
{
    let price = net.product_price(product);
    i128::from(net.source_cost(source)) + i128::from(carriage(net, way)) - i128::from(price)
}

/// What a unit along the arcs of a way costs, in millionths of money.
fn carriage(net: &Network, way: Way) -> i64
    requires { IsInRange (net_of net.now) way }
    ensures value { result ≡ way_carriage (net_of net.now) (shown_way (net_of net.now) way) }
    ensures size { unsigned_abs result ≤ 2 * 10 ^ 12 }
{
    match way {
        Way::Through(path) => {
            let (feed, out) = net.path(path);
            net.feed_cost(feed) + net.out_cost(out)
        }
        Way::Direct(direct) => net.direct_cost(direct),
    }
}

/// A margin for each unit of a flow.
fn earned(margin: i128, flow: u64) -> i128
    requires margin { unsigned_abs margin ≤ 4 * 10 ^ 12 }
    requires flow { flow ≤ 10 ^ 12 }
    ensures value { result ≡ margin *ℤ pos flow }
    ensures size { unsigned_abs result ≤ 4 * 10 ^ 24 }
{
    margin * i128::from(flow)
}
