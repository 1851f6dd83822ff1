//! Whether flows carry: no node takes or sends more than it may, and what flows into a pool flows out of it.

ghost use Rattle.std.specs.Prelude.{◌≡◌, ℕ, ◌*◌, ◌<◌, ◌≤◌, ◌↔◌, IsTrue};
ghost use Rattle.pool_model.specs.Network.{net_of};
ghost use Rattle.pool_model.specs.Plan.{Carries, KeepsMaxima};
ghost use Rattle.point_checks.specs.Flows.{AreFlows, KeepsPool, KeepsProduct, KeepsSource, flows_plan};

use crate::flows::Flows;
use crate::sums::{room, sum_at_node};
use blend_network::{Key, Network};

/// Whether flows that keep within the maxima of their arcs carry.
pub fn carry(net: &Network, flows: &Flows) -> bool
    requires flows { AreFlows (net_of net.now) flows.now }
    requires maxima { KeepsMaxima (net_of net.now) (flows_plan flows.now) }
    ensures { IsTrue result ↔ Carries (net_of net.now) (flows_plan flows.now) }
{
    keep_sources(net, flows) && keep_pools(net, flows) && keep_products(net, flows)
}

fn keep_sources(net: &Network, flows: &Flows) -> bool
    requires { AreFlows (net_of net.now) flows.now }
    ensures { IsTrue result ↔ ((i : ℕ) → i < (net_of net.now).sources → KeepsSource (net_of net.now) (flows_plan flows.now) i) }
{
    let counts = net.sizes();
    for source in 0..counts.sources {
        if !keep_source(net, flows, source) {
            return false;
        }
    }
    true
}

fn keep_pools(net: &Network, flows: &Flows) -> bool
    requires { AreFlows (net_of net.now) flows.now }
    ensures { IsTrue result ↔ ((l : ℕ) → l < (net_of net.now).pools → KeepsPool (net_of net.now) (flows_plan flows.now) l) }
{
    let counts = net.sizes();
    for pool in 0..counts.pools {
        if !keep_pool(net, flows, pool) {
            return false;
        }
    }
    true
}

fn keep_products(net: &Network, flows: &Flows) -> bool
    requires { AreFlows (net_of net.now) flows.now }
    ensures { IsTrue result ↔ ((j : ℕ) → j < (net_of net.now).products → KeepsProduct (net_of net.now) (flows_plan flows.now) j) }
{
    let counts = net.sizes();
    for product in 0..counts.products {
        if !keep_product(net, flows, product) {
            return false;
        }
    }
    true
}

/// Whether a source sends no more than its maximum.
fn keep_source(net: &Network, flows: &Flows, source: u32) -> bool
    requires flows { AreFlows (net_of net.now) flows.now }
    requires source { source < (net_of net.now).sources }
    ensures { IsTrue result ↔ KeepsSource (net_of net.now) (flows_plan flows.now) source }
{
    let pooled = sum_at_node(net, Key::FeedsFrom, source, flows.feeds);
    let straight = sum_at_node(net, Key::DirectsFrom, source, flows.directs);
    pooled + straight <= room(flows.base, net.source_max(source))
}

/// Whether what flows into a pool flows out of it, and no more than its maximum.
fn keep_pool(net: &Network, flows: &Flows, pool: u32) -> bool
    requires flows { AreFlows (net_of net.now) flows.now }
    requires pool { pool < (net_of net.now).pools }
    ensures { IsTrue result ↔ KeepsPool (net_of net.now) (flows_plan flows.now) pool }
{
    let taken = sum_at_node(net, Key::FeedsInto, pool, flows.feeds);
    let sent = sum_at_node(net, Key::OutsFrom, pool, flows.outs);
    taken == sent && sent <= room(flows.base, net.pool_max(pool))
}

/// Whether a product takes as much as it must, and no more than it can.
fn keep_product(net: &Network, flows: &Flows, product: u32) -> bool
    requires flows { AreFlows (net_of net.now) flows.now }
    requires product { product < (net_of net.now).products }
    ensures { IsTrue result ↔ KeepsProduct (net_of net.now) (flows_plan flows.now) product }
{
    let pooled = sum_at_node(net, Key::OutsInto, product, flows.outs);
    let straight = sum_at_node(net, Key::DirectsInto, product, flows.directs);
    let taken = pooled + straight;
    room(flows.base, net.product_min(product)) <= taken
        && taken <= room(flows.base, net.product_max(product))
}
