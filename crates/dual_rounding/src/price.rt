//! The price proof: each pool's balance, times what its cheapest feed costs.

ghost use Rattle.std.specs.Prelude.{◌≡◌, ◌<◌, IfOk};
ghost use Rattle.pool_model.specs.Network.{feed_delivered, net_of};
ghost use Rattle.box_space.specs.Views.{shown_proof};
ghost use Rattle.dual_rounding.specs.Price as prices;

use crate::multipliers::add_part;
use blend_network::{Network, lesser_of};
use box_space::Proof;
use std::alloc::{AllocError, Global};

/// What flows through a pool costs at least what its cheapest feed costs. The rows that say that a pool sends what it takes
/// stand behind those of the sources.
pub(crate) fn price_proof(alloc: Global, net: &Network) -> Result<Proof, AllocError>
    ensures { IfOk result (λ p. shown_proof p ≡ prices.price_proof (net_of net.now)) }
{
    let counts = net.sizes();
    let mut parts = Vec::new(alloc);
    for pool in 0..counts.pools {
        add_part(&mut parts, counts.sources + pool, pool_price(net, pool))?;
    }
    Ok(Proof { scale: 1, parts })
}

/// The least cost of a unit that is fed to the pool, at its source and along its feed, in millionths of money; 0 where nothing
/// feeds it.
fn pool_price(net: &Network, pool: u32) -> i64
    ensures { result ≡ prices.pool_price (net_of net.now) pool }
{
    let counts = net.sizes();
    let mut least = None;
    for feed in 0..counts.feeds {
        let (_, to) = net.feed(feed);
        let cost = if to == pool {
            Some(delivered(net, feed))
        } else {
            None
        };
        least = lesser_of(least, cost);
    }
    least.unwrap_or(0)
}

/// What a unit costs that a feed brings.
fn delivered(net: &Network, feed: u32) -> i64
    requires { feed < (net_of net.now).feeds }
    ensures { result ≡ feed_delivered (net_of net.now) feed }
{
    let (source, _) = net.feed(feed);
    net.source_cost(source) + net.feed_cost(feed)
}
