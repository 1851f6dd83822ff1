//! The bound on cost that margins alone give.

ghost use Rattle.std.specs.Prelude.{◌≡◌, ◌<◌, ◌≤◌, ◌*◌, ◌^◌, ℤ, pos, ◌*ℤ◌, ◌≤ℤ◌, unsigned_abs};
ghost use Rattle.std.specs.Option.{ForSome};
ghost use Rattle.pool_model.specs.Network.{net_of, IsWithin};
ghost use Rattle.pool_model.specs.Starting.{out_delivered, pool_cost, reach_cost, margin, reach_bound};
ghost use Rattle.blend_network.specs.Reach.{direct_reach, through_reach};
ghost use Rattle.network_parts.specs.Faults.{IsUpTo};

use super::Network;
use crate::lesser::lesser_of;

impl Network {
    /// No plan costs less than this, in picos: each product full, at its best margin over the ways that reach it: what a unit
    /// costs at its source and along the arcs. A product that no source reaches earns nothing.
    pub fn reach_bound(&self) -> i128
        // Promise: The reach bound is the definition's
        ensures bound { result ≡ reach_bound (net_of self.now) }
        ensures size { unsigned_abs result ≤ 256 * 10 ^ 24 }
    {
        let mut earned: i128 = 0;
        for j in 0..self.products.len() as u32 {
            let margin = best_margin(self.reach_cost(j), self.product_price(j));
            earned += earnings(self.product_max(j), margin);
        }
        -earned
    }

    /// The least that a unit costs that reaches the product.
    fn reach_cost(&self, product: u32) -> Option<i64>
        ensures { result ≡ reach_cost (net_of self.now) product }
    {
        lesser_of(self.direct_reach(product), self.through_reach(product))
    }

    /// The least that a unit costs that reaches the product directly.
    fn direct_reach(&self, product: u32) -> Option<i64>
        ensures { result ≡ direct_reach (net_of self.now) product }
    {
        let mut least = None;
        for e in 0..self.directs.len() as u32 {
            let (_, to) = self.direct(e);
            let cost = if to == product {
                Some(self.direct_delivered(e))
            } else {
                None
            };
            least = lesser_of(least, cost);
        }
        least
    }

    /// The least that a unit costs that reaches the product through a pool.
    fn through_reach(&self, product: u32) -> Option<i64>
        ensures { result ≡ through_reach (net_of self.now) product }
    {
        let mut least = None;
        for o in 0..self.outs.len() as u32 {
            let (_, to) = self.out(o);
            let cost = if to == product {
                self.out_delivered(o)
            } else {
                None
            };
            least = lesser_of(least, cost);
        }
        least
    }

    /// The least that a unit costs that reaches a product along the out.
    fn out_delivered(&self, out: u32) -> Option<i64>
        requires { out < (net_of self.now).outs }
        ensures { result ≡ out_delivered (net_of self.now) out }
    {
        let (pool, _) = self.out(out);
        match self.pool_cost(pool) {
            Some(cost) => Some(cost + self.out_cost(out)),
            None => None,
        }
    }

    /// The least that a unit costs that feeds bring to the pool.
    fn pool_cost(&self, pool: u32) -> Option<i64>
        ensures value { result ≡ pool_cost (net_of self.now) pool }
        ensures size { ForSome result (IsWithin (2 * 10 ^ 12)) }
    {
        let mut least = None;
        for e in 0..self.feeds.len() as u32 {
            let (_, to) = self.feed(e);
            let cost = if to == pool {
                Some(self.feed_delivered(e))
            } else {
                None
            };
            least = lesser_of(least, cost);
        }
        least
    }
}

/// What a unit at this price earns at the most, where it costs at least that.
fn best_margin(cost: Option<i64>, price: i64) -> i64
    requires cost { ForSome cost (IsWithin (3 * 10 ^ 12)) }
    requires price { IsWithin (10 ^ 12) price }
    ensures margin { result ≡ margin cost price }
    ensures size { IsUpTo (4 * 10 ^ 12) result }
{
    match cost {
        Some(cost) if cost < price => price - cost,
        _ => 0,
    }
}

/// What this much flow earns at this margin.
fn earnings(flow: i64, margin: i64) -> i128
    requires flow { IsUpTo (10 ^ 12) flow }
    requires margin { IsUpTo (4 * 10 ^ 12) margin }
    ensures earnings { result ≡ flow *ℤ margin }
    ensures size { IsUpTo (4 * 10 ^ 24) result }
{
    i128::from(flow) * i128::from(margin)
}
