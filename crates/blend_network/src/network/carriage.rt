//! What arcs cost, and how much they can carry.

ghost use Rattle.std.specs.Prelude.{◌≡◌, ◌<◌, ◌≤◌, ◌*◌, ◌^◌, IfSome, option_map, pos, unsigned_abs, map, All, IsTrue, ◌↔◌};
ghost use Rattle.std.specs.List.{list_all};
ghost use Rattle.std.specs.Option.{ForSome};
ghost use Rattle.pool_model.specs.Network.{net_of, arcs, arc_cost, arc_max, feed_delivered, direct_delivered};
ghost use Rattle.pool_model.specs.Plain.{is_plain, is_plain_arc};
ghost use Rattle.network_parts.specs.Faults.{IsUpTo};
ghost use Rattle.network_parts.specs.Views.{shown_arc};

use super::Network;
use network_parts::Arc;

impl Network {
    /// What a unit along an arc costs, in millionths of money. Arcs are numbered as feeds, then outs, then directs.
    pub fn arc_cost(&self, n: u32) -> i64
        requires { n < arcs (net_of self.now) }
        // Promise: Each reader gives the network's number
        ensures value { result ≡ arc_cost (net_of self.now) n }
        ensures size { unsigned_abs result ≤ 10 ^ 12 }
    {
        let feeds = self.feeds.len() as u32;
        let outs = self.outs.len() as u32;
        if n < feeds {
            self.feed_cost(n)
        } else if n - feeds < outs {
            self.out_cost(n - feeds)
        } else {
            self.direct_cost(n - feeds - outs)
        }
    }

    /// How much an arc can carry, in millionths, if that is limited. Arcs are numbered as feeds, then outs, then directs.
    pub fn arc_max(&self, n: u32) -> Option<i64>
        requires { n < arcs (net_of self.now) }
        // Promise: Each reader gives the network's number
        ensures value { result ≡ option_map pos (arc_max (net_of self.now) n) }
        ensures size { IfSome result (IsUpTo (10 ^ 14)) }
    {
        let feeds = self.feeds.len() as u32;
        let outs = self.outs.len() as u32;
        if n < feeds {
            self.feed_max(n)
        } else if n - feeds < outs {
            self.out_max(n - feeds)
        } else {
            self.direct_max(n - feeds - outs)
        }
    }

    /// What a unit along the feed costs, in millionths of money.
    pub fn feed_cost(&self, n: u32) -> i64
        requires { n < (net_of self.now).feeds }
        // Promise: Each reader gives the network's number
        ensures value { result ≡ (net_of self.now).feed_cost n }
        ensures size { unsigned_abs result ≤ 10 ^ 12 }
    {
        self.feeds[n as usize].cost as i64
    }

    /// What a unit along the out costs, in millionths of money.
    pub fn out_cost(&self, n: u32) -> i64
        requires { n < (net_of self.now).outs }
        // Promise: Each reader gives the network's number
        ensures value { result ≡ (net_of self.now).out_cost n }
        ensures size { unsigned_abs result ≤ 10 ^ 12 }
    {
        self.outs[n as usize].cost as i64
    }

    /// What a unit along the direct costs, in millionths of money.
    pub fn direct_cost(&self, n: u32) -> i64
        requires { n < (net_of self.now).directs }
        // Promise: Each reader gives the network's number
        ensures value { result ≡ (net_of self.now).direct_cost n }
        ensures size { unsigned_abs result ≤ 10 ^ 12 }
    {
        self.directs[n as usize].cost as i64
    }

    /// What a unit costs that the feed brings, at its source and along the arc, in millionths of money.
    pub fn feed_delivered(&self, n: u32) -> i64
        requires { n < (net_of self.now).feeds }
        ensures value { result ≡ feed_delivered (net_of self.now) n }
        ensures size { unsigned_abs result ≤ 2 * 10 ^ 12 }
    {
        let (source, _) = self.feed(n);
        self.source_cost(source) + self.feed_cost(n)
    }

    /// What a unit costs that the direct brings, at its source and along the arc, in millionths of money.
    pub fn direct_delivered(&self, n: u32) -> i64
        requires { n < (net_of self.now).directs }
        ensures value { result ≡ direct_delivered (net_of self.now) n }
        ensures size { unsigned_abs result ≤ 2 * 10 ^ 12 }
    {
        let (source, _) = self.direct(n);
        self.source_cost(source) + self.direct_cost(n)
    }

    /// How much the feed can carry, in millionths, if that is limited.
    pub fn feed_max(&self, n: u32) -> Option<i64>
        requires { n < (net_of self.now).feeds }
        // Promise: Each reader gives the network's number
        ensures value { result ≡ option_map pos ((net_of self.now).feed_max n) }
        ensures size { IfSome result (IsUpTo (10 ^ 14)) }
    {
        amount(self.feeds[n as usize].max)
    }

    /// How much the out can carry, in millionths, if that is limited.
    pub fn out_max(&self, n: u32) -> Option<i64>
        requires { n < (net_of self.now).outs }
        // Promise: Each reader gives the network's number
        ensures value { result ≡ option_map pos ((net_of self.now).out_max n) }
        ensures size { IfSome result (IsUpTo (10 ^ 14)) }
    {
        amount(self.outs[n as usize].max)
    }

    /// How much the direct can carry, in millionths, if that is limited.
    pub fn direct_max(&self, n: u32) -> Option<i64>
        requires { n < (net_of self.now).directs }
        // Promise: Each reader gives the network's number
        ensures value { result ≡ option_map pos ((net_of self.now).direct_max n) }
        ensures size { IfSome result (IsUpTo (10 ^ 14)) }
    {
        amount(self.directs[n as usize].max)
    }

    /// Whether a file of version 1 can say the network: no pool removes anything, and no arc costs anything or has a maximum.
    pub fn is_plain(&self) -> bool
        ensures { result ≡ is_plain self.now }
    {
        self.scale == 1
            && (are_plain(&self.feeds) && (are_plain(&self.outs) && are_plain(&self.directs)))
    }
}

/// The amount, where there is one, as readers give it.
fn amount(max: Option<u128>) -> Option<i64>
    requires { ForSome max (λ m. m ≤ 10 ^ 14) }
    ensures value { result ≡ option_map pos max }
    ensures size { IfSome result (IsUpTo (10 ^ 14)) }
{
    match max {
        Some(max) => Some(max as i64),
        None => None,
    }
}

/// Whether none of the arcs costs anything or has a maximum.
fn are_plain(arcs: &[Arc]) -> bool
    ensures { result ≡ list_all is_plain_arc (map shown_arc arcs.now) }
{
    is_each_plain(arcs)
}

fn is_each_plain(arcs: &[Arc]) -> bool
    ensures { IsTrue result ↔ All (λ a. IsTrue (is_plain_arc (shown_arc a))) arcs.now }
{
    arcs.iter().all(|arc| is_plain_arc(*arc))
}

fn is_plain_arc(arc: Arc) -> bool
    ensures { IsTrue result ↔ IsTrue (is_plain_arc (shown_arc arc)) }
{
    arc.cost == 0 && arc.max.is_none()
}
