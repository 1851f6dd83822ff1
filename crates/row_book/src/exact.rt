//! Where the rows stand that are the same in every box.

ghost use Rattle.std.specs.Prelude.{◌≡◌, ◌+◌, ◌≤◌};
ghost use Rattle.pool_model.specs.Network.{IsLimited, net_of};
ghost use Rattle.row_model.specs.Catalogue as catalogue;
ghost use Rattle.row_book.specs.Exact.{first_of, exact_count};

use crate::catalogue::Group;
use crate::network_rows;
use blend_network::Network;
use formulations::{p, pq, q};

/// Rows of the catalogue, one after another.
#[derive(Clone, Copy, Debug)]
pub struct RowRange {
    /// The number of the first one.
    pub first: u32,
    /// How many there are.
    pub count: u32,
}

/// The rows of a group that are the same in every box: they come before its envelopes.
pub fn exact_rows(net: &Network, group: Group) -> RowRange
    // Promise: The rows of a group that are the same in every box, and so no envelopes, begin at this number, and are this many
    ensures first { result.first ≡ first_of (net_of net.now) group }
    // Promise: The rows of a group that are the same in every box, and so no envelopes, begin at this number, and are this many
    ensures count { result.count ≡ exact_count (net_of net.now) group }
    ensures fits { result.first + result.count ≤ catalogue.rows (net_of net.now) }
    ensures small { result.first + result.count ≤ 13424 }
    ensures limited { IsLimited (net_of net.now) }
{
    match group {
        Group::Network => of_network(net),
        Group::P => of_p(net),
        Group::Q => of_q(net),
        Group::Further => further(net),
    }
}

/// All rows of the network.
fn of_network(net: &Network) -> RowRange
    ensures first { result.first ≡ first_of (net_of net.now) Group.Network }
    ensures count { result.count ≡ exact_count (net_of net.now) Group.Network }
    ensures fits { result.first + result.count ≤ catalogue.rows (net_of net.now) }
    ensures small { result.first + result.count ≤ 13424 }
    ensures limited { IsLimited (net_of net.now) }
{
    RowRange {
        first: 0,
        count: network_rows::count(net),
    }
}

/// The rows of P before its envelopes.
fn of_p(net: &Network) -> RowRange
    ensures first { result.first ≡ first_of (net_of net.now) Group.P }
    ensures count { result.count ≡ exact_count (net_of net.now) Group.P }
    ensures fits { result.first + result.count ≤ catalogue.rows (net_of net.now) }
    ensures small { result.first + result.count ≤ 13424 }
    ensures limited { IsLimited (net_of net.now) }
{
    RowRange {
        first: network_rows::count(net),
        count: p::exact_rows(net),
    }
}

/// The rows of Q before its envelopes.
fn of_q(net: &Network) -> RowRange
    ensures first { result.first ≡ first_of (net_of net.now) Group.Q }
    ensures count { result.count ≡ exact_count (net_of net.now) Group.Q }
    ensures fits { result.first + result.count ≤ catalogue.rows (net_of net.now) }
    ensures small { result.first + result.count ≤ 13424 }
    ensures limited { IsLimited (net_of net.now) }
{
    RowRange {
        first: network_rows::count(net) + p::count(net),
        count: q::exact_rows(net),
    }
}

/// The rows that PQ has beside those of Q.
fn further(net: &Network) -> RowRange
    ensures first { result.first ≡ first_of (net_of net.now) Group.Further }
    ensures count { result.count ≡ exact_count (net_of net.now) Group.Further }
    ensures fits { result.first + result.count ≤ catalogue.rows (net_of net.now) }
    ensures small { result.first + result.count ≤ 13424 }
    ensures limited { IsLimited (net_of net.now) }
{
    RowRange {
        first: network_rows::count(net) + p::count(net) + q::count(net),
        count: pq::count(net),
    }
}
