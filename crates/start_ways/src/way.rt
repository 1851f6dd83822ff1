//! The ways of a network, and the starting plans by number.

ghost use Rattle.std.specs.Prelude.{◌≡◌, ◌<◌, ◌≤◌, ◌^◌};
ghost use Rattle.pool_model.specs.Network.{net_of};
ghost use Rattle.pool_model.specs.Starting.{starts, way_flow as way_flow_of, way_product, way_source};
ghost use Rattle.start_ways.specs.Ways.{shown_way, IsInRange, IsStartWay};

use crate::flow::{direct_flow, path_flow};
use blend_network::Network;

/// A way from a source to a product.
#[derive(Clone, Copy, Debug, PartialEq, Eq)]
pub enum Way {
    /// A path, by its number.
    Through(u32),
    /// A direct, by its number.
    Direct(u32),
}

/// The way of a starting plan: none for the first, which is the zero plan, then each path, then each direct.
pub fn start_way(net: &Network, number: u32) -> Option<Way>
    requires { number < starts (net_of net.now) }
    ensures { IsStartWay (net_of net.now) number result }
{
    let paths = net.paths();
    if number == 0 {
        None
    } else if number <= paths {
        Some(Way::Through(number - 1))
    } else {
        Some(Way::Direct(number - 1 - paths))
    }
}

/// The source and the product at the ends of a way.
pub(crate) fn ends(net: &Network, way: Way) -> (u32, u32)
    requires { IsInRange (net_of net.now) way }
    ensures source { result.0 ≡ way_source (net_of net.now) (shown_way (net_of net.now) way) }
    ensures product { result.1 ≡ way_product (net_of net.now) (shown_way (net_of net.now) way) }
    ensures sources { result.0 < (net_of net.now).sources }
    ensures products { result.1 < (net_of net.now).products }
{
    match way {
        Way::Through(path) => net.path_ends(path),
        Way::Direct(direct) => net.direct(direct),
    }
}

/// How much a way alone carries, in millionths.
pub(crate) fn way_flow(net: &Network, way: Way) -> u64
    requires { IsInRange (net_of net.now) way }
    ensures flow { result ≡ way_flow_of (net_of net.now) (shown_way (net_of net.now) way) }
    ensures size { result ≤ 10 ^ 12 }
{
    match way {
        Way::Through(path) => path_flow(net, path),
        Way::Direct(direct) => direct_flow(net, direct),
    }
}
