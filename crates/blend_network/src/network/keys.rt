//! The arcs and the paths that meet a node, and the limits that are set. No answer takes a search.

ghost use Rattle.std.specs.Prelude.{◌≡◌, ◌<◌, ◌≤◌, map, length, get_or, All};
ghost use Rattle.integers.specs.Numbers.{numbers_at};
ghost use Rattle.pool_model.specs.Network.{net_of};
ghost use Rattle.pool_model.specs.Limits.{no_limit};
ghost use Rattle.blend_network.specs.Keys.{key_of, nodes_of, count_of, key_number};
ghost use Rattle.blend_network.specs.Limits.{side_limits};
ghost use Rattle.blend_network.specs.Views.{shown_limit};

use super::Network;
use crate::keys::Key;
use crate::limits::{Limit, LimitSide};

impl Network {
    /// The numbers of the arcs or paths that have this node by the key, rising.
    pub fn numbers_at(&self, key: Key, node: u32) -> &[u32]
        requires { node < nodes_of (net_of self.now) key }
        // Promise: What meets a node is exactly that, in rising order, and at most 512
        ensures numbers { result.now ≡ numbers_at (key_of (net_of self.now) key) node (count_of (net_of self.now) key) }
        ensures known { All (λ i. i < count_of (net_of self.now) key) result.now }
        // Promise: What meets a node is exactly that, in rising order, and at most 512
        ensures few { length result.now ≤ 512 }
    {
        self.index[key.number()].of(node)
    }

    /// How many limits of the side are set.
    pub fn count_limits(&self, side: LimitSide) -> u32
        ensures count { result ≡ length (side_limits (net_of self.now) side) }
        ensures small { result ≤ 512 }
    {
        self.limits.of(side).len() as u32
    }

    /// The limit of a number among those of the side that are set: they go by product, and then by quality.
    pub fn limit_at(&self, side: LimitSide, n: u32) -> Limit
        requires { n < length (side_limits (net_of self.now) side) }
        // Promise: The limits that are set are exactly those, by product and then by quality
        ensures limit { shown_limit result ≡ get_or (side_limits (net_of self.now) side) n no_limit }
        ensures product { result.product < (net_of self.now).products }
        ensures quality { result.quality < (net_of self.now).qualities }
    {
        self.limits.of(side)[n as usize]
    }
}

impl Key {
    fn number(self) -> usize
        ensures { result ≡ key_number self }
    {
        self as usize
    }
}
