//! Sums of flows at a node.

ghost use Rattle.std.specs.Prelude.{◌≡◌, ◌*◌, ◌<◌, ◌≤◌, ◌^◌, get_or, length, unsigned_abs};
ghost use Rattle.integers.specs.Sums.{sum_at};
ghost use Rattle.pool_model.specs.Network.{net_of};
ghost use Rattle.blend_network.specs.Keys.{count_of, key_of, nodes_of};
ghost use Rattle.point_checks.specs.Sizes.{AreAtMost};

use blend_network::{Key, Network};

/// The sum of the flows that a key has at a node.
pub fn sum_at_node(net: &Network, key: Key, node: u32, flows: &[u128]) -> u128
    requires node { node < nodes_of (net_of net.now) key }
    requires long { length flows.now ≡ count_of (net_of net.now) key }
    requires small { AreAtMost (2 ^ 83) flows.now }
    ensures sum { result ≡ sum_at (key_of (net_of net.now) key) node (λ i. get_or flows.now i 0) (count_of (net_of net.now) key) }
    ensures small { result ≤ 2 ^ 92 }
{
    let mut sum = 0;
    for number in net.numbers_at(key, node) {
        sum += flows[*number as usize];
    }
    sum
}

/// A maximum or a minimum over a base.
pub fn room(base: u64, millionths: i64) -> u128
    ensures { result ≡ base * unsigned_abs millionths }
{
    u128::from(base) * u128::from(millionths.unsigned_abs())
}
