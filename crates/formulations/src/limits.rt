//! Limits as rows count them.

ghost use Rattle.std.specs.Prelude.{◌≡◌, ◌≤◌, ◌^◌, unsigned_abs};
ghost use Rattle.pool_model.specs.Network.{net_of};
ghost use Rattle.row_model.specs.Catalogue.{limit_parts};
ghost use Rattle.blend_network.specs.Views.{shown_limit};

use blend_network::{Limit, Network};

/// A limit in parts of the network's scale.
pub(crate) fn in_parts(net: &Network, u: Limit) -> i64
    requires { unsigned_abs u.limit ≤ 10 ^ 11 }
    ensures { result ≡ limit_parts (net_of net.now) (shown_limit u) }
{
    net.scale() * u.limit
}
