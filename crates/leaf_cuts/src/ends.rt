//! The ends of boxes, and how great they are.

ghost use Rattle.std.specs.Prelude.{◌≡◌, ◌<◌, ◌≤ℤ◌};
ghost use Rattle.pool_model.specs.Network.{IsLimited, net_of};
ghost use Rattle.row_model.specs.Boxes.{coords, root};
ghost use Rattle.box_space.specs.Views.{shown_box_ends, AreEnds};
ghost use Rattle.leaf_cuts.specs.Halvings.{AreNear};

use blend_network::Network;
use box_space::{BoxEnds, coord_at, root_ends};

/// The ends of a box at a coordinate.
pub(crate) fn ends_at(net: &Network, ends: &BoxEnds, coord: u32) -> (i64, i64)
    requires limited { IsLimited (net_of net.now) }
    requires ends { AreEnds (net_of net.now) ends.now }
    requires known { coord < coords (net_of net.now) }
    ensures low { result.0 ≡ (shown_box_ends ends.now).low coord }
    ensures high { result.1 ≡ (shown_box_ends ends.now).high coord }
    ensures order { result.0 ≤ℤ result.1 }
    ensures near { AreNear result.0 result.1 }
    ensures inside { ((root (net_of net.now)).low coord ≤ℤ result.0) × (result.1 ≤ℤ (root (net_of net.now)).high coord) }
{
    let view = ends.view();
    (view.low_at(coord), view.high_at(coord))
}

/// The ends of the root box at a coordinate.
pub(crate) fn root_ends_at(net: &Network, coord: u32) -> (i64, i64)
    requires limited { IsLimited (net_of net.now) }
    requires known { coord < coords (net_of net.now) }
    ensures low { result.0 ≡ (root (net_of net.now)).low coord }
    ensures high { result.1 ≡ (root (net_of net.now)).high coord }
    ensures near { AreNear result.0 result.1 }
{
    root_ends(net, coord_at(net, coord))
}
