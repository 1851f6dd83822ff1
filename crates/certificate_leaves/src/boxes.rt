//! The box of a node, written into ends that are lent.

ghost use Rattle.std.specs.Prelude.{◌≡◌, ◌<◌, length};
ghost use Rattle.pool_model.specs.Network.{IsLimited, net_of};
ghost use Rattle.row_model.specs.Boxes.{coords};
ghost use Rattle.row_model.specs.Trees.{box_of, nodes};
ghost use Rattle.split_tree.specs.Splits.{IsOf};
ghost use Rattle.box_space.specs.Views.{AreEndsOf, AreRoot};

use blend_network::Network;
use box_space::BoxEnds;
use split_tree::SplitTree;

/// The ends of the box of a node, from those of the box of all plans. It takes no memory.
pub(crate) fn write_ends(
    net: &Network,
    tree: &SplitTree,
    root: &BoxEnds,
    node: u32,
    ends: &mut BoxEnds,
)
    requires limited { IsLimited (net_of net.now) }
    requires tree { IsOf (net_of net.now) tree.now }
    requires root { AreRoot (net_of net.now) root.now }
    requires there { node < nodes tree.now.list }
    requires lows { length ends.old.low.items ≡ coords (net_of net.now) }
    requires highs { length ends.old.high.items ≡ coords (net_of net.now) }
    ensures { AreEndsOf (net_of net.now) (box_of (net_of net.now) tree.now.list node) ends.new }
{
    copy_ends(root, ends);
    tree.narrow(net, node, ends);
}

/// The ends of one box become those of the other.
fn copy_ends(from: &BoxEnds, to: &mut BoxEnds)
    requires lows { length from.now.low.items ≡ length to.old.low.items }
    requires highs { length from.now.high.items ≡ length to.old.high.items }
    ensures lows { to.new.low.items ≡ from.now.low.items }
    ensures highs { to.new.high.items ≡ from.now.high.items }
{
    to.low.as_mut_slice().copy_from_slice(from.low.as_slice());
    to.high.as_mut_slice().copy_from_slice(from.high.as_slice());
}
