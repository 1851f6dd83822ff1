//! A leaf as a cut rule sees it.

ghost use Rattle.std.specs.Prelude.{◌≡◌, ◌<◌, IfOk};
ghost use Rattle.pool_model.specs.Network.{IsLimited, net_of};
ghost use Rattle.row_model.specs.Boxes.{coords, Box};
ghost use Rattle.box_space.specs.Views.{AreEnds, AreEndsOf};
ghost use Rattle.box_tree.specs.Kept.{IsOf};
ghost use Rattle.branching.specs.Rows.{IsRow};
ghost use Rattle.leaf_cuts.specs.Views.{IsRowOf, IsViewOf};

use crate::ends::{ends_at, root_ends_at};
use crate::leaf::Leaf;
use blend_network::Network;
use box_space::{BoxEnds, Form, coords, of_form};
use box_tree::Tree;
use branching::{CoordRow, LeafView};
use edge_io::Memory;
use lp_sparse::lookup::at;
use std::alloc::Global;

/// The view of a leaf of a tree, with what each coordinate is missed by.
pub(crate) fn leaf_view(
    alloc: Global,
    net: &Network,
    tree: &Tree,
    form: Form,
    leaf: &Leaf,
    misses: &[u64],
) -> Result<LeafView, Memory>
    requires limited { IsLimited (net_of net.now) }
    requires tree { IsOf (net_of net.now) tree.now }
    requires ends { AreEnds (net_of net.now) leaf.now.ends }
    ensures { (b : Box) → AreEndsOf (net_of net.now) b leaf.now.ends → IfOk result (IsViewOf (net_of net.now) form tree.now.kept.splits.list b leaf.now.node) }
{
    let mut rows = Vec::new(alloc);
    for coord in 0..coords(net) {
        if of_form(net, form, coord) {
            let miss = at(misses, coord as usize, 0);
            rows.push(row_of(net, tree, &leaf.ends, coord, miss))?;
        }
    }
    Ok(LeafView::new(leaf.node, rows))
}

/// The row of a coordinate.
fn row_of(net: &Network, tree: &Tree, ends: &BoxEnds, coord: u32, miss: u64) -> CoordRow
    requires limited { IsLimited (net_of net.now) }
    requires tree { IsOf (net_of net.now) tree.now }
    requires ends { AreEnds (net_of net.now) ends.now }
    requires known { coord < coords (net_of net.now) }
    ensures row { IsRow result }
    ensures coord { result.coord ≡ coord }
    ensures ends { (b : Box) → AreEndsOf (net_of net.now) b ends.now → IsRowOf (net_of net.now) tree.now.kept.splits.list b result }
{
    let (low, high) = ends_at(net, ends, coord);
    let (root_low, root_high) = root_ends_at(net, coord);
    let cuts = tree.cuts();
    CoordRow {
        coord,
        cuts: cuts[coord as usize],
        low,
        high,
        root_width: root_high - root_low,
        miss,
    }
}
