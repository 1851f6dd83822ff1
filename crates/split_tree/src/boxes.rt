//! The box of a node, and its ends at one coordinate.

ghost use Rattle.std.specs.Prelude.{◌≡◌, ◌-◌, ◌/◌, ◌<◌, IfOk, get_or, pos, length};
ghost use Rattle.std.specs.Int.{int_min, int_max};
ghost use Rattle.map_versions.specs.Versions.{most_keys};
ghost use Rattle.pool_model.specs.Network.{Net, IsLimited, net_of};
ghost use Rattle.row_model.specs.Boxes.{coords};
ghost use Rattle.row_model.specs.Trees as trees;
ghost use Rattle.split_tree.specs.Cuts.{HaveKeys, IsInnermost};
ghost use Rattle.split_tree.specs.Splits.{IsOf, MayCome};
ghost use Rattle.split_tree.specs.Spans.{IsSpanOf, half_at};
ghost use Rattle.box_space.specs.Views.{shown_split, AreEndsOf, AreRoot};

use crate::span::{Side, Span};
use crate::splits::SplitTree;
use blend_network::Network;
use box_space::{BoxEnds, Split, coord_at, coords, root_box, root_ends};
use edge_io::Memory;

impl SplitTree {
    /// The box of a node.
    pub fn box_of(&self, net: &Network, node: u32) -> Result<BoxEnds, Memory>
        requires tree { IsOf (net_of net.now) self.now }
        requires there { node < trees.nodes self.now.list }
        // Promise: The box of a node is that which the cuts above it leave of the root box
        ensures { IfOk result (AreEndsOf (net_of net.now) (trees.box_of (net_of net.now) self.now.list node)) }
    {
        let mut ends = root_box(self.alloc, net)?;
        self.narrow(net, node, &mut ends);
        Ok(ends)
    }

    /// The same where the ends are held already: those of the root box become those of the node's. It takes no memory. For a node of
    /// few splits above it goes up to the root, and for another it looks up the innermost cut of each coordinate.
    pub fn narrow(&self, net: &Network, node: u32, ends: &mut BoxEnds)
        requires limited { IsLimited (net_of net.now) }
        requires tree { IsOf (net_of net.now) self.now }
        requires there { node < trees.nodes self.now.list }
        requires root { AreRoot (net_of net.now) ends.old }
        ensures { AreEndsOf (net_of net.now) (trees.box_of (net_of net.now) self.now.list node) ends.new }
    {
        if self.is_near_root(node, 2 * coords(net)) {
            self.climb(net, node, ends);
        } else {
            self.look_up(net, node, ends);
        }
    }

    /// From the node up to the root each cut narrows the ends.
    fn climb(&self, net: &Network, node: u32, ends: &mut BoxEnds)
        requires limited { IsLimited (net_of net.now) }
        requires tree { IsOf (net_of net.now) self.now }
        requires there { node < trees.nodes self.now.list }
        requires root { AreRoot (net_of net.now) ends.old }
        ensures { AreEndsOf (net_of net.now) (trees.box_of (net_of net.now) self.now.list node) ends.new }
    {
        let splits = self.splits();
        let mut at = node;
        while at > 0 {
            let split = splits[(at as usize - 1) / 2];
            let coord = split.coord as usize;
            if at % 2 == 1 {
                ends.high[coord] = ends.high.as_slice()[coord].min(split.cut);
            } else {
                ends.low[coord] = ends.low.as_slice()[coord].max(split.cut);
            }
            at = split.leaf;
        }
    }

    /// For each coordinate that is cut above the node, the ends that the innermost cut leaves.
    fn look_up(&self, net: &Network, node: u32, ends: &mut BoxEnds)
        requires limited { IsLimited (net_of net.now) }
        requires tree { IsOf (net_of net.now) self.now }
        requires there { node < trees.nodes self.now.list }
        requires root { AreRoot (net_of net.now) ends.old }
        ensures { AreEndsOf (net_of net.now) (trees.box_of (net_of net.now) self.now.list node) ends.new }
    {
        for coord in 0..coords(net) {
            let at = self.innermost(node, coord);
            if at == 0 {
                continue;
            }
            let span = self.half_span(at);
            ends.low[coord as usize] = span.low;
            ends.high[coord as usize] = span.high;
        }
    }

    /// The box of a half of a split that cuts a leaf, before it is added.
    pub fn half_box(&self, net: &Network, split: &Split, side: Side) -> Result<BoxEnds, Memory>
        requires tree { IsOf (net_of net.now) self.now }
        requires cuts { MayCome (net_of net.now) self.now.list (shown_split split.now) }
        ensures { IfOk result (AreEndsOf (net_of net.now) (half_at (net_of net.now) self.now.list (shown_split split.now) side)) }
    {
        let mut ends = self.box_of(net, split.leaf)?;
        match side {
            Side::Left => {
                ends.high[split.coord as usize] = split.cut;
                Ok(ends)
            }
            Side::Right => {
                ends.low[split.coord as usize] = split.cut;
                Ok(ends)
            }
        }
    }

    /// The ends of a node's box at a coordinate: those that the innermost cut above the node on this coordinate leaves, or the
    /// root's. It takes a few steps and no memory, however many splits are above the node.
    pub(crate) fn span_of(&self, net: &Network, node: u32, coord: u32) -> Span
        requires limited { IsLimited (net_of net.now) }
        requires tree { IsOf (net_of net.now) self.now }
        requires there { node < trees.nodes self.now.list }
        requires known { coord < coords (net_of net.now) }
        ensures { IsSpanOf (trees.box_of (net_of net.now) self.now.list node) coord result }
    {
        let at = self.innermost(node, coord);
        if at > 0 {
            self.half_span(at)
        } else {
            let (low, high) = root_ends(net, coord_at(net, coord));
            Span { low, high }
        }
    }

    /// From a node up to the root the first node that a split on the coordinate made; the root where there is none.
    fn innermost(&self, node: u32, coord: u32) -> u32
        requires there { node < trees.nodes self.now.list }
        requires keys { HaveKeys self.now.list }
        requires key { coord < most_keys }
        ensures { IsInnermost self.now.list coord result node }
    {
        if node == 0 {
            return 0;
        }
        let above = (node as usize - 1) / 2;
        if self.splits()[above].coord == coord {
            node
        } else {
            self.maps.number(above as u32 + 1, coord)
        }
    }

    /// The ends of a half's box at the coordinate of the split that made it.
    fn half_span(&self, node: u32) -> Span
        requires some { 0 < node }
        requires there { node < trees.nodes self.now.list }
        requires tree { (n : Net) × IsOf n self.now }
        ensures { (n : Net) → IsOf n self.now → IsSpanOf (trees.box_of n self.now.list node) (trees.split_at self.now.list ((node - 1) / 2)).coord result }
    {
        let above = (node as usize - 1) / 2;
        let cut = self.splits()[above].cut;
        let Span { low, high } = self.spans.as_slice()[above];
        if node % 2 == 1 {
            Span { low, high: cut }
        } else {
            Span { low: cut, high }
        }
    }

    /// Whether at most so many splits are above a node. It only chooses a way to find the node's box.
    fn is_near_root(&self, node: u32, most: u32) -> bool {
        let mut at = node;
        for _ in 0..most {
            if at == 0 {
                return true;
            }
            match self.splits.get((at as usize - 1) / 2) {
                Some(split) => at = split.leaf,
                None => return false,
            }
        }
        at == 0
    }
}
