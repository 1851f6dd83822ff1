//! Whether a split may come next.

ghost use Rattle.std.specs.Prelude.{◌<◌, length, IfOk, IfErr};
ghost use Rattle.pool_model.specs.Network.{net_of};
ghost use Rattle.row_model.specs.Trees as trees;
ghost use Rattle.box_space.specs.Views.{shown_split};
ghost use Rattle.split_tree.specs.Faults.{IsFirstFault};
ghost use Rattle.split_tree.specs.Spans.{CutsBetween};
ghost use Rattle.split_tree.specs.Splits.{IsOf, MayCome};

use crate::fault::SplitFault;
use crate::span::Span;
use crate::splits::{MAX_SPLITS, SplitTree};
use blend_network::Network;
use box_space::{Split, coords};

impl SplitTree {
    /// The ends that a split cuts between, exactly where it may come next; else the first fault.
    pub fn judge(&self, net: &Network, split: &Split) -> Result<Span, SplitFault>
        requires { IsOf (net_of net.now) self.now }
        ensures span { IfOk result (CutsBetween (net_of net.now) self.now.list (shown_split split.now)) }
        // Promise: A split is refused for its first fault, and else cuts a leaf strictly inside its box
        ensures cuts { IfOk result (λ _. MayCome (net_of net.now) self.now.list (shown_split split.now)) }
        ensures few { IfOk result (λ _. length self.now.list < trees.most_splits) }
        // Promise: A split is refused for its first fault, and else cuts a leaf strictly inside its box
        ensures fault { IfErr result (IsFirstFault (net_of net.now) self.now.list (shown_split split.now)) }
    {
        if !self.is_leaf(split.leaf) {
            return Err(SplitFault::NotALeaf);
        }
        if split.coord >= coords(net) {
            return Err(SplitFault::BadCoord);
        }
        let span = self.span_of(net, split.leaf, split.coord);
        if !span.has_inside(split.cut) {
            return Err(SplitFault::CutOutside);
        }
        if self.len() >= MAX_SPLITS {
            return Err(SplitFault::TooManySplits);
        }
        Ok(span)
    }
}
