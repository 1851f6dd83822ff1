//! The tree of a list of splits.

ghost use Rattle.std.specs.Prelude.{◌≡◌, ◌<◌, ◌≤◌, ℕ, length, map, IfOk};
ghost use Rattle.pool_model.specs.Network.{net_of};
ghost use Rattle.row_model.specs.Trees as trees;
ghost use Rattle.row_model.specs.Trees.{IsSplitInOrder, most_splits};
ghost use Rattle.split_tree.specs.Spans.{CutsBetween};
ghost use Rattle.split_tree.specs.Splits.{IsOf, MayCome};
ghost use Rattle.box_space.specs.Views.{shown_split};

use blend_network::Network;
use box_space::Split;
use edge_io::Memory;
use split_tree::{Span, SplitTree};
use std::alloc::Global;

/// The tree of splits that are in order.
pub(crate) fn tree_of(alloc: Global, net: &Network, splits: &[Split]) -> Result<SplitTree, Memory>
    requires few { length splits.now ≤ most_splits }
    requires order { (t : ℕ) → t < length splits.now → IsSplitInOrder (net_of net.now) (map shown_split splits.now) t }
    ensures of { IfOk result (IsOf (net_of net.now)) }
    ensures list { IfOk result (λ t. t.list ≡ map shown_split splits.now) }
{
    let mut tree = SplitTree::new(alloc)?;
    for t in 0..splits.len() {
        let split = splits[t];
        let span = span_of(net, &tree, &split);
        tree.push(split, span)?;
    }
    Ok(tree)
}

/// The ends that a split cuts between, which may come next.
fn span_of(net: &Network, tree: &SplitTree, split: &Split) -> Span
    requires tree { IsOf (net_of net.now) tree.now }
    requires few { length tree.now.list < most_splits }
    requires cuts { MayCome (net_of net.now) tree.now.list (shown_split split.now) }
    ensures { CutsBetween (net_of net.now) tree.now.list (shown_split split.now) result }
{
    tree.judge(net, split).unwrap()
}
