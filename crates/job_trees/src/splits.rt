//! The tree of splits, without proofs.

ghost use Rattle.std.specs.Prelude.{◌≡◌, map, IfOk, IfErr};
ghost use Rattle.pool_model.specs.Network.{net_of};
ghost use Rattle.row_model.specs.Trees.{IsTree};
ghost use Rattle.row_model.specs.Entries.{made_by};
ghost use Rattle.box_space.specs.Views.{shown_split};
ghost use Rattle.split_tree.specs.Splits as split_lists;
ghost use Rattle.box_tree.specs.Kept.{IsOf, searched_of};
ghost use Rattle.job_trees.specs.Fitting.{bare};

use crate::fault::JobsFault;
use blend_network::Network;
use box_space::Split;
use box_tree::{Entry, Tree};
use std::alloc::Global;

/// The tree of the splits, each taken after those before it.
pub(crate) fn tree_of(alloc: Global, net: &Network, splits: &[Split]) -> Result<Tree, JobsFault>
    ensures tree { IfOk result (IsOf (net_of net.now)) }
    ensures made { IfOk result (λ t. searched_of t.kept ≡ made_by (map bare (map shown_split splits.now))) }
    ensures splits { IfOk result (λ t. t.kept.splits.list ≡ map shown_split splits.now) }
    ensures misfit { IfErr result (λ f. f ≡ JobsFault.Misfit → ¬ IsTree (net_of net.now) (split_lists.tree_of (map shown_split splits.now))) }
{
    let mut tree = Tree::start(alloc, net)?;
    for split in splits {
        tree.apply(net, Entry::SplitOf(*split, None, None))?;
    }
    Ok(tree)
}
