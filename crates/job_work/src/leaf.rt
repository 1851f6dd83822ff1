//! The work on a leaf.

ghost use Rattle.std.specs.Prelude.{◌≡◌, ◌<◌, IfOk, IfSome, IfNone};
ghost use Rattle.pool_model.specs.Network.{IsLimited, net_of};
ghost use Rattle.row_model.specs.Trees.{nodes, box_of, IsLeaf};
ghost use Rattle.box_tree.specs.Kept.{IsOf, searched_of};
ghost use Rattle.box_tree.specs.Views.{shown_entry};
ghost use Rattle.branching.specs.declared.name.RuleName.TheVariants as names;
ghost use Rattle.search_run.specs.Orders.{Keeps};
ghost use Rattle.job_work.specs.Worked.{least_at, CanBeCut, IsWorked};

use blend_network::Network;
use box_space::Form;
use box_tree::{Entry, Tree};
use branching::CutRule;
use edge_io::Memory;
use leaf_cuts::{Halving, solve_node};
use search_run::PIVOTS;
use std::alloc::Global;

/// What work on a leaf of a tree gives, by a cut rule that keeps to the widest coordinate: its split, with what is proved of both halves.
/// None where the leaf can't be cut.
pub(crate) fn work_leaf(
    alloc: Global,
    net: &Network,
    form: Form,
    tree: &Tree,
    node: u32,
    rule: &CutRule,
) -> Result<Option<Entry>, Memory>
    requires limited { IsLimited (net_of net.now) }
    requires tree { IsOf (net_of net.now) tree.now }
    requires leaf { IsLeaf tree.now.kept.splits.list node }
    requires rule { Keeps names.Widest (⟦<branching::RuleClosure as Fn(&branching::LeafView) -> usize>⟧.post rule.now.closure) }
    ensures some { IfOk result (λ o. IfSome o (λ entry. IsWorked (net_of net.now) form (searched_of tree.now.kept) node (shown_entry entry))) }
    ensures none { IfOk result (λ o. IfNone o (¬ CanBeCut (net_of net.now) form (box_of (net_of net.now) tree.now.kept.splits.list node))) }
{
    let least = least_of(net, tree, node);
    let (leaf, mut bench) = solve_node(alloc, net, tree, node, form, PIVOTS, least, None)?;
    // the rule asks for no numbers of what a cut may gain, so no coordinate is looked at
    let looked = bench.look(alloc, net, tree, &leaf, 0, 0)?;
    if !looked.view.has_open() {
        return Ok(None);
    }
    let split = rule.pick(&looked.view);
    let halvings = looked.halvings;
    let halving = bench.proved_at(alloc, net, &leaf, halvings, split.coord)?;
    let Halving { left, right, .. } = halving;
    Ok(Some(Entry::SplitOf(split, left, right)))
}

/// What the halves of a leaf are proved above, in picos: its bound, or the reach bound where it is known to hold no plan.
fn least_of(net: &Network, tree: &Tree, node: u32) -> i128
    requires tree { IsOf (net_of net.now) tree.now }
    requires there { node < nodes tree.now.kept.splits.list }
    ensures { result ≡ least_at (net_of net.now) (searched_of tree.now.kept).tree node }
{
    tree.node_bound(node).unwrap_or(net.reach_bound())
}
