//! The tree of boxes, and what it answers without memory.

ghost use Rattle.std.specs.Prelude.{◌≡◌, ◌<◌, ℕ, map, length, get_or, Some, None, option_map, IfOk, MatchOption};
ghost use Rattle.pool_model.specs.Network.{Net, net_of};
ghost use Rattle.plan_core.specs.Views.{shown_plan};
ghost use Rattle.row_model.specs.Trees as trees;
ghost use Rattle.row_model.specs.Entries as entries;
ghost use Rattle.box_space.specs.Views.{AreEndsOf, shown_proof, shown_split};
ghost use Rattle.box_tree.specs.Counts.{AreCounts};
ghost use Rattle.box_tree.specs.Kept.{IsOf, searched_of};

use crate::leaves::root_alone;
use blend_network::Network;
use box_space::{BoxEnds, Proof, Split, coords};
use edge_io::Memory;
use leaf_order::LeafOrder;
use plan_core::{Cost, WrittenPlan};
use row_book::Scratch;
use split_tree::SplitTree;
use std::alloc::Global;
use std::marker::Model;

/// The cheapest plan so far, and what it costs.
#[derive(Debug, Drop)]
pub struct Best {
    pub plan: WrittenPlan,
    pub cost: Cost,
}

/// What a tree holds, taken apart.
#[derive(Debug, Drop)]
pub struct TreeParts {
    /// The splits, by number.
    pub splits: Vec<Split>,
    /// Of each node its proof, where it has one.
    pub proofs: Vec<Option<Proof>>,
    /// The cheapest plan, where there is one.
    pub best: Option<Best>,
}

/// A tree of boxes. Node 0 is the root, which holds all plans; split number t, from 0, cuts its node into the nodes 2t + 1, left,
/// and 2t + 2, right. It keeps the splits, how many are on each coordinate, each node's proof and its bound, the leaves that may hold
/// a plan in the order of their bounds, and the cheapest plan so far.
#[derive(Drop)]
pub struct Tree {
    pub(crate) splits: SplitTree,
    /// Of each coordinate, how many splits are on it.
    pub(crate) cuts: Vec<u32>,
    pub(crate) proofs: Vec<Option<Proof>>,
    /// Of each node, in picos: None where it holds no plan.
    pub(crate) bounds: Vec<Option<i128>>,
    /// Each leaf that may hold a plan, with its bound.
    pub(crate) order: LeafOrder,
    pub(crate) best: Option<Best>,
    pub(crate) scratch: Scratch,
}

impl Model for Tree {
    ghost use Rattle.std.specs.Prelude.{map, length, option_map};
    ghost use Rattle.plan_core.specs.Views.{shown_plan};
    ghost use Rattle.box_space.specs.Views.{shown_proof};
    ghost use Rattle.box_tree.specs.Kept.{Held, AreSized};
    ghost use Rattle.box_tree.specs.Open.{AreIndexed};

    ghost Value = { Held };

    ghost view = { λ t. record {
      kept = record {
        splits = t.splits;
        cuts = t.cuts.items;
        proofs = map (option_map shown_proof) t.proofs.items;
        bounds = t.bounds.items;
        best = option_map (λ b. shown_plan b.plan) t.best;
        cost = option_map (λ b. b.cost) t.best;
      };
      scratch = t.scratch;
    } };

    ghost invariant = { λ t. AreSized (length t.splits.list) (length t.proofs.items) (length t.bounds.items) × AreIndexed t.splits.list t.bounds.items t.order };
}

impl Tree {
    /// The tree of the root alone, without a proof or a plan.
    pub fn start(alloc: Global, net: &Network) -> Result<Tree, Memory>
        ensures searched { IfOk result (λ t. searched_of t.kept ≡ entries.start) }
        ensures tree { IfOk result (IsOf (net_of net.now)) }
    {
        let bound = Some(net.reach_bound());
        let splits = SplitTree::new(alloc)?;
        let cuts = vec![in alloc; 0; coords(net) as usize]?;
        let order = root_alone(alloc, bound)?;
        Ok(Tree {
            splits,
            cuts,
            proofs: vec![in alloc; None]?,
            bounds: vec![in alloc; bound]?,
            order,
            best: None,
            scratch: Scratch::new(alloc, net)?,
        })
    }

    /// The cheapest plan so far.
    pub fn best_plan(&self) -> Option<&WrittenPlan>
        ensures { MatchOption result (self.now.kept.best ≡ None) (λ p. self.now.kept.best ≡ Some (shown_plan p.now)) }
    {
        match &self.best {
            None => None,
            Some(best) => Some(&best.plan),
        }
    }

    /// What the cheapest plan so far costs.
    pub fn best_cost(&self) -> Option<Cost>
        ensures { result ≡ self.now.kept.cost }
    {
        match &self.best {
            None => None,
            Some(best) => Some(best.cost),
        }
    }

    /// The splits, by number.
    pub fn splits(&self) -> &[Split]
        ensures { map shown_split result.now ≡ self.now.kept.splits.list }
    {
        self.splits.splits()
    }

    /// For each coordinate the number of splits on it.
    pub fn cuts(&self) -> &[u32]
        // Promise: For each coordinate the number of splits on it
        ensures counts { (n : Net) → IsOf n self.now → AreCounts n self.now.kept.splits.list result.now }
        ensures kept { result.now ≡ self.now.kept.cuts }
    {
        self.cuts.as_slice()
    }

    /// The box of a node, found as `split_tree` says.
    pub fn box_of(&self, net: &Network, node: u32) -> Result<BoxEnds, Memory>
        requires tree { IsOf (net_of net.now) self.now }
        requires there { node < trees.nodes self.now.kept.splits.list }
        // Promise: The bounds of nodes, the least leaf and the box of a node are the definitions'
        ensures { IfOk result (AreEndsOf (net_of net.now) (trees.box_of (net_of net.now) self.now.kept.splits.list node)) }
    {
        self.splits.box_of(net, node)
    }

    /// The proof of a node; None where it has none, or is none of the tree.
    pub fn proof_of(&self, node: u32) -> Option<&Proof>
        ensures { MatchOption result (get_or self.now.kept.proofs node None ≡ None) (λ p. get_or self.now.kept.proofs node None ≡ Some (shown_proof p.now)) }
    {
        match self.proofs.get(node as usize) {
            Some(Some(proof)) => Some(proof),
            _ => None,
        }
    }

    /// The bound of a node, in picos: no plan in its box costs less. None where the box holds no plan, and for a node that is none
    /// of the tree.
    pub fn node_bound(&self, node: u32) -> Option<i128>
        // Promise: The bounds of nodes, the least leaf and the box of a node are the definitions'
        ensures bound { (n : Net) → IsOf n self.now → node < trees.nodes self.now.kept.splits.list → result ≡ trees.node_bound n (searched_of self.now.kept).tree node }
        ensures kept { result ≡ get_or self.now.kept.bounds node None }
    {
        match self.bounds.get(node as usize) {
            Some(bound) => *bound,
            None => None,
        }
    }

    /// The splits, the proofs and the cheapest plan, out of the tree.
    pub fn into_parts(self) -> TreeParts
        ensures splits { map shown_split result.splits.items ≡ self.kept.splits.list }
        ensures proofs { map (option_map shown_proof) result.proofs.items ≡ self.kept.proofs }
        ensures plan { option_map (λ b. shown_plan b.plan) result.best ≡ self.kept.best }
        ensures cost { option_map (λ b. b.cost) result.best ≡ self.kept.cost }
    {
        TreeParts {
            splits: self.splits.into_splits(),
            proofs: self.proofs,
            best: self.best,
        }
    }
}
