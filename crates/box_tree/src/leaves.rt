//! The bound of a tree, and the leaves that may hold a plan.

ghost use Rattle.std.specs.Prelude.{◌≡◌, [], ◌∷◌, length, None, IfOk, MatchOption};
ghost use Rattle.pool_model.specs.Claim.{HasNoPlan, IsBound};
ghost use Rattle.pool_model.specs.Network.{IsLimited, Net};
ghost use Rattle.pool_model.specs.Starting.{least_below};
ghost use Rattle.row_model.specs.Trees.{tree_bound, IsLeastLeaf};
ghost use Rattle.box_tree.specs.Kept.{searched_of, IsOf, kept_leaf_bound};
ghost use Rattle.box_tree.specs.Open as open_leaves;

use crate::tree::Tree;
use edge_io::Memory;
use leaf_order::{LeafOrder, OpenLeaf};
use std::alloc::{AllocError, Global};

/// A node with its bound, where it may hold a plan.
pub(crate) fn open_leaf(node: u32, bound: Option<i128>) -> Option<OpenLeaf>
    ensures { result ≡ open_leaves.open_leaf node bound }
{
    match bound {
        None => None,
        Some(bound) => Some(OpenLeaf { bound, node }),
    }
}

/// The set of the root alone, with its bound.
pub(crate) fn root_alone(alloc: Global, bound: Option<i128>) -> Result<LeafOrder, AllocError>
    ensures { IfOk result (open_leaves.AreIndexed [] (bound ∷ [])) }
{
    let mut order = LeafOrder::new(alloc);
    order.put(open_leaf(0, bound), None)?;
    Ok(order)
}

impl Tree {
    /// The least bound of a leaf, in picos: every plan that obeys costs at least that. None exactly where every leaf holds no plan,
    /// and then no plan obeys.
    pub fn bound(&self) -> Option<i128>
        // Promise: The tree's bound is the definition's
        ensures bound { (n : Net) → IsOf n self.now → result ≡ tree_bound n (searched_of self.now.kept).tree }
        // Promise: Every plan that obeys costs at least the tree's bound
        ensures costs { (n : Net) → IsLimited n → IsOf n self.now → MatchOption result (HasNoPlan n) (IsBound n) }
        ensures kept { result ≡ least_below (kept_leaf_bound self.now.kept) (length self.now.kept.bounds) }
    {
        match self.order.first() {
            None => None,
            Some(leaf) => Some(leaf.bound),
        }
    }

    /// The leaf of the least bound, of the lowest number at a tie. None exactly where every leaf holds no plan.
    pub fn least_leaf(&self) -> Option<u32>
        // Promise: The bounds of nodes, the least leaf and the box of a node are the definitions'
        ensures { (n : Net) → IsOf n self.now → MatchOption result (tree_bound n (searched_of self.now.kept).tree ≡ None) (IsLeastLeaf n (searched_of self.now.kept).tree) }
    {
        match self.order.first() {
            None => None,
            Some(leaf) => Some(leaf.node),
        }
    }

    /// The first so many leaves that may hold a plan, by bound and then by number.
    pub fn open_leaves(&self, most: u32) -> Result<Vec<u32>, Memory>
        // Promise: The first so many leaves that may hold a plan, by bound and then by number
        ensures { (n : Net) → IsOf n self.now → IfOk result (λ v. open_leaves.AreFirstOpen n (searched_of self.now.kept).tree most v.items) }
    {
        Ok(self.order.nodes(most as usize)?)
    }
}
