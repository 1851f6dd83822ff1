//! The law of the leaves, for the proofs of the crates above. There is no code here.

ghost use Rattle.std.specs.Prelude.{◌≡◌, ◌↔◌, [], List, None};
ghost use Rattle.leaf_order.specs.declared.leaf.OpenLeaf.{OpenLeaf};
ghost use Rattle.pool_model.specs.Network.{IsLimited, Net};
ghost use Rattle.pool_model.specs.Plan.{Obeys, Plan};
ghost use Rattle.row_model.specs.Trees.{IsTree, Tree, tree_bound};
ghost use Rattle.certificate_leaves.specs.Leaves.{AreLeaves, LiesInOne, least_bound};

/// The leaves that may hold a plan show the tree's bound, and one of their boxes holds each plan that obeys.
pub fn leaves_law()
    // Promise: The least of the bounds of the leaves that may hold a plan is the bound of the tree, and there is none exactly where there is
    //   no such leaf
    ensures least { (n : Net) (tree : Tree) (leaves : List OpenLeaf) → AreLeaves n tree leaves → least_bound leaves ≡ tree_bound n tree }
    ensures none { (n : Net) (tree : Tree) (leaves : List OpenLeaf) → AreLeaves n tree leaves → (tree_bound n tree ≡ None) ↔ (leaves ≡ []) }
    // Promise: Every plan that obeys lies in the box of a leaf that may hold a plan, and costs at least the bound of that leaf
    ensures held { (n : Net) (tree : Tree) (leaves : List OpenLeaf) (p : Plan) → IsLimited n → IsTree n tree → AreLeaves n tree leaves → Obeys n p → LiesInOne n tree leaves p }
    // There is one such list.
    ensures one { (n : Net) (tree : Tree) (leaves others : List OpenLeaf) → AreLeaves n tree leaves → AreLeaves n tree others → leaves ≡ others }
{}
