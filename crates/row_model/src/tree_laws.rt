//! The laws of trees of boxes, for the proofs of the crates above. There is no code here.

ghost use Rattle.std.specs.Prelude.{◌≡◌, ◌<◌, ℕ, ℤ, None, Some};
ghost use Rattle.pool_model.specs.Claim.{HasNoPlan, IsBound};
ghost use Rattle.pool_model.specs.Network.{IsLimited, Net};
ghost use Rattle.pool_model.specs.Plan.{Obeys, Plan};
ghost use Rattle.row_model.specs.Boxes.{IsProper, LiesIn};
ghost use Rattle.row_model.specs.Entries.{Entry, IsEntryInOrder, IsSearched, Searched, after};
ghost use Rattle.row_model.specs.Trees.{IsLeaf, IsTree, Tree, box_of, nodes, tree_bound};

/// Every plan that obeys lies in the box of some leaf. So it costs at least the tree's bound, and where there is none, no plan
/// obeys.
pub fn tree_law()
    // Promise: Every plan that obeys lies in the box of a leaf
    ensures leaf { (n : Net) (tree : Tree) (p : Plan) → IsLimited n → IsTree n tree → Obeys n p → (node : ℕ) × IsLeaf tree.splits node × LiesIn n p (box_of n tree.splits node) }
    ensures proper { (n : Net) (tree : Tree) (node : ℕ) → IsLimited n → IsTree n tree → node < nodes tree.splits → IsProper n (box_of n tree.splits node) }
    // Promise: The bound of a tree in order holds for every plan
    ensures bound { (n : Net) (tree : Tree) (z : ℤ) → IsLimited n → IsTree n tree → tree_bound n tree ≡ Some z → IsBound n z }
    // Promise: Where a tree in order has no bound, no plan obeys
    ensures no_plan { (n : Net) (tree : Tree) → IsLimited n → IsTree n tree → tree_bound n tree ≡ None → HasNoPlan n }
{}

/// An entry in order leaves a tree in order, and a best plan that obeys.
pub fn entry_law()
    // Promise: An entry in order leaves a tree in order
    ensures kept { (n : Net) (s : Searched) (e : Entry) → IsSearched n s → IsEntryInOrder n s e → IsSearched n (after s e) }
{}
