//! What follows where what is said of the leaves of a tree holds, for the proofs of the crates above. There is no code here but the
//! call of another law.

ghost use Rattle.pool_model.specs.Network.{IsLimited, Net};
ghost use Rattle.row_model.specs.Trees.{IsTree, Tree};
ghost use Rattle.tight_texts.specs.declared.marks.TightText.{TightText};
ghost use Rattle.tight_checks.specs.Holding.{Holds};
ghost use Rattle.tight_checks.specs.Showing.{AreBest, HoldsForPlans};

use certificate_leaves::leaves_law;

/// Where what is said of the leaves of a tree holds, its bound holds for every plan, and no multipliers on the form's rows show more of a leaf
/// that is marked tight or raised.
pub fn holding_law()
    // Promise: Where marks of a tree's leaves hold, every plan that obeys costs at least their bound, and none obeys where there is none
    ensures plans { (n : Net) (tree : Tree) (text : TightText) → IsLimited n → IsTree n tree → Holds n tree text → HoldsForPlans n text.bound }
    // Promise: Where marks of a tree's leaves hold, no multipliers on the form's rows show more of a leaf that is marked tight or raised
    ensures best { (n : Net) (tree : Tree) (text : TightText) → Holds n tree text → AreBest n tree text }
{
    leaves_law();
}
