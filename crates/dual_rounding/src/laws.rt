//! What is so of the price proof. There is no code here.

ghost use Rattle.std.specs.Prelude.{◌≡◌, Option, Some, option_map, ℤ};
ghost use Rattle.pool_model.specs.Network.{IsLimited, Net};
ghost use Rattle.row_model.specs.Boxes.{Box, IsProper};
ghost use Rattle.row_model.specs.Multipliers.{IsInOrder, Proof, bound, shown_by};
ghost use Rattle.row_model.specs.Trees.{raised};
ghost use Rattle.dual_rounding.specs.Answers.{IsAtMost, known_by};
ghost use Rattle.dual_rounding.specs.Price.{IsPriced, price_bound, price_proof};

/// The price proof is in order in each proper box, so that rounding, which tries it, never leaves less known than it shows. A
/// node's bound, raised by what rounding answers above it, is then at least what the price proof shows of the node's box.
pub fn price_law()
    // Promise: At least what the price proof shows is known after a rounding
    ensures shown { (n : Net) (b : Box) → shown_by n b (price_proof n) ≡ bound (price_bound n b) }
    ensures raised { (n : Net) (b : Box) (least : ℤ) (o : Option Proof) → IsAtMost (shown_by n b (price_proof n)) (known_by n b (bound least) o)
        → IsPriced n b (raised (Some least) (option_map (shown_by n b) o)) }
    ensures in_order { (n : Net) (b : Box) → IsLimited n → IsProper n b → IsInOrder n b (price_proof n) }
{}
