//! What follows from the definitions, for the proofs of the crates above. There is no code here.

ghost use Rattle.std.specs.Prelude.{◌≡◌, ℕ, [], ◌∷◌, length, map, pos, Some, true, get_or};
ghost use Rattle.pool_model.specs.Network.{net_of, counts_of, no_source, no_product};
ghost use Rattle.pool_model.specs.Plain.{is_plain};
ghost use Rattle.pool_model.specs.Paths.{paths_of};
ghost use Rattle.blend_network.specs.Made.{IsMade};
ghost use Rattle.drawn_numbers.specs.Draws.{state_after, draw};
ghost use Rattle.network_maker.specs.Generated.{generated};

/// Whatever the number, there are rows without a fault that stand for the network, and so many of each kind. A file of version 1
/// can say it.
pub fn generated_law()
    // Promise: The rows of a made network have no fault, and so many of each kind are there
    ensures made { (seed : ℕ) → IsMade (generated seed) }
    ensures counts { (seed : ℕ) → counts_of (net_of (generated seed)) ≡ 10 ∷ 3 ∷ 6 ∷ 2 ∷ 20 ∷ 18 ∷ 6 ∷ [] }
    ensures paths { (seed : ℕ) → length (paths_of (net_of (generated seed))) ≡ 120 }
    // Promise: A made network is one that a file of version 1 can say
    ensures plain { (seed : ℕ) → is_plain (generated seed) ≡ true }
{}

/// What the number 7 makes, computed by the checker.
pub fn worked_draws()
    ensures state { state_after 7 1 ≡ 9098160460397411210 }
    ensures first { draw 7 0 20 ≡ 18 }
    ensures cost { (get_or (generated 7).sources 0 no_source).cost ≡ pos 23000000 }
    ensures qualities { (get_or (generated 7).sources 9 no_source).quality ≡ pos 1500000 ∷ pos 4200000 ∷ [] }
    ensures pools { map (λ p. p.max) (generated 7).pools ≡ 110000000 ∷ 282000000 ∷ 119000000 ∷ [] }
    ensures limits { (get_or (generated 7).products 5 no_product).most ≡ Some (pos 2000000) ∷ Some (pos 1500000) ∷ [] }
{}
