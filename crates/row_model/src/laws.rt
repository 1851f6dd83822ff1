//! What follows from the definitions, for the proofs of the crates above. There is no code here.

ghost use Rattle.std.specs.Prelude.{◌≡◌, ◌≢◌, ◌⊎◌, ◌<◌, ◌≤◌, ◌≤ℤ◌, ◌<ℤ◌, ◌*ℤ◌, [], ◌∷◌, ℕ, ℤ, None, Some, neg_ℤ, pos};
ghost use Rattle.integers.specs.Sums.{int_sum_below, product_below, sum_at};
ghost use Rattle.pool_model.specs.Network.{IsLimited, Net};
ghost use Rattle.pool_model.specs.Plan.{Carries, Obeys, Plan, cost_of, factor, outflow};
ghost use Rattle.pool_model.specs.Worked.{cleaned, desulfured, haverly, net_in, one_source, piped, two_feeds};
ghost use Rattle.row_model.specs.Boxes.{Box, IsProper, LiesIn, coords, left_of, right_of, root, share};
ghost use Rattle.row_model.specs.Variables.{PerVariable, by_number, costs, dot, highs, lows, variables};
ghost use Rattle.row_model.specs.Catalogue.{mixed_least_row, mixed_most_row, path_least_row, path_most_row, row_at, rows};
ghost use Rattle.row_model.specs.Envelopes.{second_side};
ghost use Rattle.row_model.specs.Trees.{node_bound, tree_bound};
ghost use Rattle.row_model.specs.WorkedTree.{small_tree};
ghost use Rattle.row_model.specs.Lift.{HoldsAt, lift, lift_base};
ghost use Rattle.row_model.specs.Multipliers.{HoldsIn, IsInOrder, Proof, bound, number, shown_by};

/// The shares of a pool's feeds sum to its factor. Where the pool sends something they are the feeds' flows; where it sends
/// nothing, nothing flows into it or out of it.
pub fn shares_law()
    ensures sum { (n : Net) (p : Plan) (l : ℕ) → IsLimited n → Carries n p → l < n.pools → sum_at n.feed_pool l (share n p) n.feeds ≡ factor n p l }
    ensures share_le { (n : Net) (p : Plan) (e : ℕ) → IsLimited n → Carries n p → e < n.feeds → share n p e ≤ factor n p (n.feed_pool e) }
    ensures flow { (n : Net) (p : Plan) (e : ℕ) → outflow n p (n.feed_pool e) ≢ 0 → share n p e ≡ p.feed e }
    ensures no_feed { (n : Net) (p : Plan) (e : ℕ) → IsLimited n → Carries n p → e < n.feeds → outflow n p (n.feed_pool e) ≡ 0 → p.feed e ≡ 0 }
    ensures no_out { (n : Net) (p : Plan) (o : ℕ) → o < n.outs → outflow n p (n.out_pool o) ≡ 0 → p.out o ≡ 0 }
{}

/// The root box is proper, and every plan that obeys lies in it.
pub fn root_law()
    ensures proper { (n : Net) → IsLimited n → IsProper n (root n) }
    // Promise: Every plan that obeys lies in the root box
    ensures holds { (n : Net) (p : Plan) → IsLimited n → Obeys n p → LiesIn n p (root n) }
{}

/// A plan in a box lies in a half of it, wherever it is cut. Where the cut lies strictly inside, both halves are proper.
pub fn halves_law()
    // Promise: A plan in a box lies in one of its halves, wherever it is cut
    ensures covered { (n : Net) (p : Plan) (b : Box) (coord : ℕ) (cut : ℤ) → LiesIn n p b → LiesIn n p (left_of b coord cut) ⊎ LiesIn n p (right_of b coord cut) }
    ensures left_proper { (n : Net) (b : Box) (coord : ℕ) (cut : ℤ) → IsProper n b → b.low coord <ℤ cut → cut <ℤ b.high coord → IsProper n (left_of b coord cut) }
    ensures right_proper { (n : Net) (b : Box) (coord : ℕ) (cut : ℤ) → IsProper n b → b.low coord <ℤ cut → cut <ℤ b.high coord → IsProper n (right_of b coord cut) }
{}

/// A sum over the variables by number is the sum kind by kind.
pub fn numbering_law()
    ensures dot { (n : Net) (a v : PerVariable) → int_sum_below (λ i. by_number n a i *ℤ by_number n v i) (variables n) ≡ dot n a v }
{}

/// At the point of a plan that obeys and lies in a box, each variable lies between its ends.
pub fn ends_law()
    // Promise: At the point of a plan that obeys each variable lies between its ends
    ensures low { (n : Net) (b : Box) (p : Plan) (v : ℕ) → IsLimited n → Obeys n p → LiesIn n p b → v < variables n →
        (by_number n (lows n b) v *ℤ pos (lift_base n p)) ≤ℤ by_number n (lift n p) v }
    ensures high { (n : Net) (b : Box) (p : Plan) (v : ℕ) → IsLimited n → Obeys n p → LiesIn n p b → v < variables n →
        by_number n (lift n p) v ≤ℤ (by_number n (highs n b) v *ℤ pos (lift_base n p)) }
{}

/// The cost of a plan's point is the plan's cost, over the point's denominator.
pub fn cost_law()
    ensures cost { (n : Net) (p : Plan) → IsLimited n →
        int_sum_below (λ v. by_number n (costs n) v *ℤ by_number n (lift n p) v) (variables n) ≡ pos (product_below (factor n p) n.pools) *ℤ cost_of n p }
{}

/// Weak duality: what a proof in order shows of a box is so, where each row of the catalogue holds at every plan there.
pub fn multiplier_law()
    ensures shown { (n : Net) (b : Box) (proof : Proof) → IsLimited n → IsInOrder n b proof →
        ((p : Plan) → Obeys n p → LiesIn n p b → (id : ℕ) → id < rows n → HoldsAt n p (row_at n b id)) →
        HoldsIn n b (shown_by n b proof) }
{}

/// What a proof in order shows of a box is so: that no plan there costs less, or that no plan lies there, over any denominator.
pub fn proof_law()
    // Promise: What multipliers in order show of a box is so, for plans of any denominator
    ensures shown { (n : Net) (b : Box) (proof : Proof) → IsLimited n → IsInOrder n b proof → HoldsIn n b (shown_by n b proof) }
{}

/// Worked networks: how many coordinates, variables and rows they have.
pub fn worked_counts()
    ensures haverly_coordinates { coords (net_in (haverly (pos 16000000))) ≡ 5 }
    ensures haverly_variables { variables (net_in (haverly (pos 16000000))) ≡ 15 }
    ensures haverly_rows { rows (net_in (haverly (pos 16000000))) ≡ 45 }
    ensures one_source_rows { rows (net_in (one_source (pos 100000000))) ≡ 5 }
{}

/// Worked multipliers: Haverly's network in its root box without any, and with the maximum of Y; two feeds whose proportions
/// can't sum to 1; and a side of an envelope.
pub fn worked_multipliers()
    ensures haverly_nothing { shown_by (net_in (haverly (pos 16000000))) (root (net_in (haverly (pos 16000000)))) record { scale = 1; parts = [] } ≡ bound (neg_ℤ (pos 4900000000000000)) }
    ensures haverly_maximum { let n = net_in (haverly (pos 16000000)) in
        shown_by n (root n) record { scale = 1; parts = record { row = 6; mult = pos 15000000 } ∷ [] } ≡ bound (neg_ℤ (pos 3900000000000000)) }
    ensures few_proportions { let n = net_in two_feeds in let b = left_of (left_of (root n) 0 (pos 524288)) 1 (pos 262144) in
        number n b record { scale = 0; parts = record { row = 11; mult = pos 1 } ∷ [] } ≡ pos 262144 }
    ensures second_side { second_side (pos 1048576) record { a_low = pos 0; a_high = pos 1048576; b_low = pos 0; b_high = pos 100000000 }
        ≡ record { of_w = pos 1048576; of_a = neg_ℤ (pos 100000000); of_b = neg_ℤ (pos 1048576); constant = pos 104857600000000 } }
{}

/// Worked networks with arcs that cost and hold and pools that remove: costs and ends of variables, rows of limits, and the proof
/// whose multiplier is the least that a unit costs at the pool.
pub fn worked_treatment()
    ensures feed_cost { (costs (net_in (desulfured (pos 500)))).x 0 ≡ pos 6500000 }
    ensures out_cost { (costs (net_in piped)).y 0 ≡ neg_ℤ (pos 6) }
    ensures direct_cost { (costs (net_in piped)).z 0 ≡ neg_ℤ (pos 1) }
    ensures feed_end { let n = net_in (desulfured (pos 500)) in (highs n (root n)).x 0 ≡ pos 80000000 }
    ensures path_end { let n = net_in (desulfured (pos 500)) in (highs n (root n)).w 0 ≡ pos 80000000 }
    ensures out_end { let n = net_in piped in (highs n (root n)).y 0 ≡ pos 30 }
    ensures direct_end { let n = net_in piped in (highs n (root n)).z 0 ≡ pos 7 }

    ensures limit_parts { let r = path_most_row (net_in cleaned) record { product = 0; quality = 0; limit = pos 20 } in r.coefs.y 0 ≡ pos 20000 }
    ensures path_parts { let r = path_most_row (net_in cleaned) record { product = 0; quality = 0; limit = pos 20 } in r.coefs.w 0 ≡ neg_ℤ (pos 15000) }
    ensures direct_parts { let r = path_least_row (net_in cleaned) record { product = 0; quality = 0; limit = pos 15 } in r.coefs.z 0 ≡ pos 10000 }
    ensures mixed_parts { let r = mixed_most_row (net_in cleaned) record { product = 0; quality = 0; limit = pos 20 } in r.coefs.mixed 0 0 ≡ neg_ℤ (pos 500) }
    ensures mixed_direct { let r = mixed_least_row (net_in cleaned) record { product = 0; quality = 0; limit = pos 15 } in r.coefs.z 0 ≡ pos 10000 }

    ensures priced { let n = net_in (desulfured (pos 500)) in
        shown_by n (root n) record { scale = 1; parts = record { row = 1; mult = pos 6500000 } ∷ [] } ≡ bound (neg_ℤ (pos 250000000000000)) }
{}

/// The worked tree: the bounds of its nodes, and its own.
pub fn worked_tree()
    ensures lower_left { node_bound (net_in two_feeds) small_tree 3 ≡ None }
    ensures lower_right { node_bound (net_in two_feeds) small_tree 4 ≡ Some (neg_ℤ (pos 300000000000000)) }
    ensures upper { node_bound (net_in two_feeds) small_tree 2 ≡ Some (neg_ℤ (pos 300000000000000)) }
    ensures whole { tree_bound (net_in two_feeds) small_tree ≡ Some (neg_ℤ (pos 300000000000000)) }
{}
