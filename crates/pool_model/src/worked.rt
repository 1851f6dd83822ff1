//! Worked networks and plans: what the definitions come to, computed by the checker. There is no code here.
#![tactic(auto, using(crate::proofs::Decision::obeys, crate::proofs::Decision::breaks), unfolding(crate::specs::Network::net_of))]

ghost use Rattle.std.specs.Prelude.{◌≡◌, [], ◌∷◌, None, Some, neg_ℤ, pos, All};
ghost use Rattle.integers.specs.Numbers.{tabulate};
ghost use Rattle.pool_model.specs.Network.{arc_cost, arc_max, arcs, net_of};
ghost use Rattle.pool_model.specs.Plan.{Obeys, cost_of, quality_inflow, quality_room};
ghost use Rattle.pool_model.specs.Starting.{direct_flow, path_flow, reach_bound, simple_plan, straight, through, zero_plan};
ghost use Rattle.pool_model.specs.Worked.{ObeysIn, cost_in, flows, haverly, haverly_best, haverly_mixed, net_in, nothing, one_source, plan_in, pooled_haverly};
ghost use Rattle.pool_model.specs.Worked.{cleaned, desulfured, piped, shared, shared_breaking, shared_obeying, strict, two_feeds, two_products, wastewater, written};

/// Worked plans: whether they obey, and what they cost.
pub fn worked_plans()
    // Promise: Worked networks and plans: which obey and what they cost
    ensures one_source_full { ObeysIn (one_source (pos 100000000)) (written 1 [] [] (100000000 ∷ [])) }
    ensures one_source_cost { cost_in (one_source (pos 100000000)) (written 1 [] [] (100000000 ∷ [])) ≡ neg_ℤ (pos 300000000000000) }
    ensures one_source_zero { ObeysIn (one_source (pos 100000000)) (zero_plan (net_in (one_source (pos 100000000)))) }
    ensures one_source_over { ¬ ObeysIn (one_source (pos 100000000)) (written 1 [] [] (100000001 ∷ [])) }
    ensures closed_product { ObeysIn (one_source (pos 0)) (written 1 [] [] (0 ∷ [])) }
    ensures closed_product_over { ¬ ObeysIn (one_source (pos 0)) (written 1 [] [] (1 ∷ [])) }
    ensures nothing_obeys { ObeysIn nothing (written 1 [] [] []) }
    ensures nothing_costs { cost_in nothing (written 1 [] [] []) ≡ pos 0 }
    ensures haverly_obeys { ObeysIn (haverly (pos 16000000)) haverly_best }
    ensures haverly_cost { cost_in (haverly (pos 16000000)) haverly_best ≡ neg_ℤ (pos 400000000000000) }
    ensures haverly_at_limit { let n = net_in (haverly (pos 16000000)) in
        let p = plan_in (haverly (pos 16000000)) haverly_best in
        quality_inflow n p 1 0 ≡ quality_room n p 1 (pos 1500000) }
    ensures haverly_mixed { ¬ ObeysIn (haverly (pos 16000000)) haverly_mixed }
    ensures cheaper_haverly_obeys { ObeysIn (haverly (pos 13000000)) pooled_haverly }
    ensures cheaper_haverly_cost { cost_in (haverly (pos 13000000)) pooled_haverly ≡ neg_ℤ (pos 3000000000000000) }
    ensures two_feeds_zero { ObeysIn two_feeds (zero_plan (net_in two_feeds)) }
    ensures two_feeds_full { ObeysIn two_feeds (simple_plan (net_in two_feeds) (through 0 0)) }
    ensures two_feeds_full_cost { cost_in two_feeds (simple_plan (net_in two_feeds) (through 0 0)) ≡ neg_ℤ (pos 300000000000000) }
    ensures two_products_obeys { ObeysIn two_products (written 1 [] [] (30000000 ∷ 20000000 ∷ [])) }
    ensures two_products_cost { cost_in two_products (written 1 [] [] (30000000 ∷ 20000000 ∷ [])) ≡ neg_ℤ (pos 50000000000000) }
    ensures two_products_over { ¬ ObeysIn two_products (written 1 [] [] (30000000 ∷ 20000001 ∷ [])) }
    ensures wastewater_fresh { ObeysIn wastewater (simple_plan (net_in wastewater) (straight 0)) }
    ensures wastewater_fresh_cost { cost_in wastewater (simple_plan (net_in wastewater) (straight 0)) ≡ neg_ℤ (pos 212000000000000) }
    ensures desulfured_full { ObeysIn (desulfured (pos 500)) (written 1 (1 ∷ []) (80000000 ∷ []) []) }
    ensures desulfured_starts { simple_plan (net_in (desulfured (pos 500))) (through 0 0) ≡ written 1 (1 ∷ []) (80000000 ∷ []) [] }
    ensures desulfured_cost { cost_in (desulfured (pos 500)) (written 1 (1 ∷ []) (80000000 ∷ []) []) ≡ neg_ℤ (pos 200000000000000) }
    ensures desulfured_over { ¬ ObeysIn (desulfured (pos 500)) (written 1 (1 ∷ []) (80000001 ∷ []) []) }
    ensures desulfured_less { ¬ ObeysIn (desulfured (pos 501)) (written 1 (1 ∷ []) (80000000 ∷ []) []) }
    ensures desulfured_nothing { simple_plan (net_in (desulfured (pos 501))) (through 0 0) ≡ written 1 (1 ∷ []) (0 ∷ []) [] }
    ensures shared_obey { All (ObeysIn shared) shared_obeying }
    ensures shared_break { All (λ w. ¬ ObeysIn shared w) shared_breaking }
{}

/// Each rule at its limit, and broken by the least amount where every other rule is kept.
pub fn worked_rules()
    // Promise: Worked plans: each rule kept at its limit, and broken by the least amount
    ensures source_full { Obeys (net_in strict) (flows 1 40 10 50 9) }
    ensures source_over { ¬ Obeys (net_in strict) (flows 1 41 9 50 9) }
    ensures pool_over { ¬ Obeys (net_in strict) (flows 1 26 25 51 0) }
    ensures pool_takes_more { ¬ Obeys (net_in strict) (flows 1 21 20 40 0) }
    ensures pool_sends_more { ¬ Obeys (net_in strict) (flows 1 20 20 41 0) }
    ensures product_full { Obeys (net_in strict) (flows 1 25 25 50 10) }
    ensures product_over { ¬ Obeys (net_in strict) (flows 1 25 25 50 11) }
    ensures product_least { Obeys (net_in strict) (flows 1 5 5 10 0) }
    ensures product_under { ¬ Obeys (net_in strict) (flows 1 5 4 9 0) }
    ensures quality_most { Obeys (net_in strict) (flows 1 30 10 40 0) }
    ensures quality_over { ¬ Obeys (net_in strict) (flows 1 31 9 40 0) }
    ensures quality_least { Obeys (net_in strict) (flows 1 10 30 40 0) }
    ensures quality_under { ¬ Obeys (net_in strict) (flows 1 9 31 40 0) }
    ensures halves_full { Obeys (net_in strict) (flows 2 50 50 100 20) }
    ensures half_over { ¬ Obeys (net_in strict) (flows 2 50 50 100 21) }
    ensures no_denominator { ¬ Obeys (net_in strict) (flows 0 0 0 0 0) }
    ensures cost { cost_of (net_in strict) (flows 1 40 10 50 9) ≡ neg_ℤ (pos 217) }
{}

/// What arcs cost and hold, at each maximum and past it by the least amount, and what pools remove, at each limit and past it.
pub fn worked_arcs()
    // Promise: Worked plans: each rule kept at its limit, and broken by the least amount
    ensures arcs_full { Obeys (net_in piped) (flows 1 20 10 30 7) }
    ensures feed_over { ¬ Obeys (net_in piped) (flows 1 21 9 30 7) }
    ensures other_feed { Obeys (net_in piped) (flows 1 0 30 30 7) }
    ensures out_over { ¬ Obeys (net_in piped) (flows 1 20 11 31 7) }
    ensures direct_over { ¬ Obeys (net_in piped) (flows 1 20 10 30 8) }
    ensures half_over { ¬ Obeys (net_in piped) (flows 2 40 20 60 15) }
    ensures cost { cost_of (net_in piped) (flows 1 20 10 30 7) ≡ neg_ℤ (pos 87) }
    ensures numbered_costs { tabulate (arc_cost (net_in piped)) (arcs (net_in piped)) ≡ pos 3 ∷ pos 0 ∷ neg_ℤ (pos 1) ∷ pos 2 ∷ [] }
    ensures numbered_maxima { tabulate (arc_max (net_in piped)) (arcs (net_in piped)) ≡ Some 20 ∷ None ∷ Some 30 ∷ Some 7 ∷ [] }

    ensures treated_least { Obeys (net_in cleaned) (flows 1 10 0 10 0) }
    ensures treated_most { Obeys (net_in cleaned) (flows 1 10 0 10 10) }
    ensures treated_over { ¬ Obeys (net_in cleaned) (flows 1 10 0 10 11) }
    ensures path_alone { path_flow (net_in cleaned) 0 0 ≡ 60 }
    ensures direct_alone { direct_flow (net_in cleaned) 0 ≡ 0 }
    ensures parts { ((net_in cleaned).scale ≡ 1000) × ((net_in cleaned).retained 0 0 ≡ 500) }
    ensures one_part { ((net_in (haverly (pos 16000000))).scale ≡ 1) × ((net_in (haverly (pos 16000000))).retained 0 0 ≡ 1) }
{}

/// Worked reach bounds.
pub fn worked_bounds()
    // Promise: Worked networks: the bounds of some
    ensures two_feeds_bound { reach_bound (net_in two_feeds) ≡ neg_ℤ (pos 300000000000000) }
    ensures haverly_bound { reach_bound (net_in (haverly (pos 16000000))) ≡ neg_ℤ (pos 2100000000000000) }
    ensures wastewater_bound { reach_bound (net_in wastewater) ≡ neg_ℤ (pos 340000000000000) }
    ensures nothing_bound { reach_bound (net_in nothing) ≡ pos 0 }
    ensures desulfured_bound { reach_bound (net_in (desulfured (pos 500))) ≡ neg_ℤ (pos 250000000000000) }
    ensures piped_bound { reach_bound (net_in piped) ≡ neg_ℤ (pos 240) }
{}
