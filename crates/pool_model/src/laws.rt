//! What follows from the definitions, for the proofs of the crates above. There is no code here.

ghost use Rattle.std.specs.Prelude.{◌≡◌, ◌<◌, ◌≤◌, ◌*◌, ◌^◌, ◌↔◌, ◌+ℤ◌, ◌-ℤ◌, ◌*ℤ◌, ℕ, ℤ, Some, true, pos, unsigned_abs, All, Contains, AllPairs};
ghost use Rattle.integers.specs.Sums.{int_sum_at, int_sum_below, product_below, product_but};
ghost use Rattle.pool_model.specs.Claim.{IsBound};
ghost use Rattle.pool_model.specs.Network.{HasFeeds, IsLimited, Net, Network, arc_cost, arc_max, arcs, direct_delivered, feed_delivered, net_of};
ghost use Rattle.pool_model.specs.Plain.{IsPlain, is_plain};
ghost use Rattle.pool_model.specs.Paths.{ComesBefore, paths_of};
ghost use Rattle.pool_model.specs.Plan.{Carries, IsWritten, KeepsMaxima, Obeys, Plan, Written, arc_flow, carriage, cost_of, factor, mix, plan_of};
ghost use Rattle.pool_model.specs.Plan.{product_inflow, quality_inflow, quality_room, source_outflow};
ghost use Rattle.pool_model.specs.Starting.{HasNoMinima, IsStarting, IsWay, MeetsMinima, direct_flow, path_flow, reach_bound, simple_plan, start_at, starts, straight, through, way_cost, zero_plan};
ghost use Rattle.pool_model.specs.Starting.{Way, way_quality, way_source};

/// No plan that obeys costs less than the margins allow.
pub fn reach_bound_law()
    // Promise: No plan that obeys costs less than the reach bound, in networks with pools too
    ensures bound { (n : Net) → IsLimited n → IsBound n (reach_bound n) }
{}

/// The starting plans: each is well written, when it obeys, and what it costs. The zero plan obeys where no product must take
/// anything, and the simple plan of a way where what it brings is all that products must take.
pub fn starting_plans_law()
    ensures zero_written { (n : Net) → HasFeeds n → IsWritten n (zero_plan n) }
    // Promise: The zero plan obeys exactly where nothing is demanded
    ensures zero_obeys { (n : Net) → Obeys n (plan_of n (zero_plan n)) ↔ HasNoMinima n }
    ensures zero_cost { (n : Net) → cost_of n (plan_of n (zero_plan n)) ≡ pos 0 }

    ensures path_written { (n : Net) (e o : ℕ) → HasFeeds n → IsWay n (through e o) → IsWritten n (simple_plan n (through e o)) }
    // Promise: A simple plan obeys exactly where what it carries meets every minimum
    ensures path_obeys { (n : Net) (e o : ℕ) → IsWay n (through e o) → n.feed_pool e < n.pools →
        Obeys n (plan_of n (simple_plan n (through e o))) ↔ MeetsMinima n (n.out_product o) (path_flow n e o) }
    ensures path_cost { (n : Net) (e o : ℕ) → IsLimited n → IsWay n (through e o) →
        cost_of n (plan_of n (simple_plan n (through e o))) ≡ way_cost n (through e o) }

    ensures direct_written { (n : Net) (e : ℕ) → HasFeeds n → e < n.directs → IsWritten n (simple_plan n (straight e)) }
    // Promise: A simple plan obeys exactly where what it carries meets every minimum
    ensures direct_obeys { (n : Net) (e : ℕ) → e < n.directs →
        Obeys n (plan_of n (simple_plan n (straight e))) ↔ MeetsMinima n (n.direct_product e) (direct_flow n e) }
    ensures direct_cost { (n : Net) (e : ℕ) → IsLimited n → e < n.directs → cost_of n (plan_of n (simple_plan n (straight e))) ≡ way_cost n (straight e) }

    ensures each { (n : Net) (k : ℕ) → k < starts n → IsStarting n (start_at n k) }
    ensures every { (n : Net) (w : Written) → IsLimited n → IsStarting n w → (k : ℕ) × (k < starts n) × (start_at n k ≡ w) }
{}

/// Arcs by one number: feeds, then outs, then directs. What they carry costs as much, and no arc carries more than its maximum,
/// exactly where it is so by kind. And what a plan costs, arc by arc.
pub fn arcs_law()
    ensures carriage { (n : Net) (p : Plan) → carriage n p ≡ int_sum_below (λ a. arc_cost n a *ℤ pos (arc_flow n p a)) (arcs n) }
    ensures maxima { (n : Net) (p : Plan) → KeepsMaxima n p ↔ ((a m : ℕ) → a < arcs n → arc_max n a ≡ Some m → arc_flow n p a ≤ p.base * m) }
    ensures cost { (n : Net) (p : Plan) → IsLimited n →
        cost_of n p ≡ int_sum_below (λ e. feed_delivered n e *ℤ pos (p.feed e)) n.feeds
        +ℤ int_sum_below (λ o. (n.out_cost o -ℤ n.price (n.out_product o)) *ℤ pos (p.out o)) n.outs
        +ℤ int_sum_below (λ e. (direct_delivered n e -ℤ n.price (n.direct_product e)) *ℤ pos (p.direct e)) n.directs }
{}

/// How large the numbers of plans are: no plan costs or earns more than this, for each unit of its denominator, and the reach bound
/// is no larger.
pub fn sizes_law()
    ensures cost { (n : Net) (p : Plan) → IsLimited n → Carries n p → unsigned_abs (cost_of n p) ≤ 256 * 10 ^ 24 * p.base }
    ensures written { (n : Net) (w : Written) → IsLimited n → IsWritten n w → Obeys n (plan_of n w) → unsigned_abs (cost_of n (plan_of n w)) < 2 ^ 124 }
    ensures reach { (n : Net) → IsLimited n → unsigned_abs (reach_bound n) ≤ 256 * 10 ^ 24 }
{}

/// A plain network, all that a file of version 1 can say: no arc limits a plan, purchases less revenue are what it costs, and every
/// pool's mean reaches the products as it is.
pub fn plain_law()
    ensures plain { (n : Network) → is_plain n ≡ true → IsPlain (net_of n) }
    ensures maxima { (n : Net) (p : Plan) → IsPlain n → KeepsMaxima n p }
    // Promise: In a network that a file of version 1 says, costs and blending are what they were
    ensures cost { (n : Net) (p : Plan) → IsPlain n →
        cost_of n p ≡ int_sum_below (λ i. n.source_cost i *ℤ pos (source_outflow n p i)) n.sources
        -ℤ int_sum_below (λ j. n.price j *ℤ pos (product_inflow n p j)) n.products }
    ensures inflow { (n : Net) (p : Plan) (j k : ℕ) → IsPlain n →
        quality_inflow n p j k
        ≡ int_sum_at n.out_product j (λ o. pos (product_but (n.out_pool o) (factor n p) n.pools) *ℤ mix n p (n.out_pool o) k *ℤ pos (p.out o)) n.outs
        +ℤ pos (product_below (factor n p) n.pools) *ℤ int_sum_at n.direct_product j (λ e. n.source_quality (n.direct_source e) k *ℤ pos (p.direct e)) n.directs }
    ensures brought { (n : Net) (way : Way) (k : ℕ) → IsPlain n → way_quality n way k ≡ n.source_quality (way_source n way) k }
    ensures room { (n : Net) (p : Plan) (j : ℕ) (u : ℤ) → IsPlain n →
        quality_room n p j u ≡ pos (product_below (factor n p) n.pools) *ℤ (u *ℤ pos (product_inflow n p j)) }
{}

/// The paths of a network are its ways through pools, each once: ordered by pool, then by feed, then by out.
pub fn paths_law()
    ensures each { (n : Net) → All (λ p. IsWay n (through p.feed p.out)) (paths_of n) }
    // Promise: The list of paths names each way through a pool
    ensures every { (n : Net) (e o : ℕ) → IsWay n (through e o) → n.feed_pool e < n.pools → Contains (paths_of n) record { feed = e; out = o } }
    // Promise: The list of paths names each way through a pool once, and in order
    ensures in_order { (n : Net) → AllPairs (ComesBefore n) (paths_of n) }
{}
