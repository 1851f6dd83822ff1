//! What follows from the definitions of the written plan of a point, for the proofs of the crates above. There is no code here.

ghost use Rattle.std.specs.Prelude.{ℕ, ◌<◌, ◌≤◌};
ghost use Rattle.std.specs.Int.{◌∣◌};
ghost use Rattle.pool_model.specs.Network.{IsLimited, Net};
ghost use Rattle.pool_model.specs.Plan.{Carries, IsWritten, Obeys, Plan, Written, plan_of};
ghost use Rattle.program_model.specs.Points.{ProportionPoint, QualityPoint, SameCost, SameFlows, proportion_flows, quality_flows};
ghost use Rattle.program_model.specs.Programs.{IsPointOfP, IsPointOfQ};
ghost use Rattle.row_model.specs.Variables.{path_count, path_out};
ghost use Rattle.program_model.specs.Bounds.{IsBounded};
ghost use Rattle.program_model.specs.Plans.{IsPlanOfProportions, IsPlanOfQualities};

/// The plan of a point has the point's flows and its cost, and obeys; where its bases are within the limits, it is well written.
/// A point of Pq is one of Q.
pub fn plan_law()
    // Promise: The written plan of a point has its flows and its cost, and obeys
    ensures q_written { (n : Net) (q : ProportionPoint) (w : Written) → IsPointOfQ n q → IsPlanOfProportions n q w → q.prop_base ≤ 1048576 → w.flow_base ≤ 65536 → IsWritten n w }
    ensures q_flows { (n : Net) (q : ProportionPoint) (w : Written) → IsLimited n → IsPointOfQ n q → IsPlanOfProportions n q w → SameFlows n (plan_of n w) (proportion_flows q) }
    ensures q_cost { (n : Net) (q : ProportionPoint) (w : Written) → IsLimited n → IsPointOfQ n q → IsPlanOfProportions n q w → SameCost n (plan_of n w) (proportion_flows q) }
    ensures q_obeys { (n : Net) (q : ProportionPoint) (w : Written) → IsLimited n → IsPointOfQ n q → IsPlanOfProportions n q w → Obeys n (plan_of n w) }

    ensures p_written { (n : Net) (q : QualityPoint) (w : Written) → IsLimited n → IsPointOfP n q → IsPlanOfQualities n q w → w.base ≤ 1048576 → w.flow_base ≤ 65536 → IsWritten n w }
    ensures p_flows { (n : Net) (q : QualityPoint) (w : Written) → IsLimited n → IsPointOfP n q → IsPlanOfQualities n q w → SameFlows n (plan_of n w) (quality_flows q) }
    ensures p_cost { (n : Net) (q : QualityPoint) (w : Written) → IsLimited n → IsPointOfP n q → IsPlanOfQualities n q w → SameCost n (plan_of n w) (quality_flows q) }
    ensures p_obeys { (n : Net) (q : QualityPoint) (w : Written) → IsLimited n → IsPointOfP n q → IsPlanOfQualities n q w → Obeys n (plan_of n w) }
{}

/// Every written plan with a point's flows has multiples of the bases of the point's plan.
pub fn least_law()
    // Promise: No written plan with the flows of a point has smaller bases than the plan of the point
    ensures q_flow_base { (n : Net) (q : ProportionPoint) (w other : Written) → IsPlanOfProportions n q w → IsWritten n other → SameFlows n (plan_of n other) (proportion_flows q)
        → w.flow_base ∣ other.flow_base }
    ensures p_flow_base { (n : Net) (q : QualityPoint) (w other : Written) → IsPlanOfQualities n q w → IsWritten n other → SameFlows n (plan_of n other) (quality_flows q)
        → w.flow_base ∣ other.flow_base }
    ensures p_base { (n : Net) (q : QualityPoint) (w other : Written) → IsPlanOfQualities n q w → IsWritten n other → SameFlows n (plan_of n other) (quality_flows q)
        → w.base ∣ other.base }
{}

/// How large the numbers of points are: no flow passes 10^14 millionths, what flows along a path is at most what its out carries, and
/// no proportion passes 1.
pub fn bounds_law()
    ensures flows { (n : Net) (p : Plan) → IsLimited n → Carries n p → IsBounded n p }
    ensures paths { (n : Net) (q : ProportionPoint) (a : ℕ) → IsLimited n → IsPointOfQ n q → a < path_count n → q.path a ≤ q.out (path_out n a) }
    ensures proportions { (n : Net) (q : ProportionPoint) (e : ℕ) → IsLimited n → IsPointOfQ n q → e < n.feeds → q.proportion e ≤ q.prop_base }
{}
