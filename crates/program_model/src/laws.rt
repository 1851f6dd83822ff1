//! What follows from the definitions, for the proofs of the crates above. There is no code here.

ghost use Rattle.std.specs.Prelude.{◌<◌, ◌↔◌};
ghost use Rattle.pool_model.specs.Network.{IsLimited, Net};
ghost use Rattle.pool_model.specs.Plan.{Obeys, Plan};
ghost use Rattle.program_model.specs.Lifted.{IsLiftByProportions, IsLiftByQualities, proportion_point, quality_point};
ghost use Rattle.program_model.specs.Points.{ProportionPoint, QualityPoint, SameCost, SameFlows, proportion_flows, quality_flows};
ghost use Rattle.program_model.specs.Programs.{IsPointOfP, IsPointOfPq, IsPointOfQ};
ghost use Rattle.program_model.specs.Rows.{SolvesP, SolvesPq, SolvesQ};

/// The points of a plan that obeys, over any denominator: they are points of the programs, at the place where every row of the
/// catalogue is read, with the plan's flows and its cost.
pub fn lifted_law()
    // Promise: The points of every plan that obeys are points of P, of Q and of PQ, with its flows and its cost
    ensures p { (n : Net) (p : Plan) → IsLimited n → Obeys n p → IsPointOfP n (quality_point n p) }
    ensures q { (n : Net) (p : Plan) → IsLimited n → Obeys n p → IsPointOfQ n (proportion_point n p) }
    ensures pq { (n : Net) (p : Plan) → IsLimited n → Obeys n p → IsPointOfPq n (proportion_point n p) }

    ensures quality_lift { (n : Net) (p : Plan) → IsLiftByQualities n p (quality_point n p) }
    ensures quality_flows { (n : Net) (p : Plan) → SameFlows n (quality_flows (quality_point n p)) p }
    ensures quality_cost { (n : Net) (p : Plan) → SameCost n (quality_flows (quality_point n p)) p }

    ensures proportion_lift { (n : Net) (p : Plan) → IsLiftByProportions n p (proportion_point n p) }
    ensures proportion_flows { (n : Net) (p : Plan) → SameFlows n (proportion_flows (proportion_point n p)) p }
    ensures proportion_cost { (n : Net) (p : Plan) → SameCost n (proportion_flows (proportion_point n p)) p }
{}

/// The flows of each point of a program are a plan that obeys. What the point costs is what its flows cost.
pub fn flows_law()
    // Promise: The flows of every point of P, of Q and of PQ are a plan that obeys
    ensures p { (n : Net) (q : QualityPoint) → IsLimited n → IsPointOfP n q → Obeys n (quality_flows q) }
    ensures q { (n : Net) (q : ProportionPoint) → IsLimited n → IsPointOfQ n q → Obeys n (proportion_flows q) }
    ensures pq { (n : Net) (q : ProportionPoint) → IsLimited n → IsPointOfPq n q → Obeys n (proportion_flows q) }
{}

/// The further rows of Pq hold at each point of Q.
pub fn further_rows_law()
    // Promise: What PQ adds to Q follows from Q
    ensures { (n : Net) (q : ProportionPoint) → IsLimited n → IsPointOfQ n q → IsPointOfPq n q }
{}

/// Plans with the same flows, over whatever denominators, obey alike and cost the same.
pub fn same_flows_law()
    // Promise: Plans with the same flows as fractions obey alike and cost the same
    ensures obeys { (n : Net) (a b : Plan) → IsLimited n → 0 < b.base → SameFlows n a b → Obeys n a → Obeys n b }
    ensures cost { (n : Net) (a b : Plan) → SameFlows n a b → SameCost n a b }
{}

/// The points of a program are what meets its rows and its products, with no flow above the maximum of its arc: the rows are those of
/// the catalogue that are the same in every box, as the text of the program has them, and the numbers of a point are taken over both
/// of its bases.
pub fn rows_law()
    // Promise: The points of a program are exactly what meets its rows as the catalogue has them, its products and its arcs' maxima
    ensures p { (n : Net) (q : QualityPoint) → IsPointOfP n q ↔ SolvesP n q }
    ensures q { (n : Net) (q : ProportionPoint) → IsPointOfQ n q ↔ SolvesQ n q }
    ensures pq { (n : Net) (q : ProportionPoint) → IsPointOfPq n q ↔ SolvesPq n q }
{}
