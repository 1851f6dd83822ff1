//! What follows from the definitions, for the proofs of the crates above. There is no code here.

ghost use Rattle.std.specs.Prelude.{◌≡◌, ◌≢◌, ◌*ℤ◌, ◌≤ℤ◌, ℤ, pos};
ghost use Rattle.pool_model.specs.Network.{Net};
ghost use Rattle.row_model.specs.Boxes.{Box};
ghost use Rattle.row_model.specs.Multipliers.{IsInOrder, Proof, bound, no_plan, shown_by};
ghost use Rattle.box_space.specs.declared.coordinates.Form.{Form};
ghost use Rattle.relaxation_points.specs.Points.{IsWitness, Meets, NamesRowsOf, Point, cost_value};

/// Weak duality against one point: where a point meets a box and a form, multipliers in order on the form's rows have a scale, so they
/// don't show that the box holds no plan, and they show no bound above what the point costs.
pub fn duality_law()
    // Promise: Where a point meets the box and the form's rows, no multipliers in order on these rows have scale 0
    ensures scale { (n : Net) (form : Form) (b : Box) (p : Point) (proof : Proof) → Meets n form b p → IsInOrder n b proof → NamesRowsOf n form proof → proof.scale ≢ 0 }
    // Promise: Where a point meets the box and the form's rows, no multipliers in order on these rows show a bound above the point's cost
    ensures cost { (n : Net) (form : Form) (b : Box) (p : Point) (proof : Proof) (z : ℤ) → Meets n form b p → IsInOrder n b proof → NamesRowsOf n form proof
        → shown_by n b proof ≡ bound z → (z *ℤ pos p.base) ≤ℤ cost_value n p }
{}

/// What a witness shows: no multipliers in order on the form's rows show more of the box than the bound.
pub fn witness_law()
    ensures holds_one { (n : Net) (form : Form) (b : Box) (low : ℤ) (p : Point) (proof : Proof) → IsWitness n form b low p → IsInOrder n b proof → NamesRowsOf n form proof
        → shown_by n b proof ≢ no_plan }
    // Promise: Where a point is a witness for a bound, no multipliers in order on the form's rows show a greater bound
    ensures best { (n : Net) (form : Form) (b : Box) (low : ℤ) (p : Point) (proof : Proof) (z : ℤ) → IsWitness n form b low p → IsInOrder n b proof → NamesRowsOf n form proof
        → shown_by n b proof ≡ bound z → z ≤ℤ low }
{}
