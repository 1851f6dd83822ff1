//! The envelope of a product, and the rows of the catalogue, hold at every plan: laws for the proofs of the crates above.
//! There is no code here.

ghost use Rattle.std.specs.Prelude.{◌≡◌, ◌<◌, ◌+ℤ◌, ◌*ℤ◌, ◌≤ℤ◌, pos, ℕ, ℤ};
ghost use Rattle.pool_model.specs.Network.{IsLimited, Net};
ghost use Rattle.pool_model.specs.Plan.{Obeys, Plan};
ghost use Rattle.row_model.specs.Boxes.{Box, LiesIn};
ghost use Rattle.row_model.specs.Catalogue.{row_at, rows};
ghost use Rattle.row_model.specs.Envelopes.{Ends, side};
ghost use Rattle.row_model.specs.Lift.{HoldsAt};

/// Each side of the envelope holds for every product of two numbers between their ends, also at fractions: for a over t,
/// b over d and w over t times d, with `scale * w = a * b`.
pub fn envelope_law()
    // Promise: Each side of the envelope holds for every product between the ends
    ensures holds { (number : ℕ) (scale : ℤ) (e : Ends) (w a b : ℤ) (t d : ℕ)
        → (e.a_low *ℤ pos t) ≤ℤ a → a ≤ℤ (e.a_high *ℤ pos t)
        → (e.b_low *ℤ pos d) ≤ℤ b → b ≤ℤ (e.b_high *ℤ pos d)
        → scale *ℤ w ≡ a *ℤ b
        → let s = side number scale e in
        pos 0 ≤ℤ (s.of_w *ℤ w +ℤ s.of_a *ℤ (a *ℤ pos d) +ℤ s.of_b *ℤ (b *ℤ pos t) +ℤ s.constant *ℤ (pos t *ℤ pos d)) }
{}

/// Every row of the catalogue holds at the point of every plan that obeys and lies in the box: over any denominator, and with
/// pools that send nothing.
pub fn row_law()
    // Promise: At the point of a plan that obeys every row of P, Q and PQ holds, pools that send nothing included
    ensures holds { (n : Net) (b : Box) (p : Plan) (id : ℕ) → IsLimited n → Obeys n p → LiesIn n p b → id < rows n → HoldsAt n p (row_at n b id) }
{}
