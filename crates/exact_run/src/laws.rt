//! What follows from the definitions, for the proofs of the crates above. There is no code here.

ghost use Rattle.std.specs.Prelude.{◌≡◌, ℕ, ℤ};
ghost use Rattle.exact_run.specs.Programs.{Program};
ghost use Rattle.exact_run.specs.States.{State};
ghost use Rattle.exact_run.specs.Steps.{Enters, Leaves};
ghost use Rattle.exact_run.specs.declared.ends.End.{End};

/// The run has no choice: one column leaves, and one enters.
pub fn one_pivot_law()
    ensures leaving { (p : Program) (s : State) (r q : ℕ) (side other : End) (e z : ℤ) → Leaves p s r side e → Leaves p s q other z → s.basic r ≡ s.basic q }
    // Promise: The exact run has no choice of columns: of each state one leaves, and one enters
    ensures entering { (p : Program) (s : State) (r : ℕ) (side : End) (j k : ℕ) → Enters p s r side j → Enters p s r side k → j ≡ k }
{}
