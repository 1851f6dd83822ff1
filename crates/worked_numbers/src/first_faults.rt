//! The law of first faults at one type.

ghost use Rattle.std.specs.Prelude.{[], ◌∷◌, ◌≤◌, ℕ};

use faults::{Ranked, first_fault_law};

struct Numbered(u32);

impl Ranked for Numbered {
    ghost rank = { λ f. f.0 ∷ [] };

    ghost Subject = { ℕ };

    ghost Holds = { λ least f. least ≤ f.0 };
}

#[test]
fn the_law_holds_of_numbered_faults() {
    first_fault_law::<Numbered>();
}
