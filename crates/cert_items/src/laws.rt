//! What the items of a text say of it.

ghost use Rattle.std.specs.Prelude.{List, ℕ};
ghost use Rattle.cert_items.specs.Items.{EndsRight, BeginsRight, FailsRight, StopsRight};

/// What the items that come one after another from the start of a text say of it.
///
/// At the end they are those of the one certificate that has the text; before it they are the first of them, where one has it; and
/// a fault, of an item or behind the last line, is that of the first faulty line.
pub fn stream_law()
    ensures ends { (bytes : List ℕ) → EndsRight bytes }
    ensures begins { (bytes : List ℕ) → BeginsRight bytes }
    ensures fails { (bytes : List ℕ) → FailsRight bytes }
    ensures stops { (bytes : List ℕ) → StopsRight bytes }
{}
