//! The law of the text of marks, for the proofs of the crates above. There is no code here.

ghost use Rattle.std.specs.Prelude.{◌≡◌, ◌++◌, ◌↔◌, ℕ, List, Ok, Err};
ghost use Rattle.cert_text.specs.Lines.{IsFaultyLine};
ghost use Rattle.cert_text.specs.Reading.{whole};
ghost use Rattle.tight_texts.specs.Reading.{marks_at};
ghost use Rattle.tight_texts.specs.Texts.{AreMarks, Marks, marks_text};

/// Marks are read exactly where they are spelled. No two share a text, and none's text begins another's.
pub fn text_law()
    // Promise: A text of marks is read as the marks that have it, exactly where some have
    ensures marks { (bytes : List ℕ) (t : Marks) → (whole marks_at bytes ≡ Ok t) ↔ (AreMarks t × (bytes ≡ marks_text t)) }
    // Promise: What is no text of marks has a first faulty line
    ensures faulty { (bytes : List ℕ) (line : ℕ) → whole marks_at bytes ≡ Err line → IsFaultyLine Marks AreMarks marks_text bytes line }
    // Promise: No two values of marks share a text, and none's text begins another's
    ensures one { (s t : Marks) (more : List ℕ) → AreMarks s → AreMarks t → marks_text s ≡ marks_text t ++ more → s ≡ t }
{}
