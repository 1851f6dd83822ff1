//! What the calls of a reader say of the file that they read.

ghost use Rattle.std.specs.Prelude.{◌≡◌, ◌≢◌, ◌-◌, ◌++◌, [], ◌∷◌, length, ℕ, List, Option, Some, IsTrue};
ghost use Rattle.edge_io.specs.Counts.{RoseBy};
ghost use Rattle.shelf_calls.specs.Opened.{IsUsedUp};
ghost use Rattle.cert_text.specs.declared.fault.TextFault.{TextFault};
ghost use Rattle.cert_format.specs.Cert.{Cert, IsCert};
ghost use Rattle.cert_format.specs.Text.{text_of};
ghost use Rattle.cert_items.specs.declared.items.Item.{Item as AnItem};
ghost use Rattle.cert_items.specs.declared.items.State.TheVariants as states;
ghost use Rattle.cert_items.specs.Items.{Field, shown_item, items_of};
ghost use Rattle.cert_stream.specs.Streams.{Reader, fresh, IsAtEnd, GivesItem, GivesFault, Ran, IsTextOf, IsFaultyAt, IsPaid};

/// What the calls of a reader from the start of a file, one after another, say of the file.
///
/// Where they end, the file spells the certificate of their items and has no more bytes than it may; before the end their items are
/// the first of the certificate's, where one has the file as its text; a fault is that of the file's first faulty line; and there
/// are never more items than bytes that were taken, unless their count stands at its last value.
pub fn run_law()
    ensures begun { (r : Reader) (rest : Option (List ℕ)) → (IsTrue r.ended → IsUsedUp rest) → Ran r rest r rest [] }
    ensures goes_on { (r : Reader) (rest : Option (List ℕ)) (s : Reader) (now : Option (List ℕ)) (items : List Field)
        (t : Reader) (later : Option (List ℕ)) (item : AnItem) →
        Ran r rest s now items → s.state ≢ states.Ended → GivesItem s now t later item → Ran r rest t later (items ++ shown_item item ∷ []) }
    // Promise: The items of a certificate that comes in pieces are those of its text: none of them more, in order, and at the end the file
    //   spells exactly their certificate
    ensures ends { (most : ℕ) (rest : Option (List ℕ)) (s : Reader) (now : Option (List ℕ)) (items : List Field) →
        (ran : Ran (fresh most) rest s now items) → s.state ≡ states.Ended → IsAtEnd s → IsTextOf most rest ran.took.taken items }
    // Promise: The items of a certificate that comes in pieces are those of its text: none of them more, in order, and at the end the file
    //   spells exactly their certificate
    ensures begins { (most : ℕ) (s : Reader) (now : Option (List ℕ)) (items : List Field) (c : Cert) →
        IsCert c → Ran (fresh most) (Some (text_of c)) s now items → (more : List Field) × (items_of c ≡ items ++ more) }
    // Promise: A fault is at the same line as in the text read whole; the file is read to its end before it is told, so that a file that is
    //   too long and a failed read go before it
    ensures fails { (most : ℕ) (rest : Option (List ℕ)) (s : Reader) (now : Option (List ℕ)) (items : List Field)
        (t : Reader) (later : Option (List ℕ)) (fault : TextFault) →
        (ran : Ran (fresh most) rest s now items) → (found : GivesFault s now t later fault) →
        IsFaultyAt most rest (ran.took.taken ++ found.took.taken) fault.line }
    ensures paid { (most : ℕ) (rest : Option (List ℕ)) (s : Reader) (now : Option (List ℕ)) (items : List Field) (before after : ℕ) →
        Ran (fresh most) rest s now items → RoseBy (most - s.left) before after → IsPaid (length items) before after }
{}
