//! What holds of the text of certificates.

ghost use Rattle.std.specs.Prelude.{◌≡◌, ◌++◌, ℕ, List};
ghost use Rattle.cert_writing.specs.Cert.{Cert, IsCert};
ghost use Rattle.cert_writing.specs.Text.{text_of};

/// No two certificates share a text, and none's text begins another's.
///
/// So with `cert_law` a text has one certificate, which is the one that was written.
pub fn text_law()
    // Promise: No two certificates share a text, and none's text begins another's
    ensures one_text { (c d : Cert) (more : List ℕ) → IsCert c → IsCert d → text_of c ≡ text_of d ++ more → c ≡ d }
{}
