//! What follows of how `check` and `report` end, for a reader of the clauses. There is no code here.

ghost use Rattle.std.specs.Prelude.{◌≤◌, ℕ, List, Some, length};
ghost use Rattle.shelf_calls.specs.Files.{HasFile};
ghost use Rattle.cert_lengths.specs.Lengths.{most_bytes};
ghost use Rattle.run_status.specs.Reads.{Files};
ghost use Rattle.run_status.specs.declared.status.Status.TheVariants as statuses;
ghost use Rattle.certificate_commands.specs.CheckEnds.{CheckEnds};
ghost use Rattle.certificate_commands.specs.ReportEnds.{ReportEnds};

/// A file that is short enough is never too long: over a shelf that tells its files, `check` and `report` of it never end with 5. The
/// same number of bytes is the most that the text of a certificate has where its tree is not too large, as `cert_lengths` says.
pub fn short_law()
    // Promise: A `check` or a `report` of a text of at most 1,073,741,824 bytes never ends with 5; that is as many as the text that `solve`
    //   prints has at the most
    ensures check { (told : Files) (net cert bytes : List ℕ) (before after : ℕ) → HasFile (Some told) cert bytes → length bytes ≤ most_bytes
        → ¬ CheckEnds (Some told) net cert before after statuses.CertTooLong }
    // Promise: A `check` or a `report` of a text of at most 1,073,741,824 bytes never ends with 5; that is as many as the text that `solve`
    //   prints has at the most
    ensures report { (told : Files) (net cert bytes : List ℕ) (before after : ℕ) → HasFile (Some told) cert bytes → length bytes ≤ most_bytes
        → ¬ ReportEnds (Some told) net cert before after statuses.CertTooLong }
{}
