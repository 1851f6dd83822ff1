//! What follows of what `tight` writes, for a reader of the clauses. There is no code here.

ghost use Rattle.std.specs.Prelude.{ℕ, List, Some};
ghost use Rattle.shelf_calls.specs.Files.{HasFile};
ghost use Rattle.box_space.specs.declared.coordinates.Form.{Form as AForm};
ghost use Rattle.run_status.specs.Reads.{Files};
ghost use Rattle.run_status.specs.declared.status.Status.TheVariants as statuses;
ghost use Rattle.tight_commands.specs.CheckTightEnds.{MarksHoldUnder};
ghost use Rattle.tight_commands.specs.TightEnds.{TightsAs};

/// Where the file of a text of marks has what `tight` writes of the certificate, the marks hold: so `checktight` accepts them, or shelf, sink or
/// memory fails.
pub fn accepted_law()
    // Promise: `checktight` accepts what `tight` writes on the same NET and CERT, or shelf, sink or memory failed
    ensures { (told : Files) (net cert tight text : List ℕ) (form : AForm) (pivots : ℕ) → TightsAs (Some told) net cert form pivots statuses.Done text
        → HasFile (Some told) tight text → MarksHoldUnder (Some told) net cert tight }
{}
