//! What follows of the clauses of `run`, for their reader. There is no code here.

ghost use Rattle.std.specs.Prelude.{◌≡◌, ◌⊎◌, ℕ, List, Option, None, Some, length};
ghost use Rattle.shelf_calls.specs.Files.{HasFile};
ghost use Rattle.pool_model.specs.Network.{net_of};
ghost use Rattle.row_model.specs.Entries.{made_by};
ghost use Rattle.cert_lengths.specs.Lengths.{HasFewRows};
ghost use Rattle.cli_words.specs.Requests.{Solving};
ghost use Rattle.run_status.specs.Reads.{Files, ReadsUnder};
ghost use Rattle.run_status.specs.Took.{IsCutShort};
ghost use Rattle.run_status.specs.declared.status.Status.{Status as AStatus};
ghost use Rattle.run_status.specs.declared.status.Status.TheVariants as statuses;
ghost use Rattle.solve_command.specs.SolveEnds.{SolvesAs};
ghost use Rattle.certificate_commands.specs.CheckEnds.{CheckDecided, CheckEnds, IsAcceptance};

/// What `solve` printed, in a file that a shelf tells, is taken by `check`: it is never too long, where no journal was named or the
/// journal held few enough cuts; and where the file of the network is the same, it is accepted.
pub fn printed_law()
    // Promise: A `check` of what `solve` printed never ends with 5, where no journal was named, or twice the cuts of the tree that the run
    //   began with and one, times the rows of the network, is at most 32,000,000
    ensures never_long { (files : Option Files) (s : Solving) (status : AStatus) (text : List ℕ) → (solved : SolvesAs files s status text)
        → ((s.journal ≡ None) ⊎ HasFewRows (net_of solved.network) (length (made_by solved.first).tree.splits))
        → (told : Files) (net cert : List ℕ) (before after : ℕ) → HasFile (Some told) cert text
        → ¬ CheckEnds (Some told) net cert before after statuses.CertTooLong }
    // Promise: Under the same condition a `check` of it for the same network accepts it, unless shelf, sink or memory fails
    ensures accepted { (files : Option Files) (s : Solving) (status : AStatus) (text : List ℕ) → (solved : SolvesAs files s status text)
        → ((s.journal ≡ None) ⊎ HasFewRows (net_of solved.network) (length (made_by solved.first).tree.splits))
        → (told : Files) (net cert : List ℕ) (end : AStatus) → ReadsUnder (Some told) net solved.network → HasFile (Some told) cert text
        → CheckDecided told net cert end → IsAcceptance end ⊎ IsCutShort end }
{}
