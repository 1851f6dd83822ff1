//! Why nothing is gathered.

ghost use Rattle.std.specs.Prelude.{◌≡◌};
ghost use Rattle.journal_format.specs.declared.fault.JournalFault.TheVariants as journal_faults;
ghost use Rattle.recorded_run.specs.declared.fault.RunFault.TheVariants as run_faults;
ghost use Rattle.gathered_run.specs.declared.fault.GatherFault.TheVariants as faults;

use edge_io::Memory;
use node_journal::JournalFault;
use recorded_run::RunFault;

/// Why a gathering gives no answer: the first cause in this order.
#[derive(Clone, Copy, Debug, PartialEq, Eq)]
pub enum GatherFault {
    /// The journal gives no tree; or the disk or memory failed, which may come in place of any other answer.
    Run(RunFault),
    /// The tree of the journal's entries doesn't begin with the splits of the tree that the jobs were handed out of.
    OtherTree,
}

impl From<RunFault> for GatherFault {
    ghost from_gives = { λ e f. f ≡ faults.Run e };

    fn from(e: RunFault) -> GatherFault {
        GatherFault::Run(e)
    }
}

impl From<Memory> for GatherFault {
    ghost from_gives = { λ _ f. f ≡ faults.Run (run_faults.Journal journal_faults.Memory) };

    fn from(_e: Memory) -> GatherFault {
        GatherFault::Run(RunFault::Journal(JournalFault::Memory))
    }
}
