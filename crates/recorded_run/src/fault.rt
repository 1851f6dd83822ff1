//! Why a recorded run gives no answer.

ghost use Rattle.std.specs.Prelude.{◌≡◌};
ghost use Rattle.journal_format.specs.declared.fault.JournalFault.TheVariants as journal_faults;
ghost use Rattle.recorded_run.specs.declared.fault.RunFault.TheVariants as faults;

use disk_calls::DiskFailed;
use edge_io::Memory;
use node_journal::JournalFault;
use std::alloc::AllocFailed;

/// Why a recorded run gives no answer: the first cause in this order.
#[derive(Clone, Copy, Debug, PartialEq, Eq)]
pub enum RunFault {
    /// The journal is not opened; or the disk or memory failed, which may come in place of any other answer.
    Journal(JournalFault),
    /// The record of this number, from 0 and with the Turn, holds the first entry that is not in order after those before it.
    OutOfOrder(u64),
}

impl From<JournalFault> for RunFault {
    ghost from_gives = { λ e f. f ≡ faults.Journal e };

    fn from(e: JournalFault) -> RunFault {
        RunFault::Journal(e)
    }
}

impl From<DiskFailed> for RunFault {
    ghost from_gives = { λ _ f. f ≡ faults.Journal journal_faults.Disk };

    fn from(_e: DiskFailed) -> RunFault {
        RunFault::Journal(JournalFault::Disk)
    }
}

impl From<Memory> for RunFault {
    ghost from_gives = { λ _ f. f ≡ faults.Journal journal_faults.Memory };

    fn from(_e: Memory) -> RunFault {
        RunFault::Journal(JournalFault::Memory)
    }
}

impl<T: Drop> From<AllocFailed<T>> for RunFault {
    ghost from_gives = { λ _ f. f ≡ faults.Journal journal_faults.Memory };

    fn from(_e: AllocFailed<T>) -> RunFault {
        RunFault::Journal(JournalFault::Memory)
    }
}
