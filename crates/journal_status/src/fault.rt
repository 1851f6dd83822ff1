//! The status of a run with a journal that gives no answer.

ghost use Rattle.std.specs.Prelude.{◌≡◌};
ghost use Rattle.journal_status.specs.JournalEnds.{fault_status};

use node_journal::JournalFault;
use recorded_run::RunFault;
use run_status::Status;

/// The status of a run with a journal that gives no answer for this reason.
pub fn run_status_of(fault: RunFault) -> Status
    // Promise: Of the reasons for which a run with a journal gives no answer want of memory alone is made 23, and a failed disk alone 22
    ensures { result ≡ fault_status fault }
{
    match fault {
        RunFault::Journal(JournalFault::Disk) => Status::DiskFault,
        RunFault::Journal(JournalFault::NotAJournal) => Status::NotAJournal,
        RunFault::Journal(JournalFault::UnknownVersion(version)) => Status::UnknownVersion(version),
        RunFault::Journal(JournalFault::OtherNetwork) => Status::OtherNetwork,
        RunFault::Journal(JournalFault::BadRecord(number)) => Status::BadJournal(number),
        RunFault::Journal(JournalFault::Memory) => Status::OutOfMemory,
        RunFault::OutOfOrder(number) => Status::BadJournal(number),
    }
}
