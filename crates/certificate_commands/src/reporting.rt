//! The command `report`.

ghost use Rattle.std.specs.Prelude.{◌≡◌, ◌⊎◌, ℕ, List, IsTrue};
ghost use Rattle.edge_io.specs.Counts.{Rose};
ghost use Rattle.pool_model.specs.Network.{Network as ANetwork};
ghost use Rattle.certificate_commands.specs.ReportEnds.{ReportEnds, ReportsAs, report_status};
ghost use Rattle.run_status.specs.Reads.{ReadsUnder};
ghost use Rattle.run_status.specs.Took.{Took};

use crate::checking::CheckOutcome;
use crate::judging::{Telling, judge};
use edge_io::Sink;
use run_status::Status;
use shelf_calls::Shelf;
use std::alloc::Global;

/// How `report` ended: as the check of the certificate that is reported on.
#[derive(Debug, Drop)]
pub struct ReportOutcome {
    check: CheckOutcome,
}

impl From<ReportOutcome> for Status {
    ghost from_gives = { λ outcome status. status ≡ report_status outcome };

    fn from(outcome: ReportOutcome) -> Status {
        match outcome.check {
            CheckOutcome::Accepted => Status::Done,
            other => Status::from(other),
        }
    }
}

/// Reports on the certificate in the file of the second name for the network in the file of the first.
///
/// The shelf is asked for the certificate only where a network was read. It is read once, piece by piece, and its text is not kept.
pub fn report<S: Shelf, K: Sink>(
    alloc: Global,
    net: &str,
    cert: &str,
    shelf: &mut S,
    out: &mut K,
) -> ReportOutcome
    requires network { IsTrue ((S.told shelf.old).admits net.now) }
    requires certificate { (network : ANetwork) → ReadsUnder (S.told shelf.old).files net.now network → IsTrue ((S.told shelf.old).admits cert.now) }
    ensures took { Took (ReportsAs (S.told shelf.old).files net.now cert.now) (report_status result) (K.taken out.old) (K.taken out.new) }
    ensures ends { ReportEnds (S.told shelf.old).files net.now cert.now (S.told shelf.old).taken (S.told shelf.new).taken (report_status result) }
    ensures read_fault { report_status result ≡ Status.ReadFault → Rose (S.told shelf.old).faults (S.told shelf.new).faults }
    // Promise: Under every status but 20 the count of faults of the shelf is as it was: a call of the shelf that failed is never told as want of
    //   memory (23) or as anything else
    ensures quiet { (report_status result ≡ Status.ReadFault) ⊎ ((S.told shelf.new).faults ≡ (S.told shelf.old).faults) }
    ensures write_fault { report_status result ≡ Status.WriteFault → Rose (K.faults out.old) (K.faults out.new) }
{
    ReportOutcome {
        check: judge(alloc, net, cert, Telling::Report, shelf, out),
    }
}
