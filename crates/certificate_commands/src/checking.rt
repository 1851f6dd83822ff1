//! The command `check`.

ghost use Rattle.std.specs.Prelude.{◌≡◌, ◌⊎◌, ℕ, List, IsTrue};
ghost use Rattle.edge_io.specs.Counts.{Rose};
ghost use Rattle.pool_model.specs.Network.{Network as ANetwork};
ghost use Rattle.certificate_commands.specs.CheckEnds.{CheckEnds, ChecksAs, check_status, unopened};
ghost use Rattle.run_status.specs.Reads.{ReadsUnder};
ghost use Rattle.run_status.specs.Took.{Took};

use crate::judging::{Telling, judge};
use cert_checker::Refusal;
use edge_io::Sink;
use run_status::{Status, Unread};
use shelf_calls::{OpenFault, Shelf};
use std::alloc::Global;

/// How `check` ended.
#[derive(Debug, Drop)]
pub enum CheckOutcome {
    /// The certificate is valid for the network.
    Accepted,
    /// The certificate is refused.
    Refused(Refusal),
    /// No network was read.
    Unread(Unread),
    /// The shelf failed where the certificate was opened or read.
    ReadFault,
    /// The certificate is longer than may be.
    TooLong,
    /// Memory ran out.
    Memory,
    /// The sink failed.
    WriteFault,
}

impl From<CheckOutcome> for Status {
    ghost from_gives = { λ outcome status. status ≡ check_status outcome };

    fn from(outcome: CheckOutcome) -> Status {
        match outcome {
            CheckOutcome::Accepted => Status::Accepted,
            CheckOutcome::Refused(refusal) => Status::Refused(refusal),
            CheckOutcome::Unread(why) => Status::from(why),
            CheckOutcome::ReadFault => Status::ReadFault,
            CheckOutcome::TooLong => Status::CertTooLong,
            CheckOutcome::Memory => Status::OutOfMemory,
            CheckOutcome::WriteFault => Status::WriteFault,
        }
    }
}

impl From<OpenFault> for CheckOutcome {
    ghost from_gives = { λ fault outcome. outcome ≡ unopened fault };

    // Promise: Of what a shelf may say where CERT is opened want of memory alone is made 23: a failure is made 20
    fn from(fault: OpenFault) -> CheckOutcome {
        match fault {
            OpenFault::Failed => CheckOutcome::ReadFault,
            OpenFault::Memory => CheckOutcome::Memory,
        }
    }
}

/// Checks the certificate in the file of the second name for the network in the file of the first, and writes the line on it.
///
/// The shelf is asked for the certificate only where a network was read. It is read once, piece by piece, and its text is not kept.
pub fn check<S: Shelf, K: Sink>(
    alloc: Global,
    net: &str,
    cert: &str,
    shelf: &mut S,
    out: &mut K,
) -> CheckOutcome
    requires network { IsTrue ((S.told shelf.old).admits net.now) }
    requires certificate { (network : ANetwork) → ReadsUnder (S.told shelf.old).files net.now network → IsTrue ((S.told shelf.old).admits cert.now) }
    ensures took { Took (ChecksAs (S.told shelf.old).files net.now cert.now) (check_status result) (K.taken out.old) (K.taken out.new) }
    ensures ends { CheckEnds (S.told shelf.old).files net.now cert.now (S.told shelf.old).taken (S.told shelf.new).taken (check_status result) }
    ensures read_fault { check_status result ≡ Status.ReadFault → Rose (S.told shelf.old).faults (S.told shelf.new).faults }
    // Promise: Under every status but 20 the count of faults of the shelf is as it was: a call of the shelf that failed is never told as want of
    //   memory (23) or as anything else
    ensures quiet { (check_status result ≡ Status.ReadFault) ⊎ ((S.told shelf.new).faults ≡ (S.told shelf.old).faults) }
    ensures write_fault { check_status result ≡ Status.WriteFault → Rose (K.faults out.old) (K.faults out.new) }
{
    judge(alloc, net, cert, Telling::Line, shelf, out)
}
