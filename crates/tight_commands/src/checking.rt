//! The command `checktight`.

ghost use Rattle.std.specs.Prelude.{◌≡◌, ◌⊎◌, ℕ, List, IsTrue};
ghost use Rattle.edge_io.specs.Counts.{Grows, Rose};
ghost use Rattle.pool_model.specs.Network.{Net, Network as ANetwork, net_of};
ghost use Rattle.cert_format.specs.Cert.{Cert};
ghost use Rattle.cert_format.specs.Valid.{IsValid, tree_of};
ghost use Rattle.cert_format.specs.Views.{shown_cert};
ghost use Rattle.run_status.specs.Reads.{ReadsUnder};
ghost use Rattle.run_status.specs.Took.{Took};
ghost use Rattle.tight_commands.specs.Certified.{CertifiedIn, CertifiesSome};
ghost use Rattle.tight_checks.specs.Refusals.{IsRefused};
ghost use Rattle.tight_checks.specs.declared.refusal.TightRefusal.TheVariants as refusals;
ghost use Rattle.tight_commands.specs.CheckTightEnds.{CheckTightEnds, CheckTightWants, ChecksTightAs, MarksLineOn, check_tight_status};
ghost use Rattle.tight_commands.specs.TextEnds.{IsTextJudged, IsToldAs, TextEnds, TextLineIn};

use crate::certified::{Uncertified, certified_under};
use crate::told::{write_accepted_tight, write_refused_tight};
use blend_network::Network;
use cert_format::Certificate;
use edge_io::Sink;
use run_status::{Status, Unread, network_under};
use shelf_calls::{Shelf, ShelfFault};
use std::alloc::Global;
use tight_checks::{TightRefusal, check_tight};

/// How many bytes a text of marks may have.
const MOST_TEXT: usize = 1_073_741_824;

/// How `checktight` ended.
#[derive(Debug, Drop)]
pub enum CheckTightOutcome {
    /// The marks hold of the certificate's leaves.
    Accepted,
    /// The text of marks is refused.
    Refused(TightRefusal),
    /// No network was read.
    Unread(Unread),
    /// The certificate is not valid for the network, or was not read.
    Uncertified(Uncertified),
    /// No text of marks was read.
    TextUnread(ShelfFault),
    /// Memory ran out at the marks.
    Memory,
    /// The sink failed at the line on the marks.
    WriteFault,
}

impl From<CheckTightOutcome> for Status {
    ghost from_gives = { λ outcome status. status ≡ check_tight_status outcome };

    // Promise: Of what a shelf may say of the file of TIGHT want of memory alone is made 23: a failure is made 20, and too many bytes 5
    fn from(outcome: CheckTightOutcome) -> Status {
        match outcome {
            CheckTightOutcome::Accepted => Status::Accepted,
            CheckTightOutcome::Refused(refusal) => Status::TightRefused(refusal),
            CheckTightOutcome::Unread(why) => Status::from(why),
            CheckTightOutcome::Uncertified(why) => Status::from(why),
            CheckTightOutcome::TextUnread(ShelfFault::Failed) => Status::ReadFault,
            CheckTightOutcome::TextUnread(ShelfFault::TooLong) => Status::CertTooLong,
            CheckTightOutcome::TextUnread(ShelfFault::Memory) => Status::OutOfMemory,
            CheckTightOutcome::Memory => Status::OutOfMemory,
            CheckTightOutcome::WriteFault => Status::WriteFault,
        }
    }
}

/// Checks the text of marks in the file of the third name for the certificate in the file of the second, which is one of the network in the
/// file of the first, and writes the line on it; where the certificate is refused, the line on that.
///
/// The shelf is asked for the certificate only where a network was read, and for the text only where the certificate is valid.
pub fn checktight<S: Shelf, K: Sink>(
    alloc: Global,
    net: &str,
    cert: &str,
    tight: &str,
    shelf: &mut S,
    out: &mut K,
) -> CheckTightOutcome
    requires network { IsTrue ((S.told shelf.old).admits net.now) }
    // Promise: CERT is asked for only where a network is read from NET
    requires certificate { (network : ANetwork) → ReadsUnder (S.told shelf.old).files net.now network → IsTrue ((S.told shelf.old).admits cert.now) }
    // Promise: TIGHT is asked for only where CERT has the text of a certificate that is valid for the network
    requires text { CertifiesSome (S.told shelf.old).files net.now cert.now → IsTrue ((S.told shelf.old).admits tight.now) }
    ensures took { Took (ChecksTightAs (S.told shelf.old).files net.now cert.now tight.now) (check_tight_status result) (K.taken out.old) (K.taken out.new) }
    ensures ends { CheckTightEnds (S.told shelf.old).files net.now cert.now tight.now (S.told shelf.old).taken (S.told shelf.new).taken (check_tight_status result) }
    ensures read_fault { check_tight_status result ≡ Status.ReadFault → Rose (S.told shelf.old).faults (S.told shelf.new).faults }
    // Promise: Under every status but 20 the count of faults of the shelf is as it was: a call of the shelf that failed is never told as want of
    //   memory (23) or as anything else
    ensures quiet { (check_tight_status result ≡ Status.ReadFault) ⊎ ((S.told shelf.new).faults ≡ (S.told shelf.old).faults) }
    ensures write_fault { check_tight_status result ≡ Status.WriteFault → Rose (K.faults out.old) (K.faults out.new) }
    // Promise: 23 of `checktight` comes where the network is to be read, or the certificate for one that was read, or the text of marks of a valid
    //   certificate, or at a text that was read: what is too long (5) or refused (1) is never told as want of memory
    ensures memory { check_tight_status result ≡ Status.OutOfMemory → CheckTightWants (S.told shelf.old).files net.now cert.now tight.now result }
{
    match network_under(alloc, net, shelf) {
        Ok(network) => check_file(alloc, &network, cert, tight, shelf, out),
        Err(why) => CheckTightOutcome::Unread(why),
    }
}

/// Checks the text of marks in the file of the second name, for a network that was read and the certificate in the file of the first.
fn check_file<S: Shelf, K: Sink>(
    alloc: Global,
    network: &Network,
    cert: &str,
    tight: &str,
    shelf: &mut S,
    out: &mut K,
) -> CheckTightOutcome
    requires certificate { IsTrue ((S.told shelf.old).admits cert.now) }
    requires text { (c : Cert) → CertifiedIn (S.told shelf.old).files cert.now (net_of network.now) c → IsTrue ((S.told shelf.old).admits tight.now) }
    ensures took { (net : List ℕ) → ReadsUnder (S.told shelf.old).files net network.now
        → Took (ChecksTightAs (S.told shelf.old).files net cert.now tight.now) (check_tight_status result) (K.taken out.old) (K.taken out.new) }
    ensures ends { (net : List ℕ) (before : ℕ) → ReadsUnder (S.told shelf.old).files net network.now → Grows before (S.told shelf.old).taken
        → CheckTightEnds (S.told shelf.old).files net cert.now tight.now before (S.told shelf.new).taken (check_tight_status result) }
    ensures read_fault { check_tight_status result ≡ Status.ReadFault → Rose (S.told shelf.old).faults (S.told shelf.new).faults }
    ensures quiet { (check_tight_status result ≡ Status.ReadFault) ⊎ ((S.told shelf.new).faults ≡ (S.told shelf.old).faults) }
    ensures write_fault { check_tight_status result ≡ Status.WriteFault → Rose (K.faults out.old) (K.faults out.new) }
    ensures memory { (net : List ℕ) → ReadsUnder (S.told shelf.old).files net network.now → check_tight_status result ≡ Status.OutOfMemory
        → CheckTightWants (S.told shelf.old).files net cert.now tight.now result }
{
    match certified_under(alloc, network, cert, shelf, out) {
        Ok(certificate) => check_text(alloc, network, &certificate, tight, shelf, out),
        Err(why) => CheckTightOutcome::Uncertified(why),
    }
}

/// Checks the text of marks in the file of this name, for a certificate that is valid for the network.
fn check_text<S: Shelf, K: Sink>(
    alloc: Global,
    network: &Network,
    certificate: &Certificate,
    tight: &str,
    shelf: &mut S,
    out: &mut K,
) -> CheckTightOutcome
    requires text { IsTrue ((S.told shelf.old).admits tight.now) }
    requires valid { IsValid (net_of network.now) (shown_cert certificate.now) }
    ensures took { Took (TextLineIn (S.told shelf.old).files tight.now (net_of network.now) (shown_cert certificate.now)) (check_tight_status result) (K.taken out.old) (K.taken out.new) }
    ensures ends { TextEnds (S.told shelf.old).files tight.now (net_of network.now) (shown_cert certificate.now) (S.told shelf.old).taken (S.told shelf.new).taken result }
    ensures read_fault { check_tight_status result ≡ Status.ReadFault → Rose (S.told shelf.old).faults (S.told shelf.new).faults }
    ensures quiet { (check_tight_status result ≡ Status.ReadFault) ⊎ ((S.told shelf.new).faults ≡ (S.told shelf.old).faults) }
    ensures write_fault { check_tight_status result ≡ Status.WriteFault → Rose (K.faults out.old) (K.faults out.new) }
{
    match shelf.read_all(alloc, tight, MOST_TEXT) {
        Ok(bytes) => judge_text(alloc, network, certificate, &bytes, out),
        Err(fault) => CheckTightOutcome::TextUnread(fault),
    }
}

/// Checks a text of marks for a certificate that is valid for the network, and writes the line on it.
fn judge_text<K: Sink>(
    alloc: Global,
    network: &Network,
    certificate: &Certificate,
    bytes: &[u8],
    out: &mut K,
) -> CheckTightOutcome
    requires { IsValid (net_of network.now) (shown_cert certificate.now) }
    ensures took { Took (MarksLineOn (net_of network.now) (shown_cert certificate.now) bytes.now) (check_tight_status result) (K.taken out.old) (K.taken out.new) }
    ensures ends { IsTextJudged (net_of network.now) (shown_cert certificate.now) bytes.now result }
    ensures write_fault { check_tight_status result ≡ Status.WriteFault → Rose (K.faults out.old) (K.faults out.new) }
{
    match check_tight(alloc, network, certificate, bytes) {
        Ok(verdict) => match write_accepted_tight(&verdict, out) {
            Ok(()) => CheckTightOutcome::Accepted,
            Err(_) => CheckTightOutcome::WriteFault,
        },
        Err(refusal) => tell_refusal(refusal, out),
    }
}

/// Writes the line of a text of marks that is refused, and says how that ended; want of memory has no line.
fn tell_refusal<K: Sink>(refusal: TightRefusal, out: &mut K) -> CheckTightOutcome
    ensures took { (n : Net) (c : Cert) (bytes : List ℕ) → IsRefused n (tree_of c) bytes refusal
        → Took (MarksLineOn n c bytes) (check_tight_status result) (K.taken out.old) (K.taken out.new) }
    ensures told { IsToldAs refusal result }
    ensures write_fault { check_tight_status result ≡ Status.WriteFault → Rose (K.faults out.old) (K.faults out.new) }
    // Promise: Of the causes for which TIGHT is not accepted want of memory alone is made 23
    ensures memory { result ≡ CheckTightOutcome.Memory → refusal ≡ refusals.Memory }
{
    match refusal {
        TightRefusal::Memory => CheckTightOutcome::Memory,
        refusal => match write_refused_tight(&refusal, out) {
            Ok(()) => CheckTightOutcome::Refused(refusal),
            Err(_) => CheckTightOutcome::WriteFault,
        },
    }
}
