//! The check of a certificate in a file, and what is written of it.

ghost use Rattle.std.specs.Prelude.{◌≡◌, ◌≢◌, ◌≤◌, ◌⊎◌, ℕ, List, Option, Err, OnErr, IsTrue};
ghost use Rattle.edge_io.specs.Counts.{Grows, Rose};
ghost use Rattle.edge_io.specs.Writing.{Wrote};
ghost use Rattle.pool_model.specs.Network.{Network as ANetwork, net_of};
ghost use Rattle.cert_format.specs.Views.{shown_claim};
ghost use Rattle.cert_lengths.specs.Lengths.{most_bytes};
ghost use Rattle.cert_stream.specs.Streams.{TookMore};
ghost use Rattle.cert_checker.specs.Streams.{IsStreamAnswer};
ghost use Rattle.pool_report.specs.Report.{IsReported};
ghost use Rattle.proof_lines.specs.declared.refusal.Refusal.TheVariants as refusals;
ghost use Rattle.proof_lines.specs.declared.stream_refusal.StreamRefusal.TheVariants as streams;
ghost use Rattle.certificate_commands.specs.CheckEnds.{CheckEnds, JudgesAs, check_status, told_text};
ghost use Rattle.certificate_commands.specs.OpenedEnds.{LineOnRest, OpenedEnds};
ghost use Rattle.certificate_commands.specs.declared.judging.Telling.{Telling as ATelling};
ghost use Rattle.run_status.specs.Reads.{ReadsUnder};
ghost use Rattle.run_status.specs.Took.{Took};

use crate::checking::CheckOutcome;
use blend_network::Network;
use cert_checker::{StreamRefusal, check_stream};
use cert_format::Claim;
use edge_io::{Sink, WriteFault};
use printed_lines::{write_accepted, write_refused};
use run_status::{Status, network_under};
use shelf_calls::Shelf;
use std::alloc::Global;

/// How many bytes a certificate may have.
const MOST_BYTES: u64 = 1_073_741_824;

/// What is written of a certificate that is accepted.
#[derive(Clone, Copy, Debug, PartialEq, Eq)]
pub(crate) enum Telling {
    /// Its line.
    Line,
    /// Its report.
    Report,
}

/// Judges the certificate in the file of the second name for the network in the file of the first, and writes what is to be told of it.
pub(crate) fn judge<S: Shelf, K: Sink>(
    alloc: Global,
    net: &str,
    cert: &str,
    telling: Telling,
    shelf: &mut S,
    out: &mut K,
) -> CheckOutcome
    requires network { IsTrue ((S.told shelf.old).admits net.now) }
    requires certificate { (network : ANetwork) → ReadsUnder (S.told shelf.old).files net.now network → IsTrue ((S.told shelf.old).admits cert.now) }
    ensures took { Took (JudgesAs telling (S.told shelf.old).files net.now cert.now) (check_status result) (K.taken out.old) (K.taken out.new) }
    ensures ends { CheckEnds (S.told shelf.old).files net.now cert.now (S.told shelf.old).taken (S.told shelf.new).taken (check_status result) }
    ensures read_fault { check_status result ≡ Status.ReadFault → Rose (S.told shelf.old).faults (S.told shelf.new).faults }
    ensures quiet { (check_status result ≡ Status.ReadFault) ⊎ ((S.told shelf.new).faults ≡ (S.told shelf.old).faults) }
    ensures write_fault { check_status result ≡ Status.WriteFault → Rose (K.faults out.old) (K.faults out.new) }
{
    match network_under(alloc, net, shelf) {
        Ok(network) => judge_file(alloc, &network, cert, telling, shelf, out),
        Err(why) => CheckOutcome::Unread(why),
    }
}

/// Judges the certificate in the file of this name for a network that was read.
fn judge_file<S: Shelf, K: Sink>(
    alloc: Global,
    network: &Network,
    cert: &str,
    telling: Telling,
    shelf: &mut S,
    out: &mut K,
) -> CheckOutcome
    requires { IsTrue ((S.told shelf.old).admits cert.now) }
    ensures took { (net : List ℕ) → ReadsUnder (S.told shelf.old).files net network.now → Took (JudgesAs telling (S.told shelf.old).files net cert.now) (check_status result) (K.taken out.old) (K.taken out.new) }
    ensures ends { (net : List ℕ) (before : ℕ) → ReadsUnder (S.told shelf.old).files net network.now → Grows before (S.told shelf.old).taken
        → CheckEnds (S.told shelf.old).files net cert.now before (S.told shelf.new).taken (check_status result) }
    ensures read_fault { check_status result ≡ Status.ReadFault → Rose (S.told shelf.old).faults (S.told shelf.new).faults }
    ensures quiet { (check_status result ≡ Status.ReadFault) ⊎ ((S.told shelf.new).faults ≡ (S.told shelf.old).faults) }
    ensures write_fault { check_status result ≡ Status.WriteFault → Rose (K.faults out.old) (K.faults out.new) }
{
    match shelf.open_read(alloc, cert) {
        Ok(()) => judge_opened(alloc, network, telling, shelf, out),
        Err(fault) => CheckOutcome::from(fault),
    }
}

/// Judges the certificate in the opened file.
fn judge_opened<S: Shelf, K: Sink>(
    alloc: Global,
    network: &Network,
    telling: Telling,
    shelf: &mut S,
    out: &mut K,
) -> CheckOutcome
    ensures took { Took (LineOnRest telling network.now (S.told shelf.old).rest) (check_status result) (K.taken out.old) (K.taken out.new) }
    ensures ends { OpenedEnds (net_of network.now) (S.told shelf.old).rest (S.told shelf.old).taken (S.told shelf.new).taken (check_status result) }
    ensures read_fault { check_status result ≡ Status.ReadFault → Rose (S.told shelf.old).faults (S.told shelf.new).faults }
    ensures quiet { (check_status result ≡ Status.ReadFault) ⊎ ((S.told shelf.new).faults ≡ (S.told shelf.old).faults) }
    ensures write_fault { check_status result ≡ Status.WriteFault → Rose (K.faults out.old) (K.faults out.new) }
{
    match check_stream(alloc, network, shelf, MOST_BYTES) {
        Ok(claim) => match tell_claim(network, &claim, telling, out) {
            Ok(()) => CheckOutcome::Accepted,
            Err(_) => CheckOutcome::WriteFault,
        },
        Err(refusal) => tell_refusal(refusal, out),
    }
}

/// Writes what is to be told of a claim of the network that is accepted.
fn tell_claim<K: Sink>(
    network: &Network,
    claim: &Claim,
    telling: Telling,
    out: &mut K,
) -> Result<(), WriteFault>
    requires { IsReported (net_of network.now) (shown_claim claim.now) }
    ensures wrote { Wrote result (K.taken out.old) (told_text telling network.now (shown_claim claim.now)) (K.taken out.new) }
    ensures failed { OnErr result (Rose (K.faults out.old) (K.faults out.new)) }
{
    match telling {
        Telling::Line => write_accepted(claim, out),
        Telling::Report => pool_report::report(network, claim, out),
    }
}

/// How the check ends of a file that was not accepted: the line is written where the certificate is refused.
fn tell_refusal<K: Sink>(refusal: StreamRefusal, out: &mut K) -> CheckOutcome
    requires { refusal ≢ streams.Refused refusals.Memory }
    ensures took { (telling : ATelling) (network : ANetwork) (rest : Option (List ℕ)) → IsStreamAnswer (net_of network) rest most_bytes (Err refusal)
        → Took (LineOnRest telling network rest) (check_status result) (K.taken out.old) (K.taken out.new) }
    ensures ends { (network : ANetwork) (rest : Option (List ℕ)) (before after : ℕ) → IsStreamAnswer (net_of network) rest most_bytes (Err refusal)
        → (refusal ≡ streams.TooLong → TookMore most_bytes before after) → OpenedEnds (net_of network) rest before after (check_status result) }
    ensures read_fault { check_status result ≡ Status.ReadFault → refusal ≡ streams.Read }
    ensures failed { refusal ≡ streams.Read → check_status result ≡ Status.ReadFault }
    ensures write_fault { check_status result ≡ Status.WriteFault → Rose (K.faults out.old) (K.faults out.new) }
    // Promise: Of the causes for which CERT is not accepted want of memory alone is made 23
    ensures memory { check_status result ≡ Status.OutOfMemory → refusal ≡ streams.Memory }
{
    match refusal {
        StreamRefusal::Refused(refusal) => match write_refused(&refusal, out) {
            Ok(()) => CheckOutcome::Refused(refusal),
            Err(_) => CheckOutcome::WriteFault,
        },
        StreamRefusal::Read => CheckOutcome::ReadFault,
        StreamRefusal::TooLong => CheckOutcome::TooLong,
        StreamRefusal::Memory => CheckOutcome::Memory,
    }
}
