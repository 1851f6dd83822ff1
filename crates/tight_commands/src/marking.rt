//! The command `tight`.

ghost use Rattle.std.specs.Prelude.{◌≡◌, ◌⊎◌, ◌<◌, ◌≤◌, ◌↔◌, ℕ, List, IsTrue};
ghost use Rattle.edge_io.specs.Counts.{Grows, Rose};
ghost use Rattle.pool_model.specs.Network.{Network as ANetwork, net_of};
ghost use Rattle.cert_format.specs.Valid.{IsValid};
ghost use Rattle.cert_format.specs.Views.{shown_cert};
ghost use Rattle.run_status.specs.Reads.{ReadsUnder};
ghost use Rattle.run_status.specs.Took.{Took};
ghost use Rattle.tight_commands.specs.Marked.{IsTried, MarksTextOn, most_pivots, most_size, size_of};
ghost use Rattle.tight_commands.specs.TightEnds.{MarkEnds, MarkWants, TightEnds, TightsAs, tight_status};

use crate::certified::{Uncertified, certified_under};
use crate::marks::marks_of;
use blend_network::Network;
use box_space::{Form, vars};
use cert_format::Certificate;
use edge_io::Sink;
use row_book::rows;
use run_status::{Status, Unread, network_under};
use shelf_calls::Shelf;
use std::alloc::Global;
use tight_texts::write_tight;

/// How many pivots may be asked for.
const MOST_PIVOTS: u64 = 1_000_000;

/// How large the tree of a certificate may be: its splits and one, times the variables and rows of the network.
const MOST_SIZE: u64 = 8_000_000;

/// How `tight` ended.
#[derive(Debug, Drop)]
pub enum TightOutcome {
    /// The text of marks was written.
    Done,
    /// More pivots are asked for than may be, or the tree of the certificate is too large for the network.
    TooLarge,
    /// No network was read.
    Unread(Unread),
    /// The certificate is not valid for the network, or was not read.
    Uncertified(Uncertified),
    /// Memory ran out at the marks.
    Memory,
    /// The sink failed at the text of marks.
    WriteFault,
}

impl From<TightOutcome> for Status {
    ghost from_gives = { λ outcome status. status ≡ tight_status outcome };

    fn from(outcome: TightOutcome) -> Status {
        match outcome {
            TightOutcome::Done => Status::Done,
            TightOutcome::TooLarge => Status::BudgetTooLarge,
            TightOutcome::Unread(why) => Status::from(why),
            TightOutcome::Uncertified(why) => Status::from(why),
            TightOutcome::Memory => Status::OutOfMemory,
            TightOutcome::WriteFault => Status::WriteFault,
        }
    }
}

/// Marks the leaves of the certificate in the file of the second name, which is one of the network in the file of the first, by the rows of a
/// form and in at most so many pivots a leaf, and writes the text of the marks; where the certificate is refused, the line on that.
///
/// The shelf is asked for nothing where more than 1,000,000 pivots are asked for, and for the certificate only where a network was read.
pub fn tight<S: Shelf, K: Sink>(
    alloc: Global,
    net: &str,
    cert: &str,
    form: Form,
    pivots: u64,
    shelf: &mut S,
    out: &mut K,
) -> TightOutcome
    requires network { IsTrue ((S.told shelf.old).admits net.now) }
    // Promise: CERT is asked for only where a network is read from NET
    requires certificate { (network : ANetwork) → ReadsUnder (S.told shelf.old).files net.now network → IsTrue ((S.told shelf.old).admits cert.now) }
    ensures took { Took (TightsAs (S.told shelf.old).files net.now cert.now form pivots) (tight_status result) (K.taken out.old) (K.taken out.new) }
    ensures ends { TightEnds (S.told shelf.old).files net.now cert.now pivots (S.told shelf.old).taken (S.told shelf.new).taken (tight_status result) }
    // Promise: Where `--pivots` is above 1,000,000, `tight` reads nothing
    ensures untouched { most_pivots < pivots → shelf.new ≡ shelf.old }
    ensures read_fault { tight_status result ≡ Status.ReadFault → Rose (S.told shelf.old).faults (S.told shelf.new).faults }
    // Promise: Under every status but 20 the count of faults of the shelf is as it was: a call of the shelf that failed is never told as want of
    //   memory (23) or as anything else
    ensures quiet { (tight_status result ≡ Status.ReadFault) ⊎ ((S.told shelf.new).faults ≡ (S.told shelf.old).faults) }
    ensures write_fault { tight_status result ≡ Status.WriteFault → Rose (K.faults out.old) (K.faults out.new) }
    // Promise: 23 of `tight` comes where the network is to be read, or the certificate for one that was read, or at the marks of a valid certificate
    //   whose tree is not too large: what is too long (5), refused (1) or too large (4) is never told as want of memory
    ensures memory { tight_status result ≡ Status.OutOfMemory → MarkWants (S.told shelf.old).files net.now cert.now result }
{
    if pivots > MOST_PIVOTS {
        return TightOutcome::TooLarge;
    }
    mark_under(alloc, net, cert, form, pivots as u32, shelf, out)
}

/// Marks the leaves of the certificate in the file of the second name, within the pivots that may be asked for.
fn mark_under<S: Shelf, K: Sink>(
    alloc: Global,
    net: &str,
    cert: &str,
    form: Form,
    pivots: u32,
    shelf: &mut S,
    out: &mut K,
) -> TightOutcome
    requires network { IsTrue ((S.told shelf.old).admits net.now) }
    requires certificate { (network : ANetwork) → ReadsUnder (S.told shelf.old).files net.now network → IsTrue ((S.told shelf.old).admits cert.now) }
    ensures took { Took (TightsAs (S.told shelf.old).files net.now cert.now form pivots) (tight_status result) (K.taken out.old) (K.taken out.new) }
    ensures ends { MarkEnds (S.told shelf.old).files net.now cert.now (S.told shelf.old).taken (S.told shelf.new).taken (tight_status result) }
    ensures read_fault { tight_status result ≡ Status.ReadFault → Rose (S.told shelf.old).faults (S.told shelf.new).faults }
    ensures quiet { (tight_status result ≡ Status.ReadFault) ⊎ ((S.told shelf.new).faults ≡ (S.told shelf.old).faults) }
    ensures write_fault { tight_status result ≡ Status.WriteFault → Rose (K.faults out.old) (K.faults out.new) }
    ensures memory { tight_status result ≡ Status.OutOfMemory → MarkWants (S.told shelf.old).files net.now cert.now result }
{
    match network_under(alloc, net, shelf) {
        Ok(network) => mark_file(alloc, &network, cert, form, pivots, shelf, out),
        Err(why) => TightOutcome::Unread(why),
    }
}

/// Marks the leaves of the certificate in the file of this name, for a network that was read.
fn mark_file<S: Shelf, K: Sink>(
    alloc: Global,
    network: &Network,
    cert: &str,
    form: Form,
    pivots: u32,
    shelf: &mut S,
    out: &mut K,
) -> TightOutcome
    requires { IsTrue ((S.told shelf.old).admits cert.now) }
    ensures took { (net : List ℕ) → ReadsUnder (S.told shelf.old).files net network.now
        → Took (TightsAs (S.told shelf.old).files net cert.now form pivots) (tight_status result) (K.taken out.old) (K.taken out.new) }
    ensures ends { (net : List ℕ) (before : ℕ) → ReadsUnder (S.told shelf.old).files net network.now → Grows before (S.told shelf.old).taken
        → MarkEnds (S.told shelf.old).files net cert.now before (S.told shelf.new).taken (tight_status result) }
    ensures read_fault { tight_status result ≡ Status.ReadFault → Rose (S.told shelf.old).faults (S.told shelf.new).faults }
    ensures quiet { (tight_status result ≡ Status.ReadFault) ⊎ ((S.told shelf.new).faults ≡ (S.told shelf.old).faults) }
    ensures write_fault { tight_status result ≡ Status.WriteFault → Rose (K.faults out.old) (K.faults out.new) }
    ensures memory { (net : List ℕ) → ReadsUnder (S.told shelf.old).files net network.now → tight_status result ≡ Status.OutOfMemory
        → MarkWants (S.told shelf.old).files net cert.now result }
{
    match certified_under(alloc, network, cert, shelf, out) {
        Ok(certificate) => mark_certified(alloc, network, form, pivots, &certificate, out),
        Err(why) => TightOutcome::Uncertified(why),
    }
}

/// Marks the leaves of a certificate that is valid for the network, unless its tree is too large, and writes the text of the marks.
fn mark_certified<K: Sink>(
    alloc: Global,
    network: &Network,
    form: Form,
    pivots: u32,
    certificate: &Certificate,
    out: &mut K,
) -> TightOutcome
    requires { IsValid (net_of network.now) (shown_cert certificate.now) }
    ensures took { Took (MarksTextOn (net_of network.now) form pivots (shown_cert certificate.now)) (tight_status result) (K.taken out.old) (K.taken out.new) }
    ensures ends { IsTried (net_of network.now) (shown_cert certificate.now) result }
    ensures write_fault { tight_status result ≡ Status.WriteFault → Rose (K.faults out.old) (K.faults out.new) }
{
    if is_large(network, certificate) {
        return TightOutcome::TooLarge;
    }
    match marks_of(alloc, network, form, pivots, certificate) {
        Ok(text) => match write_tight(&text, out) {
            Ok(()) => TightOutcome::Done,
            Err(_) => TightOutcome::WriteFault,
        },
        Err(_) => TightOutcome::Memory,
    }
}

/// Whether the tree of a certificate is too large for the network.
fn is_large(network: &Network, certificate: &Certificate) -> bool
    requires { IsValid (net_of network.now) (shown_cert certificate.now) }
    ensures { IsTrue result ↔ (most_size < size_of (net_of network.now) (shown_cert certificate.now)) }
{
    let numbers = u64::from(vars(network)) + u64::from(rows(network));
    (certificate.splits.len() as u64 + 1) * numbers > MOST_SIZE
}
