//! The certificate in a file, which is valid for a network; or the line on why there is none.

ghost use Rattle.std.specs.Prelude.{◌≡◌, ◌⊎◌, ℕ, List, Err, IsTrue, IfOk, IfErr, OnOk};
ghost use Rattle.edge_io.specs.Counts.{Rose};
ghost use Rattle.shelf_calls.specs.Told.{Keeps};
ghost use Rattle.pool_model.specs.Network.{Net, net_of};
ghost use Rattle.cert_format.specs.Views.{shown_cert};
ghost use Rattle.cert_checker.specs.Answers.{IsRefused, Spells};
ghost use Rattle.proof_lines.specs.declared.refusal.Refusal.TheVariants as refusals;
ghost use Rattle.run_status.specs.Took.{Took};
ghost use Rattle.tight_commands.specs.Certified.{CertifiedIn, Certifies, IsRefusalOf, IsUncertified, RefusedTextIn, RefusedTextOn, uncertified_by, uncertified_status};
ghost use Rattle.tight_commands.specs.declared.certified.Uncertified.TheVariants as uncertified;

use blend_network::Network;
use cert_checker::{Refusal, check};
use cert_format::{Certificate, read_cert};
use edge_io::Sink;
use printed_lines::write_refused;
use run_status::Status;
use shelf_calls::{Shelf, ShelfFault};
use std::alloc::Global;

/// How many bytes a certificate may have.
const MOST_BYTES: usize = 1_073_741_824;

/// Why there is no valid certificate in a file.
#[derive(Debug, Drop)]
pub enum Uncertified {
    /// It is refused, and the line on it was written.
    Refused(Refusal),
    /// It is longer than may be.
    TooLong,
    /// The shelf failed.
    Failed,
    /// Memory ran out.
    Memory,
    /// It is refused, and the sink failed at the line on it.
    Unwritten,
}

impl From<Uncertified> for Status {
    ghost from_gives = { λ why status. status ≡ uncertified_status why };

    fn from(why: Uncertified) -> Status {
        match why {
            Uncertified::Refused(refusal) => Status::Refused(refusal),
            Uncertified::TooLong => Status::CertTooLong,
            Uncertified::Failed => Status::ReadFault,
            Uncertified::Memory => Status::OutOfMemory,
            Uncertified::Unwritten => Status::WriteFault,
        }
    }
}

impl From<ShelfFault> for Uncertified {
    ghost from_gives = { λ fault why. why ≡ uncertified_by fault };

    // Promise: Of what a shelf may say of the file of CERT want of memory alone is made 23: a failure is made 20, and too many bytes 5
    fn from(fault: ShelfFault) -> Uncertified {
        match fault {
            ShelfFault::Failed => Uncertified::Failed,
            ShelfFault::TooLong => Uncertified::TooLong,
            ShelfFault::Memory => Uncertified::Memory,
        }
    }
}

/// The certificate in the file of this name, which is valid for the network. Where it is refused, the line on it is written.
///
/// `TooLong` comes exactly where the file has more than 1,073,741,824 bytes, and `Refused` only where it is no text of a valid certificate, with
/// the first cause. `Failed` comes only where the shelf's count of faults rose, and `Unwritten` only where the sink's did.
pub(crate) fn certified_under<S: Shelf, K: Sink>(
    alloc: Global,
    net: &Network,
    name: &str,
    shelf: &mut S,
    out: &mut K,
) -> Result<Certificate, Uncertified>
    requires { IsTrue ((S.told shelf.old).admits name.now) }
    ensures certified { IfOk result (λ c. CertifiedIn (S.told shelf.old).files name.now (net_of net.now) (shown_cert c)) }
    ensures uncertified { IfErr result (IsUncertified (net_of net.now) name.now (S.told shelf.old) (S.told shelf.new)) }
    ensures took { IfErr result (λ why. Took (RefusedTextIn (S.told shelf.old).files name.now (net_of net.now)) (uncertified_status why) (K.taken out.old) (K.taken out.new)) }
    ensures untouched { OnOk result (out.new ≡ out.old) }
    ensures quiet { (result ≡ Err uncertified.Failed) ⊎ ((S.told shelf.new).faults ≡ (S.told shelf.old).faults) }
    ensures write_fault { result ≡ Err uncertified.Unwritten → Rose (K.faults out.old) (K.faults out.new) }
    ensures kept { Keeps (S.told shelf.old) (S.told shelf.new) }
{
    match shelf.read_all(alloc, name, MOST_BYTES) {
        Ok(bytes) => certified(alloc, net, &bytes, out),
        Err(fault) => Err(Uncertified::from(fault)),
    }
}

/// The certificate that has this text, which is valid for the network. Where the text is refused, the line on it is written.
fn certified<K: Sink>(
    alloc: Global,
    net: &Network,
    bytes: &[u8],
    out: &mut K,
) -> Result<Certificate, Uncertified>
    ensures certified { IfOk result (λ c. Certifies (net_of net.now) bytes.now (shown_cert c)) }
    ensures refused { IfErr result (IsRefusalOf (net_of net.now) bytes.now) }
    ensures took { IfErr result (λ why. Took (RefusedTextOn (net_of net.now) bytes.now) (uncertified_status why) (K.taken out.old) (K.taken out.new)) }
    ensures untouched { OnOk result (out.new ≡ out.old) }
    ensures write_fault { result ≡ Err uncertified.Unwritten → Rose (K.faults out.old) (K.faults out.new) }
{
    match check(alloc, net, bytes) {
        Ok(_) => accepted(alloc, bytes),
        Err(refusal) => Err(told_refusal(refusal, out)),
    }
}

/// The certificate that has this text; no other fault comes than want of memory.
fn accepted(alloc: Global, bytes: &[u8]) -> Result<Certificate, Uncertified>
    ensures spelled { IfOk result (λ c. Spells bytes.now (shown_cert c)) }
    ensures memory { IfErr result (λ why. why ≡ uncertified.Memory) }
{
    match read_cert(alloc, bytes) {
        Ok(cert) => Ok(cert),
        Err(_) => Err(Uncertified::Memory),
    }
}

/// Writes the line on a text that is refused, and says how that ended; want of memory has no line.
fn told_refusal<K: Sink>(refusal: Refusal, out: &mut K) -> Uncertified
    ensures refused { (n : Net) (bytes : List ℕ) → IsRefused n bytes refusal → IsRefusalOf n bytes result }
    ensures took { (n : Net) (bytes : List ℕ) → IsRefused n bytes refusal
        → Took (RefusedTextOn n bytes) (uncertified_status result) (K.taken out.old) (K.taken out.new) }
    ensures write_fault { result ≡ uncertified.Unwritten → Rose (K.faults out.old) (K.faults out.new) }
    // Promise: Of the causes for which CERT is not accepted want of memory alone is made 23
    ensures memory { result ≡ uncertified.Memory → refusal ≡ refusals.Memory }
{
    match refusal {
        Refusal::Memory => Uncertified::Memory,
        refusal => match write_refused(&refusal, out) {
            Ok(()) => Uncertified::Refused(refusal),
            Err(_) => Uncertified::Unwritten,
        },
    }
}
