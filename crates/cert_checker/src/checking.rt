//! The check of a certificate that lies in memory.

ghost use Rattle.std.specs.Prelude.{IfOk, IfErr};
ghost use Rattle.pool_model.specs.Network.{net_of};
ghost use Rattle.pool_model.specs.Claim.{Follows};
ghost use Rattle.cert_format.specs.Cert.{Cert};
ghost use Rattle.cert_format.specs.Valid.{IsValid};
ghost use Rattle.cert_format.specs.Views.{shown_claim};
ghost use Rattle.cert_checker.specs.Answers.{Spells, IsAccepted, IsRefused, IsTakenAs};

use crate::stream::check_stream;
use blend_network::Network;
use cert_format::Claim;
use proof_lines::{Refusal, StreamRefusal};
use shelf_calls::SliceShelf;
use std::alloc::Global;

/// What the certificate of this text claims of the network, or the first cause to refuse it.
///
/// It goes once over the text, as over a file that holds it, and over the splits as `split_tree` says. For each proof it finds the box
/// of the proof's node, as `split_tree` says, and goes over the terms of the proof's rows and the network's variables.
pub fn check(alloc: Global, net: &Network, bytes: &[u8]) -> Result<Claim, Refusal>
    // The text is that of a valid certificate, which claims this.
    // Promise: A text is accepted only where some certificate has it and is valid for the network, and with its numbers
    ensures accepted { IfOk result (λ c. IsAccepted (net_of net.now) bytes.now (shown_claim c)) }
    // What the certificate of this text claims follows for every plan.
    // Promise: What an accepted certificate claims follows for every plan
    ensures follows { IfOk result (λ _. (c : Cert) → Spells bytes.now c → Follows (net_of net.now) c.claim) }
    // A refusal is the first that there is.
    // Promise: Where a certificate is refused, the first cause that there is is told, in a fixed order
    ensures refused { IfErr result (IsRefused (net_of net.now) bytes.now) }
    // The text of a valid certificate is accepted, unless memory runs out.
    // Promise: The text of a valid certificate is accepted, or memory ran out
    ensures valid { (c : Cert) → Spells bytes.now c → IsValid (net_of net.now) c → IsTakenAs c.claim result }
{
    let mut shelf = SliceShelf::new(bytes);
    match check_stream(alloc, net, &mut shelf, bytes.len() as u64) {
        Ok(claim) => Ok(claim),
        Err(StreamRefusal::Refused(refusal)) => Err(refusal),
        Err(StreamRefusal::Memory) => Err(Refusal::Memory),
        Err(StreamRefusal::Read | StreamRefusal::TooLong) => unreachable!(),
    }
}
