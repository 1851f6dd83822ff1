//! The check of a certificate that is read as a stream: each part is judged as it comes.

ghost use Rattle.std.specs.Prelude.{◌≡◌, ◌≢◌, ◌≤◌, ◌⊎◌, ℕ, List, Some, Err, length};
ghost use Rattle.edge_io.specs.Counts.{Rose};
ghost use Rattle.shelf_calls.specs.Told.{Keeps};
ghost use Rattle.pool_model.specs.Network.{Net, net_of};
ghost use Rattle.cert_format.specs.Cert.{Cert};
ghost use Rattle.cert_format.specs.Valid.{IsValid};
ghost use Rattle.cert_stream.specs.Streams.{TookMore, fresh};
ghost use Rattle.cert_checker.specs.Answers.{Spells};
ghost use Rattle.cert_checker.specs.Parts.{IsRefusedFront};
ghost use Rattle.proof_lines.specs.Runs.{Moment, moment, Halts};
ghost use Rattle.cert_checker.specs.Streams.{IsAnswered, IsStreamAnswer, IsStreamedAs};
ghost use Rattle.proof_lines.specs.declared.refusal.Refusal.TheVariants as refusals;
ghost use Rattle.proof_lines.specs.declared.stream_refusal.StreamRefusal.TheVariants as streams;

use crate::claim::check_claim;
use crate::walk::walk;
use blend_network::Network;
use cert_format::Claim;
use cert_stream::CertReader;
use proof_lines::{Refusal, StreamRefusal};
use shelf_calls::Shelf;
use std::alloc::Global;

/// What the certificate in the opened file claims of the network, or the first cause to refuse it.
///
/// The file may have at most so many bytes. It is read once, in memory that depends on the network and on the number of
/// splits alone: a proof is judged as its line is read, and nothing of it is kept. A refusal waits for the end of the file,
/// since a fault of the text, a file that is too long and a failed read go before it.
pub fn check_stream<S: Shelf>(
    alloc: Global,
    net: &Network,
    shelf: &mut S,
    most: u64,
) -> Result<Claim, StreamRefusal>
    // Some bytes, which are the rest of the file where it is told, are accepted or refused as a text is and are at most so many; or
    // they are more. What the certificate of these bytes claims follows for every plan.
    // Promise: `check` of a file is `check` of its bytes: a file that comes in pieces is accepted or refused as its text is, with what it
    //   claims, once it is read to its end; else it has more bytes than it may have, the shelf failed, or memory ran out
    ensures checked { IsStreamAnswer (net_of net.now) (S.told shelf.old).rest most result }
    // The text of a valid certificate that is not too long is accepted, unless a read fails or memory runs out.
    // Promise: `check` of a file is `check` of its bytes: a file that comes in pieces is accepted or refused as its text is, with what it
    //   claims, once it is read to its end; else it has more bytes than it may have, the shelf failed, or memory ran out
    ensures valid { (bytes : List ℕ) (c : Cert) → (S.told shelf.old).rest ≡ Some bytes → length bytes ≤ most → Spells bytes c → IsValid (net_of net.now) c → IsStreamedAs c.claim result }
    // Of a file that is too long more was taken than it may have; a read failed only where the count of faults rose.
    // Promise: Of a file that is called too long more bytes were taken than it may have
    ensures too_long { result ≡ Err streams.TooLong → TookMore most (S.told shelf.old).taken (S.told shelf.new).taken }
    // Promise: `check` of a file is `check` of its bytes: a file that comes in pieces is accepted or refused as its text is, with what it
    //   claims, once it is read to its end; else it has more bytes than it may have, the shelf failed, or memory ran out
    ensures read { result ≡ Err streams.Read → Rose (S.told shelf.old).faults (S.told shelf.new).faults }
    // Promise: Of a file whose reading failed it is told that it failed: every other answer on it, want of memory too, leaves the shelf's
    //   count of faults as it was
    ensures quiet { (result ≡ Err streams.Read) ⊎ ((S.told shelf.new).faults ≡ (S.told shelf.old).faults) }
    ensures no_memory_refusal { result ≢ Err (streams.Refused refusals.Memory) }
    ensures kept { Keeps (S.told shelf.old) (S.told shelf.new) }
{
    let mut reader = CertReader::start(alloc, most)?;
    answer(alloc, net, &mut reader, shelf)
}

/// The answer on a file of which nothing was read before.
fn answer<S: Shelf>(
    alloc: Global,
    net: &Network,
    reader: &mut CertReader,
    shelf: &mut S,
) -> Result<Claim, StreamRefusal>
    requires { (most : ℕ) × (reader.old ≡ fresh most) }
    ensures { (most : ℕ) → reader.old ≡ fresh most → IsAnswered (net_of net.now) most (moment reader.old (S.told shelf.old)) (moment reader.new (S.told shelf.new)) result }
{
    match walk(alloc, net, reader, shelf) {
        Ok(found) => {
            check_claim(&found.claim, found.cost, found.bound)?;
            Ok(found.claim)
        }
        Err(refusal) => Err(at_the_end(refusal, reader, shelf)),
    }
}

/// What is answered where a certificate is refused before its end: a cause that it gives waits for the end of the file.
fn at_the_end<S: Shelf>(
    refusal: StreamRefusal,
    reader: &mut CertReader,
    shelf: &mut S,
) -> StreamRefusal
    requires { (n : Net) × (m : Moment) × Halts (IsRefusedFront n) m (moment reader.old (S.told shelf.old)) refusal }
    ensures { (n : Net) (m : Moment) (most : ℕ) → m.reader ≡ fresh most → Halts (IsRefusedFront n) m (moment reader.old (S.told shelf.old)) refusal
        → IsAnswered n most m (moment reader.new (S.told shelf.new)) (Err result) }
{
    match refusal {
        StreamRefusal::Refused(cause) => wait_for_end(cause, reader, shelf),
        _ => refusal,
    }
}

/// What is answered where a certificate is refused: at the end of the file already for a fault of the text, and else once it is
/// read to its end.
fn wait_for_end<S: Shelf>(cause: Refusal, reader: &mut CertReader, shelf: &mut S) -> StreamRefusal
    requires { (n : Net) × (m : Moment) × Halts (IsRefusedFront n) m (moment reader.old (S.told shelf.old)) (streams.Refused cause) }
    ensures { (n : Net) (m : Moment) (most : ℕ) → m.reader ≡ fresh most → Halts (IsRefusedFront n) m (moment reader.old (S.told shelf.old))
        (streams.Refused cause) → IsAnswered n most m (moment reader.new (S.told shelf.new)) (Err result) }
{
    if let Refusal::Text(_) = cause {
        return StreamRefusal::Refused(cause);
    }
    match reader.finish(shelf) {
        Ok(()) => StreamRefusal::Refused(cause),
        Err(fault) => StreamRefusal::from(fault),
    }
}
