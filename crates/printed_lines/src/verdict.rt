//! The line that `check` prints.

ghost use Rattle.std.specs.Prelude.{◌≡◌, ◌++◌, codes, pos, OnErr};
ghost use Rattle.edge_io.specs.Counts.{Grows, Rose};
ghost use Rattle.edge_io.specs.Writing.{Wrote};
ghost use Rattle.row_book.specs.Faults as proofs;
ghost use Rattle.cert_format.specs.Views.{shown_claim};
ghost use Rattle.printed_lines.specs.Verdicts.{accepted_line, gap_line, labelled, numbered, refused_line};

use cert_checker::Refusal;
use cert_format::Claim;
use edge_io::{Sink, WriteFault, write_number, write_whole};
use row_book::ProofFault;
use text_buffer::TextBuffer;

/// Writes the line of an accepted certificate, as one piece. It takes no memory.
pub fn write_accepted<K: Sink>(claim: &Claim, out: &mut K) -> Result<(), WriteFault>
    ensures wrote { Wrote result (K.taken out.old) (accepted_line (shown_claim claim.now)) (K.taken out.new) }
    ensures failed { OnErr result (Rose (K.faults out.old) (K.faults out.new)) }
    ensures faults_grow { Grows (K.faults out.old) (K.faults out.new) }
{
    let mut line = TextBuffer::new();
    match put_accepted(claim, &mut line) {
        Ok(()) => write_whole(out, line.text()),
        Err(_) => put_accepted(claim, out),
    }
}

/// Writes the line of an accepted certificate, word by word.
fn put_accepted<K: Sink>(claim: &Claim, out: &mut K) -> Result<(), WriteFault>
    ensures wrote { Wrote result (K.taken out.old) (accepted_line (shown_claim claim.now)) (K.taken out.new) }
    ensures failed { OnErr result (Rose (K.faults out.old) (K.faults out.new)) }
    ensures faults_grow { Grows (K.faults out.old) (K.faults out.new) }
{
    match claim {
        Claim::Gap {
            cost,
            base,
            bound,
            gap,
            ..
        } => write_gap(*cost, *base, *bound, *gap, out),
        Claim::Bound { bound } => write_numbered(b"accepted bound ", *bound, out),
        Claim::NoPlan => write_whole(out, b"accepted none\n"),
    }
}

/// Writes the line of a cost over a base, a bound, and their gap over that base.
fn write_gap<K: Sink>(
    cost: i128,
    base: u64,
    bound: i128,
    gap: i128,
    out: &mut K,
) -> Result<(), WriteFault>
    ensures wrote { Wrote result (K.taken out.old) (gap_line cost base bound gap) (K.taken out.new) }
    ensures failed { OnErr result (Rose (K.faults out.old) (K.faults out.new)) }
    ensures faults_grow { Grows (K.faults out.old) (K.faults out.new) }
{
    write_labelled(b"accepted gap cost ", cost, out)?;
    write_labelled(b" base ", i128::from(base), out)?;
    write_labelled(b" bound ", bound, out)?;
    write_numbered(b" gap ", gap, out)
}

/// Writes the line of a refused certificate, as one piece. It takes no memory.
pub fn write_refused<K: Sink>(refusal: &Refusal, out: &mut K) -> Result<(), WriteFault>
    ensures wrote { Wrote result (K.taken out.old) (refused_line refusal.now) (K.taken out.new) }
    ensures failed { OnErr result (Rose (K.faults out.old) (K.faults out.new)) }
    ensures faults_grow { Grows (K.faults out.old) (K.faults out.new) }
{
    let mut line = TextBuffer::new();
    match put_refused(refusal, &mut line) {
        Ok(()) => write_whole(out, line.text()),
        Err(_) => put_refused(refusal, out),
    }
}

/// Writes the line of a refused certificate, word by word.
fn put_refused<K: Sink>(refusal: &Refusal, out: &mut K) -> Result<(), WriteFault>
    ensures wrote { Wrote result (K.taken out.old) (refused_line refusal.now) (K.taken out.new) }
    ensures failed { OnErr result (Rose (K.faults out.old) (K.faults out.new)) }
    ensures faults_grow { Grows (K.faults out.old) (K.faults out.new) }
{
    match refusal {
        Refusal::Text(fault) => write_placed(b"refused text ", fault.line, out),
        Refusal::Shape => write_whole(out, b"refused shape\n"),
        Refusal::Plan(fault) => write_placed(b"refused plan ", u64::from(fault.number()), out),
        Refusal::Split(t) => write_placed(b"refused split ", u64::from(*t), out),
        Refusal::ProofPlace(k) => write_placed(b"refused place ", u64::from(*k), out),
        Refusal::Proof(node, fault) => write_proof_fault(*node, fault, out),
        Refusal::WrongKind => write_whole(out, b"refused kind\n"),
        Refusal::WrongCost => write_whole(out, b"refused cost\n"),
        Refusal::WrongBound => write_whole(out, b"refused bound\n"),
        Refusal::WrongGap => write_whole(out, b"refused gap\n"),
        Refusal::Memory => write_whole(out, b""),
    }
}

/// Writes the line of a node whose proof is refused.
fn write_proof_fault<K: Sink>(node: u32, fault: &ProofFault, out: &mut K) -> Result<(), WriteFault>
    ensures wrote { Wrote result (K.taken out.old) (labelled (codes "refused proof ") (pos node) ++ numbered (codes " ") (pos (proofs.number fault.now))) (K.taken out.new) }
    ensures failed { OnErr result (Rose (K.faults out.old) (K.faults out.new)) }
    ensures faults_grow { Grows (K.faults out.old) (K.faults out.new) }
{
    write_labelled(b"refused proof ", i128::from(node), out)?;
    write_placed(b" ", u64::from(fault.number()), out)
}

/// Writes a line that ends with the number of a place or a cause.
fn write_placed<K: Sink>(word: &[u8], n: u64, out: &mut K) -> Result<(), WriteFault>
    ensures wrote { Wrote result (K.taken out.old) (numbered word.now (pos n)) (K.taken out.new) }
    ensures failed { OnErr result (Rose (K.faults out.old) (K.faults out.new)) }
    ensures faults_grow { Grows (K.faults out.old) (K.faults out.new) }
{
    write_numbered(word, i128::from(n), out)
}

/// Writes a line that ends with a number.
fn write_numbered<K: Sink>(word: &[u8], n: i128, out: &mut K) -> Result<(), WriteFault>
    ensures wrote { Wrote result (K.taken out.old) (numbered word.now n) (K.taken out.new) }
    ensures failed { OnErr result (Rose (K.faults out.old) (K.faults out.new)) }
    ensures faults_grow { Grows (K.faults out.old) (K.faults out.new) }
{
    write_labelled(word, n, out)?;
    write_whole(out, b"\n")
}

/// Writes a number behind a word.
fn write_labelled<K: Sink>(word: &[u8], n: i128, out: &mut K) -> Result<(), WriteFault>
    ensures wrote { Wrote result (K.taken out.old) (labelled word.now n) (K.taken out.new) }
    ensures failed { OnErr result (Rose (K.faults out.old) (K.faults out.new)) }
    ensures faults_grow { Grows (K.faults out.old) (K.faults out.new) }
{
    write_whole(out, word)?;
    write_number(out, n)
}
