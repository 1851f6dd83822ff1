//! A certificate, read from left to right, line by line.
//!
//! A reader of a line stops with `Stop::Text` where its line is faulty, and with `Stop::Source` only where the source is broken.

ghost use Rattle.std.specs.Prelude.{◌≡◌, ◌-◌, ◌^◌, length, get_or, codes, map, IfOk, IfErr, List, ℕ};
ghost use Rattle.box_space.specs.Views.{shown_part, shown_split};
ghost use Rattle.plan_core.specs.Views.{shown_plan};
ghost use Rattle.cert_text.specs.Reading.{Gives, finished, whole, each_at};
ghost use Rattle.cert_text.specs.Results.{Closes, Comes, IsFaultIn, IsReadAs, Yields};
ghost use Rattle.cert_writing.specs.Cert.{Cert, IsCert};
ghost use Rattle.cert_format.specs.Reading.{kind_word_at, kind_at, shape_at, u32s_at, u64s_at, list_word_at, weights_at, flows_at, plan_at, opened, opened_at};
ghost use Rattle.cert_format.specs.Reading.{split_line_at, splits_at, part_at, proof_line_at, proofs_at, bound_at, gap_at, claim_at, cert_at};
ghost use Rattle.cert_writing.specs.Views.{shown_claim, shown_node_proof, shown_cert};
ghost use Rattle.cert_writing.specs.Text.{text_of};

use box_space::{Part, Proof, Split};
use cert_text::{
    Ends, Halt, ReadFault, SliceSource, Source, Stop, TextFault, i64_then, i128_then, same,
    u32_then, u64_then, word,
};
use cert_writing::{Certificate, Claim, NodeProof};
use plan_core::WrittenPlan;
use std::alloc::Global;

/// What a certificate claims.
#[derive(Clone, Copy, Debug, PartialEq)]
pub enum Kind {
    Gap,
    Bound,
    NoPlan,
}

/// What a certificate claims, with the plan where it has one.
#[derive(Drop)]
enum Opening {
    Gap(WrittenPlan),
    Bound,
    NoPlan,
}

/// The word of a kind, and the end of its line.
fn kind_word<S: Source>(src: &mut S) -> Result<Kind, Stop>
    ensures { Gives (λ x. x) result (S.at src.new) (S.broken src.new) (kind_word_at (S.at src.old)) }
{
    let line = src.line();
    match src.next()? {
        Some(b'g') => {
            word(src, b"ap\n")?;
            Ok(Kind::Gap)
        }
        Some(b'b') => {
            word(src, b"ound\n")?;
            Ok(Kind::Bound)
        }
        Some(b'n') => {
            word(src, b"one\n")?;
            Ok(Kind::NoPlan)
        }
        _ => Err(Stop::Text(TextFault { line })),
    }
}

/// The line of the kind.
#[tactic(auto, unfolding(crate::specs::Reading::kind_at))]
pub fn kind_line<S: Source>(src: &mut S) -> Result<Kind, Stop>
    ensures { Gives (λ x. x) result (S.at src.new) (S.broken src.new) (kind_at (S.at src.old)) }
{
    word(src, b"kind ")?;
    kind_word(src)
}

/// The line of the shape.
#[tactic(auto, unfolding(crate::specs::Reading::shape_at))]
pub fn shape<S: Source>(src: &mut S) -> Result<[u32; 7], Stop>
    ensures { Gives (λ x. x) result (S.at src.new) (S.broken src.new) (shape_at (S.at src.old)) }
{
    word(src, b"shape ")?;
    let sources = u32_then(src, Ends::Space)?;
    let pools = u32_then(src, Ends::Space)?;
    let products = u32_then(src, Ends::Space)?;
    let qualities = u32_then(src, Ends::Space)?;
    let feeds = u32_then(src, Ends::Space)?;
    let outs = u32_then(src, Ends::Space)?;
    let directs = u32_then(src, Ends::Line)?;
    Ok([sources, pools, products, qualities, feeds, outs, directs])
}

/// n numbers, to the end of the line.
fn u32s<S: Source>(alloc: Global, src: &mut S, n: u32) -> Result<Vec<u32>, Halt>
    ensures { Yields (λ v. v.items) result (S.at src.new) (S.broken src.new) (u32s_at n (S.at src.old)) }
{
    let mut numbers = Vec::new(alloc);
    for i in 0..n {
        let number = u32_then(src, Ends::before(n - i - 1))?;
        numbers.push(number)?;
    }
    Ok(numbers)
}

/// n numbers of 64 bits, to the end of the line.
fn u64s<S: Source>(alloc: Global, src: &mut S, n: u32) -> Result<Vec<u64>, Halt>
    ensures { Yields (λ v. v.items) result (S.at src.new) (S.broken src.new) (u64s_at n (S.at src.old)) }
{
    let mut numbers = Vec::new(alloc);
    for i in 0..n {
        let number = u64_then(src, Ends::before(n - i - 1))?;
        numbers.push(number)?;
    }
    Ok(numbers)
}

/// A word that n numbers follow, with the byte behind it.
#[tactic(auto, unfolding(crate::specs::Reading::list_word_at))]
pub fn list_word<S: Source>(src: &mut S, name: &[u8], n: u32) -> Result<(), Stop>
    ensures { Gives (λ x. x) result (S.at src.new) (S.broken src.new) (list_word_at name.now n (S.at src.old)) }
{
    word(src, name)?;
    word(src, &[Ends::before(n).byte(0)])
}

/// The line of n weights.
#[tactic(auto, unfolding(crate::specs::Reading::weights_at))]
fn weights<S: Source>(alloc: Global, src: &mut S, n: u32) -> Result<Vec<u32>, Halt>
    ensures { Yields (λ v. v.items) result (S.at src.new) (S.broken src.new) (weights_at n (S.at src.old)) }
{
    list_word(src, b"weights", n)?;
    u32s(alloc, src, n)
}

/// The line of n flows behind a word.
#[tactic(auto, unfolding(crate::specs::Reading::flows_at))]
fn flows<S: Source>(alloc: Global, src: &mut S, name: &[u8], n: u32) -> Result<Vec<u64>, Halt>
    ensures { Yields (λ v. v.items) result (S.at src.new) (S.broken src.new) (flows_at name.now n (S.at src.old)) }
{
    list_word(src, name, n)?;
    u64s(alloc, src, n)
}

/// The lines of a plan of this shape.
#[tactic(auto, unfolding(crate::specs::Reading::plan_at))]
fn plan<S: Source>(alloc: Global, src: &mut S, shape: &[u32; 7]) -> Result<WrittenPlan, Halt>
    ensures { Yields shown_plan result (S.at src.new) (S.broken src.new) (plan_at shape.now (S.at src.old)) }
{
    word(src, b"plan ")?;
    let base = u32_then(src, Ends::Space)?;
    let flow_base = u32_then(src, Ends::Line)?;
    let weights = weights(alloc, src, shape[4])?;
    let outflows = flows(alloc, src, b"outflows", shape[5])?;
    let direct = flows(alloc, src, b"direct", shape[6])?;
    Ok(WrittenPlan {
        base,
        flow_base,
        weights,
        outflows,
        direct,
    })
}

/// The lines of the plan, where there is one.
#[tactic(auto, unfolding(crate::specs::Reading::opened_at))]
fn opening_lines<S: Source>(
    alloc: Global,
    src: &mut S,
    kind: Kind,
    shape: &[u32; 7],
) -> Result<Opening, Halt>
    ensures { Yields opened result (S.at src.new) (S.broken src.new) (opened_at kind shape.now (S.at src.old)) }
{
    match kind {
        Kind::Gap => {
            let plan = plan(alloc, src, shape)?;
            Ok(Opening::Gap(plan))
        }
        Kind::Bound => Ok(Opening::Bound),
        Kind::NoPlan => Ok(Opening::NoPlan),
    }
}

/// The line of a split.
#[tactic(auto, unfolding(crate::specs::Reading::split_line_at))]
pub fn split_line<S: Source>(src: &mut S) -> Result<Split, Stop>
    ensures { Gives shown_split result (S.at src.new) (S.broken src.new) (split_line_at (S.at src.old)) }
{
    word(src, b"split ")?;
    let leaf = u32_then(src, Ends::Space)?;
    let coord = u32_then(src, Ends::Space)?;
    let cut = i64_then(src, Ends::Line)?;
    Ok(Split { leaf, coord, cut })
}

/// The lines of n splits.
fn split_list<S: Source>(alloc: Global, src: &mut S, n: u32) -> Result<Vec<Split>, Halt>
    ensures { Yields (λ v. map shown_split v.items) result (S.at src.new) (S.broken src.new) (each_at (λ _. split_line_at) n (S.at src.old)) }
{
    let mut splits = Vec::new(alloc);
    for _ in 0..n {
        let split = split_line(src)?;
        splits.push(split)?;
    }
    Ok(splits)
}

/// The count of the splits, and their lines.
#[tactic(auto, unfolding(crate::specs::Reading::splits_at))]
pub fn splits<S: Source>(alloc: Global, src: &mut S) -> Result<Vec<Split>, Halt>
    ensures { Yields (λ v. map shown_split v.items) result (S.at src.new) (S.broken src.new) (splits_at (S.at src.old)) }
{
    word(src, b"splits ")?;
    let n = u32_then(src, Ends::Line)?;
    split_list(alloc, src, n)
}

/// A part that so many others follow in its line.
#[tactic(auto, unfolding(crate::specs::Reading::part_at))]
pub fn part<S: Source>(src: &mut S, others: u32) -> Result<Part, Stop>
    ensures { Gives shown_part result (S.at src.new) (S.broken src.new) (part_at others (S.at src.old)) }
{
    let row = u32_then(src, Ends::Space)?;
    let mult = i64_then(src, Ends::before(others))?;
    Ok(Part { row, mult })
}

/// n parts, to the end of the line.
pub fn part_list<S: Source>(alloc: Global, src: &mut S, n: u32) -> Result<Vec<Part>, Halt>
    ensures { Yields (λ v. map shown_part v.items) result (S.at src.new) (S.broken src.new) (each_at part_at n (S.at src.old)) }
{
    let mut parts = Vec::new(alloc);
    for i in 0..n {
        let part = part(src, n - i - 1)?;
        parts.push(part)?;
    }
    Ok(parts)
}

/// The line of a proof.
#[tactic(auto, unfolding(crate::specs::Reading::proof_line_at))]
fn proof_line<S: Source>(alloc: Global, src: &mut S) -> Result<NodeProof, Halt>
    ensures { Yields shown_node_proof result (S.at src.new) (S.broken src.new) (proof_line_at (S.at src.old)) }
{
    word(src, b"proof ")?;
    let node = u32_then(src, Ends::Space)?;
    let scale = u64_then(src, Ends::Space)?;
    let count = u32_then(src, Ends::LineIfZero)?;
    let parts = part_list(alloc, src, count)?;
    let proof = Proof { scale, parts };
    Ok(NodeProof { node, proof })
}

/// The lines of n proofs.
fn proof_list<S: Source>(alloc: Global, src: &mut S, n: u32) -> Result<Vec<NodeProof>, Halt>
    ensures { Yields (λ v. map shown_node_proof v.items) result (S.at src.new) (S.broken src.new) (each_at (λ _. proof_line_at) n (S.at src.old)) }
{
    let mut proofs = Vec::new(alloc);
    for _ in 0..n {
        let proof = proof_line(alloc, src)?;
        proofs.push(proof)?;
    }
    Ok(proofs)
}

/// The count of the proofs, and their lines.
#[tactic(auto, unfolding(crate::specs::Reading::proofs_at))]
fn proofs<S: Source>(alloc: Global, src: &mut S) -> Result<Vec<NodeProof>, Halt>
    ensures { Yields (λ v. map shown_node_proof v.items) result (S.at src.new) (S.broken src.new) (proofs_at (S.at src.old)) }
{
    word(src, b"proofs ")?;
    let n = u32_then(src, Ends::Line)?;
    proof_list(alloc, src, n)
}

/// The line of a bound.
#[tactic(auto, unfolding(crate::specs::Reading::bound_at))]
pub fn bound<S: Source>(src: &mut S) -> Result<i128, Stop>
    ensures { Gives (λ x. x) result (S.at src.new) (S.broken src.new) (bound_at (S.at src.old)) }
{
    word(src, b"bound ")?;
    i128_then(src, Ends::Line)
}

/// The lines of a cost, a bound and their gap, which has the base of the cost.
#[tactic(auto, unfolding(crate::specs::Reading::gap_at))]
fn gap<S: Source>(src: &mut S, plan: WrittenPlan) -> Result<Claim, Stop>
    ensures { Gives shown_claim result (S.at src.new) (S.broken src.new) (gap_at (shown_plan plan) (S.at src.old)) }
{
    word(src, b"cost ")?;
    let cost = i128_then(src, Ends::Space)?;
    let base = u64_then(src, Ends::Line)?;
    let bound = bound(src)?;
    word(src, b"gap ")?;
    let gap = i128_then(src, Ends::Space)?;
    same(src, base, Ends::Line)?;
    Ok(Claim::Gap {
        plan,
        cost,
        base,
        bound,
        gap,
    })
}

/// The lines of the numbers that are claimed.
#[tactic(auto, unfolding(crate::specs::Reading::claim_at))]
fn claim<S: Source>(src: &mut S, opening: Opening) -> Result<Claim, Stop>
    ensures { Gives shown_claim result (S.at src.new) (S.broken src.new) (claim_at (opened opening) (S.at src.old)) }
{
    match opening {
        Opening::Gap(plan) => gap(src, plan),
        Opening::Bound => {
            let bound = bound(src)?;
            Ok(Claim::Bound { bound })
        }
        Opening::NoPlan => Ok(Claim::NoPlan),
    }
}

/// A certificate, at the front of what the source has.
#[tactic(auto, unfolding(crate::specs::Reading::cert_at))]
fn certificate<S: Source>(alloc: Global, src: &mut S) -> Result<Certificate, Halt>
    ensures { Yields shown_cert result (S.at src.new) (S.broken src.new) (cert_at (S.at src.old)) }
{
    word(src, b"poolcert 1\n")?;
    let kind = kind_line(src)?;
    let shape = shape(src)?;
    let opening = opening_lines(alloc, src, kind, &shape)?;
    let splits = splits(alloc, src)?;
    let proofs = proofs(alloc, src)?;
    let claim = claim(src, opening)?;
    word(src, b"end\n")?;
    Ok(Certificate {
        shape,
        claim,
        splits,
        proofs,
    })
}

/// A certificate, and nothing behind it in the source.
fn to_the_end<S: Source>(alloc: Global, src: &mut S) -> Result<Certificate, Halt>
    ensures { Closes shown_cert result (S.broken src.new) (finished cert_at (S.at src.old)) }
{
    let cert = certificate(alloc, src)?;
    let line = src.line();
    match src.next() {
        Ok(None) => Ok(cert),
        Ok(Some(_)) => Err(Halt::Read(Stop::Text(TextFault { line }))),
        Err(_) => Err(Halt::Read(Stop::Source)),
    }
}

/// All of the bytes: a certificate and nothing behind it.
fn all(alloc: Global, bytes: &[u8]) -> Result<Certificate, ReadFault>
    ensures { Comes shown_cert result (whole cert_at bytes.now) }
{
    let mut src = SliceSource::new(bytes);
    match to_the_end(alloc, &mut src) {
        Ok(cert) => Ok(cert),
        Err(Halt::Read(Stop::Text(fault))) => Err(ReadFault::Line(fault.line)),
        Err(Halt::Read(Stop::Source)) => unreachable!(),
        Err(Halt::Memory) => Err(ReadFault::Memory),
    }
}

/// The certificate that has this text.
///
/// `Line` comes exactly where no certificate has this text, with the first faulty line, from 1: the first such that no
/// certificate's text begins with the lines up to it. Where there is none, and the text isn't whole or goes on behind the
/// certificate's, it is the number of the rest behind the last line feed. `Memory` is want of memory; none is taken ahead
/// of what is read.
pub fn read_cert(alloc: Global, bytes: &[u8]) -> Result<Certificate, ReadFault>
    // What is read has this text.
    // Promise: What is read of a text is the certificate that has it
    ensures found { IfOk result (λ c. IsCert (shown_cert c) × (bytes.now ≡ text_of (shown_cert c))) }
    // What is the text of a certificate is read as that certificate, unless memory runs out.
    // Promise: The text of a certificate is read as that certificate, or memory ran out
    ensures only { (c : Cert) → IsCert c → bytes.now ≡ text_of c → IsReadAs shown_cert c result }
    // A fault is that of the first faulty line.
    // Promise: A text that no certificate has is refused at its first faulty line
    ensures fault { IfErr result (IsFaultIn Cert IsCert text_of bytes.now) }
{
    all(alloc, bytes)
}
