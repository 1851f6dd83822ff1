//! The one text of a certificate, written.

ghost use Rattle.std.specs.Prelude.{[], ◌∷◌, ◌++◌, length, map, decimal, codes, OnErr};
ghost use Rattle.std.specs.List.{flat_map};
ghost use Rattle.box_space.specs.Views.{shown_part, shown_proof, shown_split};
ghost use Rattle.edge_io.specs.Counts.{Grows, Rose};
ghost use Rattle.edge_io.specs.Writing.{Wrote};
ghost use Rattle.plan_core.specs.Views.{shown_plan};
ghost use Rattle.cert_writing.specs.Cert.{IsShaped};
ghost use Rattle.cert_writing.specs.Views.{shown_claim, shown_node_proof, shown_cert};
ghost use Rattle.cert_writing.specs.Text.{field, line, kind_of, head_lines, plan_lines, claimed_plan_lines, part_fields, split_line, split_lines, proof_line};
ghost use Rattle.cert_writing.specs.Text.{proof_lines, gap_lines, number_lines, rest_lines, text_of};

use crate::certificate::{Certificate, Claim, NodeProof};
use crate::lines::{Fields, Line, write_counted, write_fields, write_line};
use crate::text::{Text, write_list, write_text};
use box_space::{Part, Proof, Split};
use edge_io::{Sink, WriteFault, write_whole};
use plan_core::WrittenPlan;

/// The line of a claim's kind.
fn write_kind<K: Sink>(out: &mut K, claim: &Claim) -> Result<(), WriteFault>
    ensures wrote { Wrote result (K.taken out.old) (line (codes "kind") (kind_of (shown_claim claim.now) ∷ [])) (K.taken out.new) }
    ensures failed { OnErr result (Rose (K.faults out.old) (K.faults out.new)) }
    ensures faults_grow { Grows (K.faults out.old) (K.faults out.new) }
{
    match claim {
        Claim::Gap { .. } => write_whole(out, b"kind gap\n"),
        Claim::Bound { .. } => write_whole(out, b"kind bound\n"),
        Claim::NoPlan => write_whole(out, b"kind none\n"),
    }
}

/// The first lines: what text this is, the kind of its claim, and the shape of the network.
fn write_head<K: Sink>(out: &mut K, cert: &Certificate) -> Result<(), WriteFault>
    ensures wrote { Wrote result (K.taken out.old) (head_lines (shown_cert cert.now)) (K.taken out.new) }
    ensures failed { OnErr result (Rose (K.faults out.old) (K.faults out.new)) }
    ensures faults_grow { Grows (K.faults out.old) (K.faults out.new) }
{
    write_whole(out, b"poolcert 1\n")?;
    write_kind(out, &cert.claim)?;
    write_line(out, b"shape", &cert.shape)
}

/// The lines of a plan.
fn write_plan<K: Sink>(out: &mut K, plan: &WrittenPlan) -> Result<(), WriteFault>
    ensures wrote { Wrote result (K.taken out.old) (plan_lines (shown_plan plan.now)) (K.taken out.new) }
    ensures failed { OnErr result (Rose (K.faults out.old) (K.faults out.new)) }
    ensures faults_grow { Grows (K.faults out.old) (K.faults out.new) }
{
    write_line(out, b"plan", &[plan.base, plan.flow_base])?;
    write_line(out, b"weights", plan.weights.as_slice())?;
    write_line(out, b"outflows", plan.outflows.as_slice())?;
    write_line(out, b"direct", plan.direct.as_slice())
}

/// The lines of the plan that is claimed, where there is one.
fn write_claimed_plan<K: Sink>(out: &mut K, claim: &Claim) -> Result<(), WriteFault>
    ensures wrote { Wrote result (K.taken out.old) (claimed_plan_lines (shown_claim claim.now)) (K.taken out.new) }
    ensures failed { OnErr result (Rose (K.faults out.old) (K.faults out.new)) }
    ensures faults_grow { Grows (K.faults out.old) (K.faults out.new) }
{
    match claim {
        Claim::Gap { plan, .. } => write_plan(out, plan),
        Claim::Bound { .. } | Claim::NoPlan => Ok(()),
    }
}

/// The line of a split.
impl Text for Split {
    ghost text = { λ s. split_line (shown_split s) };

    fn put<K: Sink>(&self, out: &mut K) -> Result<(), WriteFault> {
        let numbers = [i64::from(self.leaf), i64::from(self.coord), self.cut];
        let line = Line {
            word: b"split",
            numbers: &numbers,
        };
        line.put(out)
    }
}

/// The fields of a part: its row and its multiplier.
impl Text for Part {
    ghost text = { λ p. flat_map field (part_fields (shown_part p)) };

    fn put<K: Sink>(&self, out: &mut K) -> Result<(), WriteFault> {
        Fields(&[i64::from(self.row), self.mult]).put(out)
    }
}

/// The fields of a proof: its scale, how many parts it has, and these.
impl Text for Proof {
    ghost text = { λ p. flat_map field (decimal (shown_proof p).scale ∷ decimal (length (shown_proof p).parts) ∷ flat_map part_fields (shown_proof p).parts) };

    fn put<K: Sink>(&self, out: &mut K) -> Result<(), WriteFault> {
        let parts = self.parts.as_slice();
        write_fields(out, &[self.scale, parts.len() as u64])?;
        write_list(out, parts)
    }
}

/// The line of a node's proof.
impl Text for NodeProof {
    ghost text = { λ p. proof_line (shown_node_proof p) };

    fn put<K: Sink>(&self, out: &mut K) -> Result<(), WriteFault> {
        write_whole(out, b"proof")?;
        write_fields(out, &[self.node])?;
        self.proof.put(out)?;
        write_whole(out, b"\n")
    }

    fn parts(&self) -> usize {
        self.proof.parts.len()
    }
}

/// Writes the count of splits, and their lines.
pub fn write_splits<K: Sink>(out: &mut K, splits: &[Split]) -> Result<(), WriteFault>
    ensures wrote { Wrote result (K.taken out.old) (split_lines (map shown_split splits.now)) (K.taken out.new) }
    ensures failed { OnErr result (Rose (K.faults out.old) (K.faults out.new)) }
    ensures faults_grow { Grows (K.faults out.old) (K.faults out.new) }
{
    write_counted(out, b"splits", splits)
}

/// The count of the proofs, and their lines.
fn write_proofs<K: Sink>(out: &mut K, proofs: &[NodeProof]) -> Result<(), WriteFault>
    ensures wrote { Wrote result (K.taken out.old) (proof_lines (map shown_node_proof proofs.now)) (K.taken out.new) }
    ensures failed { OnErr result (Rose (K.faults out.old) (K.faults out.new)) }
    ensures faults_grow { Grows (K.faults out.old) (K.faults out.new) }
{
    write_counted(out, b"proofs", proofs)
}

/// The lines of a cost over a base, a bound, and their gap over that base.
fn write_gap<K: Sink>(
    out: &mut K,
    cost: i128,
    base: u64,
    bound: i128,
    gap: i128,
) -> Result<(), WriteFault>
    ensures wrote { Wrote result (K.taken out.old) (gap_lines cost base bound gap) (K.taken out.new) }
    ensures failed { OnErr result (Rose (K.faults out.old) (K.faults out.new)) }
    ensures faults_grow { Grows (K.faults out.old) (K.faults out.new) }
{
    write_line(out, b"cost", &[cost, i128::from(base)])?;
    write_line(out, b"bound", &[bound])?;
    write_line(out, b"gap", &[gap, i128::from(base)])
}

/// The lines of the numbers that are claimed.
fn write_numbers<K: Sink>(out: &mut K, claim: &Claim) -> Result<(), WriteFault>
    ensures wrote { Wrote result (K.taken out.old) (number_lines (shown_claim claim.now)) (K.taken out.new) }
    ensures failed { OnErr result (Rose (K.faults out.old) (K.faults out.new)) }
    ensures faults_grow { Grows (K.faults out.old) (K.faults out.new) }
{
    match claim {
        Claim::Gap {
            cost,
            base,
            bound,
            gap,
            ..
        } => write_gap(out, *cost, *base, *bound, *gap),
        Claim::Bound { bound } => write_line(out, b"bound", &[*bound]),
        Claim::NoPlan => Ok(()),
    }
}

/// The lines behind the plan: the tree, the numbers that are claimed, and the end.
fn write_rest<K: Sink>(out: &mut K, cert: &Certificate) -> Result<(), WriteFault>
    ensures wrote { Wrote result (K.taken out.old) (rest_lines (shown_cert cert.now)) (K.taken out.new) }
    ensures failed { OnErr result (Rose (K.faults out.old) (K.faults out.new)) }
    ensures faults_grow { Grows (K.faults out.old) (K.faults out.new) }
{
    write_splits(out, cert.splits.as_slice())?;
    write_proofs(out, cert.proofs.as_slice())?;
    write_numbers(out, &cert.claim)?;
    write_whole(out, b"end\n")
}

/// Writes the text of a certificate. It takes no memory.
///
/// `WriteFault` comes only where the sink's count of faults rose; the sink has taken a front of the text then.
pub fn write_cert<K: Sink>(cert: &Certificate, out: &mut K) -> Result<(), WriteFault>
    requires { IsShaped (shown_cert cert.now) }
    // Promise: A certificate is written as its text, or a front of it where the sink fails
    ensures wrote { Wrote result (K.taken out.old) (text_of (shown_cert cert.now)) (K.taken out.new) }
    ensures failed { OnErr result (Rose (K.faults out.old) (K.faults out.new)) }
    ensures faults_grow { Grows (K.faults out.old) (K.faults out.new) }
{
    write_text(out, cert)
}

/// The whole text of a certificate.
impl Text for Certificate {
    ghost text = { λ c. text_of (shown_cert c) };

    fn put<K: Sink>(&self, out: &mut K) -> Result<(), WriteFault> {
        write_head(out, self)?;
        write_claimed_plan(out, &self.claim)?;
        write_rest(out, self)
    }
}
