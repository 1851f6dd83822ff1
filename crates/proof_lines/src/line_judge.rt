//! The proofs of a tree's nodes, each judged as its line is read.

ghost use Rattle.std.specs.Prelude.{◌≡◌, ◌<◌, ◌≤◌, ◌+◌, ◌-◌, ◌^◌, ◌↔◌, [], ◌∷◌, ◌++◌, ℕ, List, length, vec_len, vec_capacity, IsTrue, IfOk, IfErr, OnOk};
ghost use Rattle.pool_model.specs.Network.{Net, net_of};
ghost use Rattle.pool_model.specs.Starting.{reach_bound};
ghost use Rattle.row_model.specs.Trees as trees;
ghost use Rattle.row_model.specs.Trees.{Split, nodes, box_of};
ghost use Rattle.row_model.specs.Multipliers.{Proof as AProof};
ghost use Rattle.row_book.specs.Fitting.{Fits};
ghost use Rattle.split_tree.specs.Splits.{IsOf};
ghost use Rattle.cert_format.specs.declared.reading.Kind.{Kind as AKind};
ghost use Rattle.cert_format.specs.Cert.{NodeProof as ALine};
ghost use Rattle.cert_stream.specs.Items.{proofs_left, parts_left, claim_state};
ghost use Rattle.proof_lines.specs.Lines.{AreLinesTaken, TakesNext, IsKept, ReadsParts, SkipsParts, HasRoom, TakesLine, ArePlacedTo, ReadsPlaces, ShowsIn};
ghost use Rattle.proof_lines.specs.Parts.{Takes, IsLineList, IsWrongLineList};
ghost use Rattle.proof_lines.specs.Runs.{Moment, moment, IsReady};
ghost use Rattle.proof_lines.specs.declared.refusal.Refusal.TheVariants as refusals;
ghost use Rattle.proof_lines.specs.declared.stream_refusal.StreamRefusal.TheVariants as streams;

use crate::judge::Judge;
use crate::refusal::Refusal;
use crate::steps::{LineHead, head, part};
use crate::stream_refusal::StreamRefusal;
use blend_network::Network;
use bounds::value_in;
use box_space::{BoxEnds, Part, Proof, root_box};
use cert_stream::{CertReader, ItemFault};
use row_book::{ProofFault, Shown, rows};
use shelf_calls::Shelf;
use split_tree::SplitTree;
use std::alloc::Global;

/// The nodes that are judged, and the room in which a proof is judged, which is taken once.
#[derive(Drop)]
struct LineJudge {
    judge: Judge,
    root: BoxEnds,
    ends: BoxEnds,
    /// The parts of the line that is read, at most as many as the network has rows.
    proof: Proof,
    rows: u32,
}

/// The bound of each node, from the lines of so many proofs and from the bounds of the nodes above.
///
/// Else a line whose place is wrong, and where there is none the first node whose proof is not in order.
pub(crate) fn node_bounds<S: Shelf>(
    alloc: Global,
    net: &Network,
    tree: &SplitTree,
    reach: i128,
    count: u32,
    reader: &mut CertReader,
    shelf: &mut S,
) -> Result<Vec<Option<i128>>, StreamRefusal>
    requires tree { IsOf (net_of net.now) tree.now }
    requires reach { reach ≡ reach_bound (net_of net.now) }
    requires asks { (k : AKind) × IsReady (moment reader.old (S.told shelf.old)) (proofs_left k count) }
    ensures { (k : AKind) → reader.old.state ≡ proofs_left k count →
        Takes (λ v. IsLineList (net_of net.now) tree.now.list k count v.items) (IsWrongLineList (net_of net.now) tree.now.list count)
        (moment reader.old (S.told shelf.old)) (moment reader.new (S.told shelf.new)) result }
{
    let mut judge = LineJudge::new(alloc, net)?;
    let mut least = 0;
    for k in 0..count {
        least = judge.next_line(net, tree, reach, k, count, least, reader, shelf)?;
    }
    judge.judge.go_on(tree, reach, node_count(tree))?;
    Ok(judge.judge.bounds)
}

/// How many nodes the tree of a network's splits has.
fn node_count(tree: &SplitTree) -> u32
    requires { (n : Net) × IsOf n tree.now }
    ensures { result ≡ nodes tree.now.list }
{
    2 * tree.len() as u32 + 1
}

/// The least node that the next line may name, or the place of this line is wrong.
fn behind(node: u32, k: u32, least: u32, count: u32) -> Result<u32, Refusal>
    ensures placed { IfOk result (λ _. (least ≤ node) × (node < count)) }
    ensures next { IfOk result (λ m. m ≡ node + 1) }
    ensures place { IfErr result (λ r. r ≡ refusals.ProofPlace k) }
    ensures wrong { IfErr result (λ _. ¬ ((least ≤ node) × (node < count))) }
{
    if node < least || count <= node {
        Err(Refusal::ProofPlace(k))
    } else {
        Ok(node + 1)
    }
}

/// The lines from this number on are read for their places alone.
fn check_places<S: Shelf>(
    first: u32,
    count: u32,
    least: u32,
    nodes: u32,
    reader: &mut CertReader,
    shelf: &mut S,
) -> Result<(), StreamRefusal>
    requires nodes { (list : List Split) × (nodes ≡ trees.nodes list) }
    requires order { first ≤ count }
    requires asks { (kind : AKind) × IsReady (moment reader.old (S.told shelf.old)) (proofs_left kind (count - first)) }
    ensures { (kind : AKind) (list : List Split) (before : List ALine) → reader.old.state ≡ proofs_left kind (count - first) → nodes ≡ trees.nodes list
        → length before ≡ first → ArePlacedTo list before least → ReadsPlaces list count (claim_state kind) before (moment reader.old (S.told shelf.old))
        (moment reader.new (S.told shelf.new)) result }
{
    let mut least = least;
    for k in first..count {
        let line = head(reader, shelf)?;
        least = behind(line.node, k, least, nodes)?;
        skip_parts(line.count, reader, shelf)?;
    }
    Ok(())
}

/// So many parts are read, and none is kept.
fn skip_parts<S: Shelf>(count: u32, reader: &mut CertReader, shelf: &mut S) -> Result<(), ItemFault>
    requires asks { (kind : AKind) × (behind : ℕ) × IsReady (moment reader.old (S.told shelf.old)) (parts_left kind count behind) }
    ensures { (kind : AKind) (behind : ℕ) → reader.old.state ≡ parts_left kind count behind
        → SkipsParts count (proofs_left kind behind) (moment reader.old (S.told shelf.old)) (moment reader.new (S.told shelf.new)) result }
{
    for _ in 0..count {
        part(reader, shelf)?;
    }
    Ok(())
}

impl LineJudge {
    /// Before the first line.
    fn new(alloc: Global, net: &Network) -> Result<LineJudge, StreamRefusal>
        ensures room { IfOk result (HasRoom (net_of net.now)) }
        ensures none { IfOk result (λ j. j.judge.bounds.items ≡ []) }
        ensures unread { IfOk result (λ j. j.judge.next ≡ 0) }
        ensures fits { IfOk result (λ j. Fits (net_of net.now) j.judge.scratch) }
        ensures memory { IfErr result (λ r. r ≡ streams.Memory) }
    {
        let rows = rows(net);
        let proof = Proof {
            scale: 0,
            parts: Vec::with_capacity(alloc, rows as usize)?,
        };
        Ok(LineJudge {
            judge: Judge::new(alloc, net)?,
            root: root_box(alloc, net)?,
            ends: root_box(alloc, net)?,
            proof,
            rows,
        })
    }

    /// Reads the next line and judges it with the nodes before its own. What it answers is the least node that the line behind
    /// it may name.
    ///
    /// Where the line's proof is not in order, the lines behind it are read for their places: a wrong place goes before it.
    fn next_line<S: Shelf>(
        &mut self,
        net: &Network,
        tree: &SplitTree,
        reach: i128,
        k: u32,
        count: u32,
        least: u32,
        reader: &mut CertReader,
        shelf: &mut S,
    ) -> Result<u32, StreamRefusal>
        requires tree { IsOf (net_of net.now) tree.now }
        requires reach { reach ≡ reach_bound (net_of net.now) }
        requires there { k < count }
        requires bounds { length self.old.judge.bounds.items ≡ least }
        requires next { self.old.judge.next ≡ k }
        requires room { HasRoom (net_of net.now) self.old }
        requires fits { Fits (net_of net.now) self.old.judge.scratch }
        requires asks { (kind : AKind) × IsReady (moment reader.old (S.told shelf.old)) (proofs_left kind (count - k)) }
        ensures taken { (kind : AKind) (m : Moment) → AreLinesTaken (net_of net.now) tree.now.list kind m (moment reader.old (S.told shelf.old)) count k least self.old.judge
            → TakesNext (net_of net.now) tree.now.list kind m (moment reader.new (S.told shelf.new)) count (k + 1) self.new.judge result }
        ensures bounds { IfOk result (λ x. length self.new.judge.bounds.items ≡ x) }
        ensures known { IfOk result (λ x. x ≤ nodes tree.now.list) }
        ensures next { OnOk result (self.new.judge.next ≡ k + 1) }
        ensures room { OnOk result (HasRoom (net_of net.now) self.new) }
        ensures fits { OnOk result (Fits (net_of net.now) self.new.judge.scratch) }
    {
        let nodes = node_count(tree);
        let line = head(reader, shelf)?;
        let least = behind(line.node, k, least, nodes)?;
        let excess = self.read_parts(line, reader, shelf)?;
        if let Err(refusal) = self.take(net, tree, reach, line.node, excess) {
            check_places(k + 1, count, least, nodes, reader, shelf)?;
            return Err(StreamRefusal::from(refusal));
        }
        Ok(least)
    }

    /// Reads the parts of a line, and keeps those that a proof in order may have. Where there are more, either their rows don't
    /// rise, or one is no row.
    fn read_parts<S: Shelf>(
        &mut self,
        line: LineHead,
        reader: &mut CertReader,
        shelf: &mut S,
    ) -> Result<Option<ProofFault>, ItemFault>
        requires room { self.old.rows ≤ vec_capacity self.old.proof.parts }
        requires asks { (kind : AKind) × (behind : ℕ) × IsReady (moment reader.old (S.told shelf.old)) (parts_left kind line.count behind) }
        ensures read { (kind : AKind) (behind : ℕ) → reader.old.state ≡ parts_left kind line.count behind
            → ReadsParts line.count line.scale (proofs_left kind behind) self.old.rows (moment reader.old (S.told shelf.old))
            (moment reader.new (S.told shelf.new)) self.new.proof result }
        ensures judge { self.new.judge ≡ self.old.judge }
        ensures same_root { self.new.root ≡ self.old.root }
        ensures ends { self.new.ends ≡ self.old.ends }
        ensures rows { self.new.rows ≡ self.old.rows }
        ensures capacity { vec_capacity self.new.proof.parts ≡ vec_capacity self.old.proof.parts }
    {
        self.proof.scale = line.scale;
        self.proof.parts.clear();
        let mut rise = true;
        let mut least = 0;
        for i in 0..line.count {
            let part = part(reader, shelf)?;
            rise = goes_on(rise, part.row, least);
            least = u64::from(part.row) + 1;
            self.keep(i, part);
        }
        Ok(if line.count <= self.rows {
            None
        } else if rise {
            Some(ProofFault::UnknownRow)
        } else {
            Some(ProofFault::Order)
        })
    }

    /// Keeps a part of this number, where a proof in order may have so many.
    fn keep(&mut self, number: u32, part: Part)
        requires room { number < self.old.rows → vec_len self.old.proof.parts < vec_capacity self.old.proof.parts }
        ensures kept { number < self.old.rows → self.new.proof.parts.items ≡ self.old.proof.parts.items ++ part ∷ [] }
        ensures past { self.old.rows ≤ number → self.new.proof.parts.items ≡ self.old.proof.parts.items }
        ensures scale { self.new.proof.scale ≡ self.old.proof.scale }
        ensures capacity { vec_capacity self.new.proof.parts ≡ vec_capacity self.old.proof.parts }
        ensures judge { self.new.judge ≡ self.old.judge }
        ensures same_root { self.new.root ≡ self.old.root }
        ensures ends { self.new.ends ≡ self.old.ends }
        ensures rows { self.new.rows ≡ self.old.rows }
    {
        if number < self.rows {
            self.proof.parts.push_reserved(part);
        }
    }

    /// The next line's proof is judged, and the bounds of the nodes up to the line's are added; or the proof is not in order.
    fn take(
        &mut self,
        net: &Network,
        tree: &SplitTree,
        reach: i128,
        node: u32,
        excess: Option<ProofFault>,
    ) -> Result<(), Refusal>
        requires tree { IsOf (net_of net.now) tree.now }
        requires reach { reach ≡ reach_bound (net_of net.now) }
        requires there { node < nodes tree.now.list }
        requires before { length self.old.judge.bounds.items ≤ node }
        requires few { self.old.judge.next < 2 ^ 32 }
        requires room { HasRoom (net_of net.now) self.old }
        requires fits { Fits (net_of net.now) self.old.judge.scratch }
        ensures taken { TakesLine (net_of net.now) tree.now.list node excess self.old self.new result }
        ensures long { OnOk result (length self.new.judge.bounds.items ≡ node + 1) }
        ensures next { OnOk result (self.new.judge.next ≡ self.old.judge.next + 1) }
        ensures room { HasRoom (net_of net.now) self.new }
        ensures fits { Fits (net_of net.now) self.new.judge.scratch }
    {
        self.judge.go_on(tree, reach, node)?;
        let shown = self.value(net, tree, node, excess)?;
        self.judge.add(tree, reach, node, Some(shown))?;
        self.judge.next += 1;
        Ok(())
    }

    /// What the proof that was read shows in its node's box, or its first fault there.
    fn value(
        &mut self,
        net: &Network,
        tree: &SplitTree,
        node: u32,
        excess: Option<ProofFault>,
    ) -> Result<Shown, Refusal>
        requires tree { IsOf (net_of net.now) tree.now }
        requires there { node < nodes tree.now.list }
        requires room { HasRoom (net_of net.now) self.old }
        requires fits { Fits (net_of net.now) self.old.judge.scratch }
        ensures shown { (proof : AProof) → IsKept (net_of net.now) proof self.old.proof excess → ShowsIn (net_of net.now) (box_of (net_of net.now) tree.now.list node) node proof result }
        ensures room { HasRoom (net_of net.now) self.new }
        ensures bounds { self.new.judge.bounds ≡ self.old.judge.bounds }
        ensures next { self.new.judge.next ≡ self.old.judge.next }
        ensures fits { Fits (net_of net.now) self.new.judge.scratch }
    {
        if let Some(fault) = excess {
            return Err(Refusal::Proof(node, fault));
        }
        copy_ends(&self.root, &mut self.ends);
        tree.narrow(net, node, &mut self.ends);
        match value_in(net, &self.ends, &self.proof, &mut self.judge.scratch) {
            Ok(shown) => Ok(shown),
            Err(fault) => Err(Refusal::Proof(node, fault)),
        }
    }
}

/// Whether rows that rise so far go on to rise, where the next is to be at least so much.
fn goes_on(rise: bool, row: u32, least: u64) -> bool
    ensures { IsTrue result ↔ (IsTrue rise × (least ≤ row)) }
{
    rise && u64::from(row) >= least
}

/// The ends of one box become those of the other.
fn copy_ends(from: &BoxEnds, to: &mut BoxEnds)
    requires lows { length from.now.low.items ≡ length to.old.low.items }
    requires highs { length from.now.high.items ≡ length to.old.high.items }
    ensures lows { to.new.low.items ≡ from.now.low.items }
    ensures highs { to.new.high.items ≡ from.now.high.items }
{
    to.low.as_mut_slice().copy_from_slice(from.low.as_slice());
    to.high.as_mut_slice().copy_from_slice(from.high.as_slice());
}
