//! The bounds of a tree's nodes, from the proofs on them.

ghost use Rattle.std.specs.Prelude.{◌≡◌, ◌≢◌, ◌<◌, ◌+◌, ◌-◌, ◌/◌, List, length, get_or, map, option_map, None, Some, IfOk, IfNone, IfSome, OnOk};
ghost use Rattle.pool_model.specs.Network.{IsLimited, Net, net_of};
ghost use Rattle.pool_model.specs.Starting.{reach_bound};
ghost use Rattle.row_model.specs.Boxes.{coords};
ghost use Rattle.row_model.specs.Multipliers.{IsInOrder, shown_by};
ghost use Rattle.row_model.specs.Trees.{Split as ASplit, box_of, nodes, own, split_at};
ghost use Rattle.row_book.specs.Fitting.{Fits};
ghost use Rattle.row_book.specs.Views.{shown_value};
ghost use Rattle.split_tree.specs.Splits.{IsOf};
ghost use Rattle.box_space.specs.Views.{AreRoot, shown_proof};
ghost use Rattle.cert_format.specs.Cert.{NodeProof as ALine};
ghost use Rattle.cert_format.specs.Views.{shown_node_proof};
ghost use Rattle.proof_lines.specs.Judging.{IsNext};
ghost use Rattle.proof_lines.specs.Refusals.{node_at};
ghost use Rattle.proof_lines.specs.Trees.{AreBounds, tree_with};
ghost use Rattle.certificate_leaves.specs.Nodes.{AreInOrder, IsAt, IsNamed};

use crate::boxes::write_ends;
use blend_network::Network;
use bounds::{raised, value_in};
use box_space::{BoxEnds, Proof, root_box};
use cert_format::NodeProof;
use edge_io::Memory;
use row_book::{Scratch, Shown};
use split_tree::SplitTree;
use std::alloc::{AllocFailed, Global};

/// The bounds of the nodes so far, and how many proofs name them.
#[derive(Drop)]
struct NodeWalk {
    /// Of each node, in picos: None where it holds no plan.
    bounds: Vec<Option<i128>>,
    next: usize,
    scratch: Scratch,
    /// Room for the box of a node.
    ends: BoxEnds,
}

/// The bound of each node of a tree, in picos; None where it holds no plan.
pub(crate) fn node_bounds(
    alloc: Global,
    net: &Network,
    tree: &SplitTree,
    root: &BoxEnds,
    proofs: &[NodeProof],
) -> Result<Vec<Option<i128>>, Memory>
    requires { AreInOrder (net_of net.now) tree.now root.now (map shown_node_proof proofs.now) }
    ensures { IfOk result (λ v. AreBounds (net_of net.now) (tree_with tree.now.list (map shown_node_proof proofs.now)) v.items) }
{
    let reach = net.reach_bound();
    let mut walk = NodeWalk::new(alloc, net)?;
    for node in 0..node_count(tree) {
        walk.add(net, tree, root, reach, proofs, node)?;
    }
    Ok(walk.bounds)
}

/// How many nodes the tree of a network's splits has.
fn node_count(tree: &SplitTree) -> u32
    requires { (n : Net) × IsOf n tree.now }
    ensures { result ≡ nodes tree.now.list }
{
    2 * tree.len() as u32 + 1
}

/// The next proof, where it is on this node.
fn next_proof(proofs: &[NodeProof], next: usize, node: u32) -> Option<&Proof>
    ensures named { IfSome result (λ p. IsNamed (map shown_node_proof proofs.now) next node (shown_proof p.now)) }
    ensures unnamed { IfNone result (next < length proofs.now → node_at (map shown_node_proof proofs.now) next ≢ node) }
{
    match proofs.get(next) {
        None => None,
        Some(line) => {
            if line.node == node {
                Some(&line.proof)
            } else {
                None
            }
        }
    }
}

impl NodeWalk {
    /// Before the first node.
    fn new(alloc: Global, net: &Network) -> Result<NodeWalk, Memory>
        ensures { (splits : List ASplit) (lines : List ALine) → IfOk result (IsAt (net_of net.now) splits lines 0) }
    {
        Ok(NodeWalk {
            bounds: Vec::new(alloc),
            next: 0,
            scratch: Scratch::new(alloc, net)?,
            ends: root_box(alloc, net)?,
        })
    }

    /// The bound of the next node, from that of the node above it and from what its own proof shows.
    fn add(
        &mut self,
        net: &Network,
        tree: &SplitTree,
        root: &BoxEnds,
        reach: i128,
        proofs: &[NodeProof],
        node: u32,
    ) -> Result<(), AllocFailed<Option<i128>>>
        requires order { AreInOrder (net_of net.now) tree.now root.now (map shown_node_proof proofs.now) }
        requires reach { reach ≡ reach_bound (net_of net.now) }
        requires there { node < nodes tree.now.list }
        requires at { IsAt (net_of net.now) tree.now.list (map shown_node_proof proofs.now) node self.old }
        ensures { OnOk result (IsAt (net_of net.now) tree.now.list (map shown_node_proof proofs.now) (node + 1) self.new) }
    {
        let above = self.above(tree, reach, node);
        let shown = self.shown(net, tree, root, proofs, node);
        self.bounds.push(raised(above, shown))?;
        Ok(())
    }

    /// The bound of the node above, and for the root the reach bound.
    fn above(&self, tree: &SplitTree, reach: i128, node: u32) -> Option<i128>
        requires there { node < nodes tree.now.list }
        requires long { 0 < node → (split_at tree.now.list ((node - 1) / 2)).leaf < length self.now.bounds.items }
        ensures root { node ≡ 0 → result ≡ Some reach }
        ensures child { 0 < node → result ≡ get_or self.now.bounds.items (split_at tree.now.list ((node - 1) / 2)).leaf None }
    {
        if node == 0 {
            Some(reach)
        } else {
            let split = tree.splits()[(node as usize - 1) / 2];
            self.bounds.as_slice()[split.leaf as usize]
        }
    }

    /// What the proof of the next node shows in the node's box, where it has one.
    fn shown(
        &mut self,
        net: &Network,
        tree: &SplitTree,
        root: &BoxEnds,
        proofs: &[NodeProof],
        node: u32,
    ) -> Option<Shown>
        requires order { AreInOrder (net_of net.now) tree.now root.now (map shown_node_proof proofs.now) }
        requires there { node < nodes tree.now.list }
        requires at { IsAt (net_of net.now) tree.now.list (map shown_node_proof proofs.now) node self.old }
        ensures own { option_map shown_value result ≡ own (net_of net.now) (tree_with tree.now.list (map shown_node_proof proofs.now)) node }
        ensures next { IsNext (map shown_node_proof proofs.now) (node + 1) self.new.next }
        ensures bounds { self.new.bounds ≡ self.old.bounds }
        ensures fits { Fits (net_of net.now) self.new.scratch }
        ensures lows { length self.new.ends.low.items ≡ coords (net_of net.now) }
        ensures highs { length self.new.ends.high.items ≡ coords (net_of net.now) }
    {
        match next_proof(proofs, self.next, node) {
            None => None,
            Some(proof) => {
                self.next += 1;
                Some(self.value(net, tree, root, node, proof))
            }
        }
    }

    /// What a proof that is in order shows in the box of a node.
    fn value(
        &mut self,
        net: &Network,
        tree: &SplitTree,
        root: &BoxEnds,
        node: u32,
        proof: &Proof,
    ) -> Shown
        requires limited { IsLimited (net_of net.now) }
        requires tree { IsOf (net_of net.now) tree.now }
        requires root { AreRoot (net_of net.now) root.now }
        requires there { node < nodes tree.now.list }
        requires order { IsInOrder (net_of net.now) (box_of (net_of net.now) tree.now.list node) (shown_proof proof.now) }
        requires fits { Fits (net_of net.now) self.old.scratch }
        requires lows { length self.old.ends.low.items ≡ coords (net_of net.now) }
        requires highs { length self.old.ends.high.items ≡ coords (net_of net.now) }
        ensures shown { shown_value result ≡ shown_by (net_of net.now) (box_of (net_of net.now) tree.now.list node) (shown_proof proof.now) }
        ensures fits { Fits (net_of net.now) self.new.scratch }
        ensures bounds { self.new.bounds ≡ self.old.bounds }
        ensures next { self.new.next ≡ self.old.next }
        ensures lows { length self.new.ends.low.items ≡ coords (net_of net.now) }
        ensures highs { length self.new.ends.high.items ≡ coords (net_of net.now) }
    {
        write_ends(net, tree, root, node, &mut self.ends);
        value_in(net, &self.ends, proof, &mut self.scratch).unwrap()
    }
}
