//! The nodes of a tree, judged one after another.

ghost use Rattle.std.specs.Prelude.{◌≡◌, ◌<◌, ◌≤◌, ◌-◌, ◌/◌, [], List, length, get_or, None, Some, IfOk, OnOk};
ghost use Rattle.pool_model.specs.Network.{Net, net_of};
ghost use Rattle.pool_model.specs.Starting.{reach_bound};
ghost use Rattle.row_model.specs.Trees.{nodes, split_at};
ghost use Rattle.row_book.specs.Fitting.{Fits};
ghost use Rattle.split_tree.specs.Splits.{IsOf};
ghost use Rattle.cert_format.specs.Cert.{NodeProof};
ghost use Rattle.cert_format.specs.Valid.{IsRising};
ghost use Rattle.proof_lines.specs.Judging.{AreJudged};
ghost use Rattle.proof_lines.specs.Lines.{IsAdded};
ghost use Rattle.proof_lines.specs.Refusals.{node_at};

use blend_network::Network;
use bounds::raised;
use edge_io::Memory;
use row_book::{Scratch, Shown};
use split_tree::SplitTree;
use std::alloc::{AllocFailed, Global};

/// The bounds of the nodes so far, and how many proof lines name them.
#[derive(Drop)]
pub(crate) struct Judge {
    /// Of each node, in picos: None where it holds no plan.
    pub(crate) bounds: Vec<Option<i128>>,
    pub(crate) next: usize,
    pub(crate) scratch: Scratch,
}

impl Judge {
    /// Before the first node.
    pub(crate) fn new(alloc: Global, net: &Network) -> Result<Judge, Memory>
        ensures none { IfOk result (λ j. j.bounds.items ≡ []) }
        ensures unread { IfOk result (λ j. j.next ≡ 0) }
        ensures fits { IfOk result (λ j. Fits (net_of net.now) j.scratch) }
    {
        Ok(Judge {
            bounds: Vec::new(alloc),
            next: 0,
            scratch: Scratch::new(alloc, net)?,
        })
    }

    /// The bounds of the nodes before this one that have none yet: no proof stands on them.
    pub(crate) fn go_on(
        &mut self,
        tree: &SplitTree,
        reach: i128,
        node: u32,
    ) -> Result<(), AllocFailed<Option<i128>>>
        requires tree { (n : Net) × IsOf n tree.now }
        requires there { node ≤ nodes tree.now.list }
        requires before { length self.old.bounds.items ≤ node }
        ensures long { OnOk result (length self.new.bounds.items ≡ node) }
        ensures judged { (n : Net) (all : List NodeProof) → IsOf n tree.now → reach ≡ reach_bound n → IsRising all → AreJudged n tree.now.list all (length self.old.bounds.items) self.old
            → (self.old.next < length all → node ≤ node_at all self.old.next) → OnOk result (AreJudged n tree.now.list all node self.new) }
        ensures next { self.new.next ≡ self.old.next }
        ensures scratch { self.new.scratch ≡ self.old.scratch }
    {
        for at in self.bounds.len() as u32..node {
            self.add(tree, reach, at, None)?;
        }
        Ok(())
    }

    /// The bound of the next node, from that of the node above it and from what its own proof shows.
    pub(crate) fn add(
        &mut self,
        tree: &SplitTree,
        reach: i128,
        node: u32,
        shown: Option<Shown>,
    ) -> Result<(), AllocFailed<Option<i128>>>
        requires tree { (n : Net) × IsOf n tree.now }
        requires there { node < nodes tree.now.list }
        requires next { length self.old.bounds.items ≡ node }
        ensures added { OnOk result (IsAdded tree.now.list reach shown self.old self.new) }
        ensures next { self.new.next ≡ self.old.next }
        ensures scratch { self.new.scratch ≡ self.old.scratch }
    {
        let above = self.above(tree, reach, node);
        self.bounds.push(raised(above, shown))
    }

    /// The bound of the node above, and for the root the reach bound.
    fn above(&self, tree: &SplitTree, reach: i128, node: u32) -> Option<i128>
        requires there { node < nodes tree.now.list }
        requires long { 0 < node → (split_at tree.now.list ((node - 1) / 2)).leaf < length self.now.bounds.items }
        ensures root { node ≡ 0 → result ≡ Some reach }
        ensures child { 0 < node → result ≡ get_or self.now.bounds.items (split_at tree.now.list ((node - 1) / 2)).leaf None }
    {
        if node == 0 {
            Some(reach)
        } else {
            let split = tree.splits()[(node as usize - 1) / 2];
            self.bounds.as_slice()[split.leaf as usize]
        }
    }
}
