//! The marks of leaves, judged one after another.

ghost use Rattle.std.specs.Prelude.{◌≡◌, ◌<◌, All, Some, IfOk, IfErr};
ghost use Rattle.pool_model.specs.Network.{net_of};
ghost use Rattle.row_model.specs.Trees as trees;
ghost use Rattle.row_model.specs.Trees.{Tree};
ghost use Rattle.leaf_marks.specs.Marks.{IsMark};
ghost use Rattle.certificate_leaves.specs.Found.{IsOf};
ghost use Rattle.tight_checks.specs.Holding.{IsMarkedBound, LineHolds, bound_with, leaf_nodes, nodes_of};
ghost use Rattle.tight_checks.specs.Judging.{AreFoundOf, HasRoom, IsFirstBad};
ghost use Rattle.tight_checks.specs.declared.refusal.TightRefusal.TheVariants as refusals;

use crate::holding::mark_holds;
use crate::left::bound_left;
use crate::refusal::TightRefusal;
use blend_network::Network;
use bounds::lesser_bound;
use box_space::{BoxEnds, LinRow, root_box};
use certificate_leaves::CertificateLeaves;
use edge_io::Memory;
use leaf_marks::Mark;
use leaf_order::OpenLeaf;
use row_book::Scratch;
use std::alloc::Global;
use tight_texts::TightText;

/// The room in which marks are judged, which is taken once.
#[derive(Drop)]
pub(crate) struct MarkJudge {
    ends: BoxEnds,
    scratch: Scratch,
    row: LinRow,
}

impl MarkJudge {
    pub(crate) fn new(alloc: Global, net: &Network) -> Result<MarkJudge, Memory>
        ensures { IfOk result (HasRoom (net_of net.now)) }
    {
        Ok(MarkJudge {
            ends: root_box(alloc, net)?,
            scratch: Scratch::new(alloc, net)?,
            row: LinRow::new(alloc)?,
        })
    }

    /// The least bound that the marks of these leaves leave, or the first leaf whose mark doesn't hold.
    pub(crate) fn least_bound(
        &mut self,
        net: &Network,
        found: &CertificateLeaves,
        text: &TightText,
    ) -> Result<Option<i128>, TightRefusal>
        requires of { IsOf (net_of net.now) found.now }
        requires found { (tree : Tree) × AreFoundOf (net_of net.now) tree found.now }
        requires room { HasRoom (net_of net.now) self.old }
        requires named { nodes_of text.now.marks.items ≡ leaf_nodes found.now.leaves }
        ensures marks { (tree : Tree) → AreFoundOf (net_of net.now) tree found.now
            → IfOk result (λ _. All (LineHolds (net_of net.now) tree text.now.form text.now.pivots) text.now.marks.items) }
        ensures bound { (tree : Tree) → AreFoundOf (net_of net.now) tree found.now → IfOk result (IsMarkedBound (net_of net.now) tree text.now.marks.items) }
        ensures bad { (tree : Tree) → AreFoundOf (net_of net.now) tree found.now → IfErr result (IsFirstBad (net_of net.now) tree text.now) }
    {
        let leaves = found.leaves();
        let lines = text.marks.as_slice();
        let mut least = None;
        for i in 0..lines.len() {
            let left = self.judge(net, found, text, leaves[i], &lines[i].mark)?;
            least = lesser_bound(least, left);
        }
        Ok(least)
    }

    /// The bound that the mark of a leaf leaves, or the leaf whose mark doesn't hold.
    fn judge(
        &mut self,
        net: &Network,
        found: &CertificateLeaves,
        text: &TightText,
        leaf: OpenLeaf,
        mark: &Mark,
    ) -> Result<Option<i128>, TightRefusal>
        requires of { IsOf (net_of net.now) found.now }
        requires there { leaf.node < trees.nodes found.now.splits.list }
        requires room { HasRoom (net_of net.now) self.old }
        ensures holds { IfOk result (λ _. IsMark (net_of net.now) text.now.form (trees.box_of (net_of net.now) found.now.splits.list leaf.node) leaf.bound text.now.pivots mark.now) }
        ensures left { IfOk result (λ left. left ≡ bound_with (net_of net.now) (trees.box_of (net_of net.now) found.now.splits.list leaf.node) (Some leaf.bound) mark.now) }
        ensures named { IfErr result (λ r. r ≡ refusals.BadMark leaf.node) }
        ensures wrong { IfErr result (λ _. ¬ IsMark (net_of net.now) text.now.form (trees.box_of (net_of net.now) found.now.splits.list leaf.node) leaf.bound text.now.pivots mark.now) }
        ensures room { HasRoom (net_of net.now) self.new }
    {
        found.write_box(net, leaf.node, &mut self.ends);
        let v = self.ends.view();
        if mark_holds(
            net,
            text.form,
            &v,
            leaf.bound,
            text.pivots,
            mark,
            &mut self.scratch,
            &mut self.row,
        ) {
            Ok(bound_left(net, &v, leaf.bound, mark, &mut self.scratch))
        } else {
            Err(TightRefusal::BadMark(leaf.node))
        }
    }
}
