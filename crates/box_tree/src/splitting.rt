//! Splits of leaves.

ghost use Rattle.std.specs.Prelude.{◌≡◌, ◌≢◌, ◌<◌, ◌≤◌, ◌↔◌, ℕ, false, get_or, IfOk, IfErr, length, option_map};
ghost use Rattle.std.specs.List.{Contains};
ghost use Rattle.std.specs.Option.{ForSome};
ghost use Rattle.leaf_order.specs.Order.{ArePut};
ghost use Rattle.leaf_order.specs.declared.leaf.OpenLeaf.{OpenLeaf};
ghost use Rattle.pool_model.specs.Network.{Net, net_of};
ghost use Rattle.row_model.specs.Multipliers as multipliers;
ghost use Rattle.row_model.specs.Trees as trees;
ghost use Rattle.row_model.specs.Entries.{split_of};
ghost use Rattle.box_space.specs.Views.{shown_proof, shown_split, AreEndsOf};
ghost use Rattle.row_book.specs.Fitting.{Fits};
ghost use Rattle.row_book.specs.Views as results;
ghost use Rattle.box_tree.specs.EntryFaults.{IsFirstFault, IsBadProof};
ghost use Rattle.box_tree.specs.Kept.{searched_of, IsOf};
ghost use Rattle.split_tree.specs.Faults as splits;
ghost use Rattle.split_tree.specs.Spans.{half_at, CutsBetween};
ghost use Rattle.split_tree.specs.Splits.{IsOf as AreCut, MayCome, with_split};
ghost use Rattle.box_tree.specs.Taken.{IsTaken, counted, grown};

use crate::entry::EntryFault;
use crate::leaves::open_leaf;
use crate::tree::Tree;
use blend_network::Network;
use bounds::{raised, value_in};
use box_space::{Proof, Split};
use leaf_order::{LeafOrder, OpenLeaf};
use row_book::Shown;
use split_tree::{Side, Span, SplitFault, SplitTree};
use std::alloc::AllocError;

/// A new node: its proof and its bound.
#[derive(Drop)]
struct Child {
    proof: Option<Proof>,
    bound: Option<i128>,
}

impl Tree {
    /// Takes a split of a leaf, with the proofs of its halves.
    pub(crate) fn split(
        &mut self,
        net: &Network,
        split: Split,
        left: Option<Proof>,
        right: Option<Proof>,
    ) -> Result<(), EntryFault>
        requires { IsOf (net_of net.now) self.old }
        ensures taken { IfOk result (λ _. IsTaken (net_of net.now) (split_of (shown_split split) (option_map shown_proof left) (option_map shown_proof right)) self.old.kept self.new.kept) }
        ensures fault { IfErr result (λ f. f ≢ EntryFault.Memory → IsFirstFault (net_of net.now) (searched_of self.old.kept)
            (split_of (shown_split split) (option_map shown_proof left) (option_map shown_proof right)) f) }
        ensures unchanged { IfErr result (λ _. self.new.kept ≡ self.old.kept) }
        ensures scratch { Fits (net_of net.now) self.new.scratch }
    {
        let span = self.judge(net, &split)?;
        let left_shown = self.show_half(net, &split, Side::Left, &left)?;
        let right_shown = self.show_half(net, &split, Side::Right, &right)?;
        let above = self.node_bound(split.leaf);
        let left = Child {
            proof: left,
            bound: raised(above, left_shown),
        };
        let right = Child {
            proof: right,
            bound: raised(above, right_shown),
        };
        self.grow(split, span, left, right)?;
        Ok(())
    }

    /// The ends that a split cuts between, or the first fault of the split alone.
    fn judge(&self, net: &Network, split: &Split) -> Result<Span, SplitFault>
        requires { IsOf (net_of net.now) self.now }
        ensures span { IfOk result (CutsBetween (net_of net.now) self.now.kept.splits.list (shown_split split.now)) }
        ensures cuts { IfOk result (λ _. MayCome (net_of net.now) self.now.kept.splits.list (shown_split split.now)) }
        ensures few { IfOk result (λ _. length self.now.kept.splits.list < trees.most_splits) }
        ensures fault { IfErr result (splits.IsFirstFault (net_of net.now) self.now.kept.splits.list (shown_split split.now)) }
    {
        self.splits.judge(net, split)
    }

    /// What the proof of a split's half shows of the half's box, where it has one.
    fn show_half(
        &mut self,
        net: &Network,
        split: &Split,
        side: Side,
        proof: &Option<Proof>,
    ) -> Result<Option<Shown>, EntryFault>
        requires tree { IsOf (net_of net.now) self.old }
        requires cuts { MayCome (net_of net.now) self.old.kept.splits.list (shown_split split.now) }
        ensures in_order { IfOk result (λ _. ForSome (option_map shown_proof proof.now) (multipliers.IsInOrder (net_of net.now)
            (half_at (net_of net.now) self.old.kept.splits.list (shown_split split.now) side))) }
        ensures shown { IfOk result (λ s. option_map results.shown_value s ≡ option_map (multipliers.shown_by (net_of net.now)
            (half_at (net_of net.now) self.old.kept.splits.list (shown_split split.now) side)) (option_map shown_proof proof.now)) }
        ensures fault { IfErr result (λ f. f ≢ EntryFault.Memory → IsBadProof (net_of net.now)
            (half_at (net_of net.now) self.old.kept.splits.list (shown_split split.now) side) (option_map shown_proof proof.now) f) }
        ensures kept { self.new.kept ≡ self.old.kept }
        ensures scratch { Fits (net_of net.now) self.new.scratch }
    {
        match proof {
            None => Ok(None),
            Some(proof) => {
                let ends = self.splits.half_box(net, split, side)?;
                Ok(Some(value_in(net, &ends, proof, &mut self.scratch)?))
            }
        }
    }

    /// Adds a split and its two nodes, or leaves the tree as it was where there is no memory for them.
    fn grow(
        &mut self,
        split: Split,
        span: Span,
        left: Child,
        right: Child,
    ) -> Result<(), AllocError>
        requires leaf { split.leaf < trees.nodes self.old.kept.splits.list }
        requires few { length self.old.kept.splits.list < trees.most_splits }
        requires uncut { (node : ℕ) → trees.nodes self.old.kept.splits.list ≤ node → trees.is_cut self.old.kept.splits.list node ≡ false }
        requires coord { split.coord < length self.old.kept.cuts }
        requires counted { get_or self.old.kept.cuts split.coord 0 < trees.most_splits }
        ensures grown { IfOk result (λ _. self.new.kept ≡ grown self.old.kept (shown_split split) span
            (option_map shown_proof left.proof) (option_map shown_proof right.proof) left.bound right.bound) }
        ensures cut { (n : Net) → AreCut n self.old.kept.splits → MayCome n self.old.kept.splits.list (shown_split split)
            → CutsBetween n self.old.kept.splits.list (shown_split split) span → IfOk result (λ _. AreCut n self.new.kept.splits) }
        ensures unchanged { IfErr result (λ _. self.new.kept ≡ self.old.kept) }
        ensures scratch { self.new.scratch ≡ self.old.scratch }
    {
        self.proofs.reserve(2)?;
        self.bounds.reserve(2)?;
        let number = 2 * self.splits.len() as u32 + 1;
        let parent = open_leaf(split.leaf, self.bounds.as_slice()[split.leaf as usize]);
        let left_leaf = open_leaf(number, left.bound);
        let right_leaf = open_leaf(number + 1, right.bound);
        push_split(
            &mut self.splits,
            &mut self.order,
            split,
            span,
            left_leaf,
            right_leaf,
        )?;
        self.order.take_out(parent);
        count_cut(&mut self.cuts, split.coord);
        self.proofs.push_reserved(left.proof);
        self.proofs.push_reserved(right.proof);
        self.bounds.push_reserved(left.bound);
        self.bounds.push_reserved(right.bound);
        Ok(())
    }
}

/// Counts one split more on a coordinate.
fn count_cut(cuts: &mut [u32], coord: u32)
    requires there { coord < length cuts.old }
    requires few { get_or cuts.old coord 0 < trees.most_splits }
    ensures { cuts.new ≡ counted cuts.old coord }
{
    cuts[coord as usize] += 1;
}

/// Puts the halves of a leaf among the leaves, and its split behind the splits; or leaves both as they were where there is no memory.
fn push_split(
    splits: &mut SplitTree,
    order: &mut LeafOrder,
    split: Split,
    span: Span,
    left: Option<OpenLeaf>,
    right: Option<OpenLeaf>,
) -> Result<(), AllocError>
    requires leaf { split.leaf < trees.nodes splits.old.list }
    requires few { length splits.old.list < trees.most_splits }
    requires left { ForSome left (λ leaf. ¬ Contains order.old leaf) }
    requires right { ForSome right (λ leaf. ¬ Contains order.old leaf) }
    ensures pushed { IfOk result (λ _. splits.new ≡ with_split splits.old (shown_split split) span) }
    ensures cut { (n : Net) → AreCut n splits.old → MayCome n splits.old.list (shown_split split)
        → CutsBetween n splits.old.list (shown_split split) span → IfOk result (λ _. AreCut n splits.new) }
    ensures put { IfOk result (λ _. ArePut left right order.old order.new) }
    ensures same_splits { IfErr result (λ _. splits.new ≡ splits.old) }
    ensures same_leaves { IfErr result (λ _. (leaf : OpenLeaf) → Contains order.new leaf ↔ Contains order.old leaf) }
{
    order.put(left, right)?;
    if splits.push(split, span).is_err() {
        order.take_out(left);
        order.take_out(right);
        return Err(AllocError);
    }
    Ok(())
}
