//! The pieces of cuts that a look has solved.

ghost use Rattle.std.specs.Prelude.{◌≡◌, ◌<◌, ◌^◌, length, IfOk, IfSome, IfNone, pos, neg_ℤ, ◌<ℤ◌};
ghost use Rattle.pool_model.specs.Network.{IsLimited, net_of};
ghost use Rattle.row_model.specs.Boxes as boxes;
ghost use Rattle.row_model.specs.Trees.{box_of, most_splits, IsLeaf};
ghost use Rattle.row_model.specs.Entries.{IsEntryInOrder};
ghost use Rattle.box_space.specs.Views.{shown_box_ends, AreEndsOf};
ghost use Rattle.box_tree.specs.Kept.{IsOf, searched_of};
ghost use Rattle.box_tree.specs.Views.{shown_entry};
ghost use Rattle.box_squeeze.specs.Pieces.{HasPieces};
ghost use Rattle.box_squeeze.specs.Squeezes.{HasNoEmpty, IsOrderedSqueeze, IsSqueezeOf};

use crate::closing::Range;
use crate::piece::{Side, has_pieces};
use crate::squeezing::{Found, Squeezed, cut_closed, squeeze_free};
use blend_network::Network;
use box_space::{Form, coords};
use box_tree::Tree;
use cut_scores::Aim;
use edge_io::Memory;
use leaf_cuts::{SolvedCut, SolvedCuts};
use std::alloc::Global;

/// How many splits there have to be before pieces are solved: in smaller trees squeezes cost a few splits more than they saved, on adhya1
/// and networks that are made.
const MANY_SPLITS: usize = 128;

/// A piece is solved only where its half gains a hundredth of what the leaf's bound is short of the target.
const LEAST_GAIN: i128 = 100;

/// A squeeze pays where what it leaves to be done is less than 5/6 of what the cut leaves that leads.
const LESS: i128 = 5;

const PARTS: i128 = 6;

/// The same where cuts of the leaf have been solved: first by the empty proof alone; and then, once there are many splits and where the
/// cut that leaves the least to be done closes neither half, by programs of the pieces of those cuts, each from where its half's program
/// ended. Of the pieces that are closed that one is cut off whose other node leaves the least to be done, where that is enough less than
/// what the cut leaves.
pub fn squeeze_looked(
    alloc: Global,
    net: &Network,
    tree: &Tree,
    form: Form,
    leaf: u32,
    target: i128,
    pivots: u32,
    solved: &SolvedCuts,
) -> Result<Option<Squeezed>, Memory>
    requires tree { IsOf (net_of net.now) tree.now }
    requires few { length tree.now.kept.splits.list < most_splits }
    requires leaf { IsLeaf tree.now.kept.splits.list leaf }
    requires target { neg_ℤ (pos (2 ^ 120)) <ℤ target }
    // Promise: A squeeze of a leaf is a split of that leaf that is in order on the tree and cuts off a piece; the proof of the piece shows
    //   that it holds no plan, or a bound of at least the target; and the proofs name rows of the form alone
    ensures some { IfOk result (λ o. IfSome o (λ q. IsSqueezeOf (net_of net.now) form (searched_of tree.now.kept) leaf target (shown_entry q.entry) q.kept)) }
    // Promise: A squeeze of a leaf is a split of that leaf that is in order on the tree and cuts off a piece; the proof of the piece shows
    //   that it holds no plan, or a bound of at least the target; and the proofs name rows of the form alone
    ensures in_order { IfOk result (λ o. IfSome o (λ q. IsEntryInOrder (net_of net.now) (searched_of tree.now.kept) (shown_entry q.entry))) }
    // Promise: A leaf is not squeezed only where no piece's empty proof shows at least the target
    ensures none { IfOk result (λ o. IfNone o (HasNoEmpty (net_of net.now) form (box_of (net_of net.now) tree.now.kept.splits.list leaf) target)) }
{
    let free = squeeze_free(alloc, net, tree, form, leaf, target, pivots)?;
    if let Some(squeezed) = free {
        return Ok(Some(squeezed));
    }
    if tree.splits().len() < MANY_SPLITS {
        return Ok(None);
    }
    let bound = tree.node_bound(leaf).unwrap_or(target);
    let pieces = Pieces {
        leaf,
        range: Range {
            form,
            ends: tree.box_of(net, leaf)?,
            coords: coords(net),
            target,
            pivots,
        },
        bound,
        aim: Aim::at(target, bound),
    };
    pieces.best(alloc, net, tree, solved)
}

/// The pieces of a leaf, and what they are compared by.
#[derive(Drop)]
struct Pieces {
    leaf: u32,
    range: Range,
    /// The leaf's bound, in picos.
    bound: i128,
    aim: Aim,
}

/// The best squeeze so far, where there is one, and what a better one leaves to be done less than, in fifths of a pico.
#[derive(Drop)]
struct Best {
    squeezed: Option<Squeezed>,
    least: i128,
}

impl Pieces {
    /// The best squeeze by the pieces of cuts that are solved, where one pays.
    fn best(
        &self,
        alloc: Global,
        net: &Network,
        tree: &Tree,
        solved: &SolvedCuts,
    ) -> Result<Option<Squeezed>, Memory>
        requires limited { IsLimited (net_of net.now) }
        requires tree { IsOf (net_of net.now) tree.now }
        requires few { length tree.now.kept.splits.list < most_splits }
        requires leaf { IsLeaf tree.now.kept.splits.list self.now.leaf }
        requires ends { AreEndsOf (net_of net.now) (box_of (net_of net.now) tree.now.kept.splits.list self.now.leaf) self.now.range.ends }
        requires target { neg_ℤ (pos (2 ^ 120)) <ℤ self.now.range.target }
        requires coords { self.now.range.coords ≡ boxes.coords (net_of net.now) }
        ensures { IfOk result (λ o. IfSome o (IsOrderedSqueeze (net_of net.now) self.now.range.form (searched_of tree.now.kept) self.now.leaf self.now.range.target)) }
    {
        let basis = solved.basis.as_slice();
        let mut best = Best {
            squeezed: None,
            least: self.enough(solved.cuts.as_slice()),
        };
        for cut in solved.cuts.as_slice() {
            best = self.better(alloc, net, tree, basis, cut, Side::Left, best)?;
            best = self.better(alloc, net, tree, basis, cut, Side::Right, best)?;
        }
        Ok(best.squeezed)
    }

    /// The better of a squeeze and that by the piece of a side of a cut.
    fn better(
        &self,
        alloc: Global,
        net: &Network,
        tree: &Tree,
        basis: &[u32],
        cut: &SolvedCut,
        side: Side,
        best: Best,
    ) -> Result<Best, Memory>
        requires limited { IsLimited (net_of net.now) }
        requires tree { IsOf (net_of net.now) tree.now }
        requires few { length tree.now.kept.splits.list < most_splits }
        requires leaf { IsLeaf tree.now.kept.splits.list self.now.leaf }
        requires ends { AreEndsOf (net_of net.now) (box_of (net_of net.now) tree.now.kept.splits.list self.now.leaf) self.now.range.ends }
        requires target { neg_ℤ (pos (2 ^ 120)) <ℤ self.now.range.target }
        requires coords { self.now.range.coords ≡ boxes.coords (net_of net.now) }
        requires best { IfSome best.squeezed (IsOrderedSqueeze (net_of net.now) self.now.range.form (searched_of tree.now.kept) self.now.leaf self.now.range.target) }
        ensures { IfOk result (λ x. IfSome x.squeezed (IsOrderedSqueeze (net_of net.now) self.now.range.form (searched_of tree.now.kept) self.now.leaf self.now.range.target)) }
    {
        if !self.may_pay(cut, side, best.least)
            || cut.coord >= self.range.coords
            || !has_pieces(net, self.range.form, &self.range.ends, cut.coord)
        {
            return Ok(best);
        }
        let Some(found) = self.tried(alloc, net, tree, basis, cut, side)? else {
            return Ok(best);
        };
        let rest = self.aim.rest_of(found.bound);
        if rest >= best.least {
            return Ok(best);
        }
        Ok(Best {
            squeezed: Some(found.squeezed),
            least: rest,
        })
    }

    /// The squeeze by the piece of a side of a cut, where its program closes it.
    fn tried(
        &self,
        alloc: Global,
        net: &Network,
        tree: &Tree,
        basis: &[u32],
        cut: &SolvedCut,
        side: Side,
    ) -> Result<Option<Found>, Memory>
        requires limited { IsLimited (net_of net.now) }
        requires tree { IsOf (net_of net.now) tree.now }
        requires few { length tree.now.kept.splits.list < most_splits }
        requires leaf { IsLeaf tree.now.kept.splits.list self.now.leaf }
        requires ends { AreEndsOf (net_of net.now) (box_of (net_of net.now) tree.now.kept.splits.list self.now.leaf) self.now.range.ends }
        requires target { neg_ℤ (pos (2 ^ 120)) <ℤ self.now.range.target }
        requires coords { self.now.range.coords ≡ boxes.coords (net_of net.now) }
        requires pieces { HasPieces (net_of net.now) self.now.range.form (shown_box_ends self.now.range.ends) cut.now.coord }
        ensures { IfOk result (λ o. IfSome o (λ f. IsOrderedSqueeze (net_of net.now) self.now.range.form (searched_of tree.now.kept) self.now.leaf self.now.range.target f.squeezed)) }
    {
        let start = match side {
            Side::Left => cut.left.as_slice(),
            Side::Right => cut.right.as_slice(),
        };
        let range = &self.range;
        let Some(closed) = range.by_program(alloc, net, start, cut.coord, side)? else {
            return Ok(None);
        };
        let found = cut_closed(alloc, net, tree, self.leaf, range, closed, basis)?;
        Ok(Some(found))
    }

    /// Whether a squeeze by the piece of a side of a cut may leave less to be done than so much: its half gains enough, and the node that
    /// is kept, which holds the other half, has no greater bound than that.
    fn may_pay(&self, cut: &SolvedCut, side: Side, least: i128) -> bool {
        let [left, right] = cut.bounds;
        let (half, other) = match side {
            Side::Left => (left, right),
            Side::Right => (right, left),
        };
        self.gains(half) && self.aim.rest_of(other) < least
    }

    /// Whether a half of this bound gains enough.
    fn gains(&self, half: Option<i128>) -> bool {
        match half {
            None => true,
            Some(bound) => {
                let gained = bound.saturating_sub(self.bound).saturating_mul(LEAST_GAIN);
                gained >= self.range.target.saturating_sub(self.bound)
            }
        }
    }

    /// What a squeeze has to leave to be done less than, in fifths of a pico; 0 where the cut that leads closes a half.
    fn enough(&self, cuts: &[SolvedCut]) -> i128 {
        let mut lead = i128::MAX;
        let mut closes = true;
        for cut in cuts {
            let [left, right] = cut.bounds;
            let left = self.aim.rest_of(left);
            let right = self.aim.rest_of(right);
            let rest = left.saturating_add(right);
            if rest < lead {
                lead = rest;
                closes = left == 0 || right == 0;
            }
        }
        if closes {
            0
        } else {
            lead.saturating_mul(LESS) / PARTS
        }
    }
}
