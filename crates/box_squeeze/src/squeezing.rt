//! The split that squeezes a leaf.

ghost use Rattle.std.specs.Prelude.{◌≡◌, ◌<◌, ◌^◌, length, Some, option_map, IfOk, IfSome, IfNone, pos, neg_ℤ, ◌<ℤ◌};
ghost use Rattle.pool_model.specs.Network.{IsLimited, net_of};
ghost use Rattle.row_model.specs.Trees.{box_of, most_splits, IsLeaf};
ghost use Rattle.row_model.specs.Entries.{split_of, IsEntryInOrder};
ghost use Rattle.box_space.specs.Views.{shown_proof, AreEnds};
ghost use Rattle.box_tree.specs.Kept.{IsOf, searched_of};
ghost use Rattle.box_tree.specs.Views.{shown_entry};
ghost use Rattle.box_squeeze.specs.Squeezes.{on, kept_node, HasNoEmpty, IsClosed, IsSqueezeOf};

use crate::closing::{Closed, Range};
use crate::piece::Side;
use blend_network::Network;
use box_space::{BoxEnds, Form, Proof, Split, coords};
use box_tree::{Entry, Tree};
use dual_rounding::lp_of;
use edge_io::Memory;
use lp_simplex::advise;
use row_book::{Scratch, Shown, value};
use std::alloc::Global;

/// A split that cuts a piece off a leaf.
#[derive(Debug, Drop)]
pub struct Squeezed {
    pub entry: Entry,
    /// The number that the other of its two nodes will have.
    pub kept: u32,
}

/// A split that cuts off a leaf a piece in which no plan costs less than the target, in picos; its proof says so. The pieces are tried
/// by coordinate, the left one first: all of them by the empty proof, and then by programs of the form, none of which changes its
/// basis more than `pivots` times. None comes only where no piece's empty proof shows the target.
pub fn squeeze(
    alloc: Global,
    net: &Network,
    tree: &Tree,
    form: Form,
    leaf: u32,
    target: i128,
    pivots: u32,
) -> Result<Option<Squeezed>, Memory>
    requires tree { IsOf (net_of net.now) tree.now }
    requires few { length tree.now.kept.splits.list < most_splits }
    requires leaf { IsLeaf tree.now.kept.splits.list leaf }
    requires target { neg_ℤ (pos (2 ^ 120)) <ℤ target }
    // Promise: A squeeze of a leaf is a split of that leaf that is in order on the tree and cuts off a piece; the proof of the piece shows
    //   that it holds no plan, or a bound of at least the target; and the proofs name rows of the form alone
    ensures some { IfOk result (λ o. IfSome o (λ q. IsSqueezeOf (net_of net.now) form (searched_of tree.now.kept) leaf target (shown_entry q.entry) q.kept)) }
    // Promise: A squeeze of a leaf is a split of that leaf that is in order on the tree and cuts off a piece; the proof of the piece shows
    //   that it holds no plan, or a bound of at least the target; and the proofs name rows of the form alone
    ensures in_order { IfOk result (λ o. IfSome o (λ q. IsEntryInOrder (net_of net.now) (searched_of tree.now.kept) (shown_entry q.entry))) }
    // Promise: A leaf is not squeezed only where no piece's empty proof shows at least the target
    ensures none { IfOk result (λ o. IfNone o (HasNoEmpty (net_of net.now) form (box_of (net_of net.now) tree.now.kept.splits.list leaf) target)) }
{
    let ends = tree.box_of(net, leaf)?;
    let program = lp_of(alloc, net, form, &ends.view())?;
    let advice = advise(alloc, &program, pivots)?;
    let basis = advice.basis.as_slice();
    let range = Range {
        form,
        ends,
        coords: coords(net),
        target,
        pivots,
    };
    let Some(closed) = range.closed(alloc, net, basis)? else {
        return Ok(None);
    };
    let found = cut_closed(alloc, net, tree, leaf, &range, closed, basis)?;
    Ok(Some(found.squeezed))
}

/// The same by the empty proof alone: a piece is cut off only where its empty proof shows the target, and where none does, no program is
/// solved.
pub fn squeeze_free(
    alloc: Global,
    net: &Network,
    tree: &Tree,
    form: Form,
    leaf: u32,
    target: i128,
    pivots: u32,
) -> Result<Option<Squeezed>, Memory>
    requires tree { IsOf (net_of net.now) tree.now }
    requires few { length tree.now.kept.splits.list < most_splits }
    requires leaf { IsLeaf tree.now.kept.splits.list leaf }
    requires target { neg_ℤ (pos (2 ^ 120)) <ℤ target }
    // Promise: A squeeze of a leaf is a split of that leaf that is in order on the tree and cuts off a piece; the proof of the piece shows
    //   that it holds no plan, or a bound of at least the target; and the proofs name rows of the form alone
    ensures some { IfOk result (λ o. IfSome o (λ q. IsSqueezeOf (net_of net.now) form (searched_of tree.now.kept) leaf target (shown_entry q.entry) q.kept)) }
    // Promise: A squeeze of a leaf is a split of that leaf that is in order on the tree and cuts off a piece; the proof of the piece shows
    //   that it holds no plan, or a bound of at least the target; and the proofs name rows of the form alone
    ensures in_order { IfOk result (λ o. IfSome o (λ q. IsEntryInOrder (net_of net.now) (searched_of tree.now.kept) (shown_entry q.entry))) }
    // Promise: A leaf is not squeezed only where no piece's empty proof shows at least the target
    ensures none { IfOk result (λ o. IfNone o (HasNoEmpty (net_of net.now) form (box_of (net_of net.now) tree.now.kept.splits.list leaf) target)) }
{
    let ends = tree.box_of(net, leaf)?;
    let range = Range {
        form,
        ends,
        coords: coords(net),
        target,
        pivots,
    };
    let Some(closed) = range.closed_by_none(alloc, net, &[])? else {
        return Ok(None);
    };
    let found = cut_closed(alloc, net, tree, leaf, &range, closed, &[])?;
    Ok(Some(found.squeezed))
}

/// A squeeze, and what is known of the node that is kept, in picos: None where it holds no plan.
#[derive(Drop)]
pub(crate) struct Found {
    pub(crate) squeezed: Squeezed,
    pub(crate) bound: Option<i128>,
}

/// The split that cuts a closed piece off a leaf, with what rounding gives for what is kept, of an advice from a basis.
pub(crate) fn cut_closed(
    alloc: Global,
    net: &Network,
    tree: &Tree,
    leaf: u32,
    range: &Range,
    closed: Closed,
    basis: &[u32],
) -> Result<Found, Memory>
    requires limited { IsLimited (net_of net.now) }
    requires tree { IsOf (net_of net.now) tree.now }
    requires few { length tree.now.kept.splits.list < most_splits }
    requires leaf { IsLeaf tree.now.kept.splits.list leaf }
    requires closed { IsClosed (net_of net.now) range.now.form (box_of (net_of net.now) tree.now.kept.splits.list leaf) range.now.target closed }
    ensures squeeze { IfOk result (λ f. IsSqueezeOf (net_of net.now) range.now.form (searched_of tree.now.kept) leaf range.now.target (shown_entry f.squeezed.entry) f.squeezed.kept) }
    ensures in_order { IfOk result (λ f. IsEntryInOrder (net_of net.now) (searched_of tree.now.kept) (shown_entry f.squeezed.entry)) }
{
    let bound = tree.node_bound(leaf).unwrap_or(range.target);
    let kept = range.proof_of(alloc, net, &closed.kept, basis, bound)?;
    let known = known_of(alloc, net, &closed.kept, &kept, bound)?;
    let count = tree.splits().len() as u32;
    Ok(Found {
        squeezed: cut_off(count, leaf, closed, kept),
        bound: known,
    })
}

/// What a proof shows of a box, in picos, or the bound where there is none: None where the box holds no plan.
fn known_of(
    alloc: Global,
    net: &Network,
    ends: &BoxEnds,
    proof: &Option<Proof>,
    bound: i128,
) -> Result<Option<i128>, Memory>
    requires limited { IsLimited (net_of net.now) }
    requires ends { AreEnds (net_of net.now) ends.now }
{
    let Some(proof) = proof else {
        return Ok(Some(bound));
    };
    let mut scratch = Scratch::new(alloc, net)?;
    match value(net, &ends.view(), proof, &mut scratch) {
        Ok(Shown::NoPlan) => Ok(None),
        Ok(Shown::Bound(shown)) => Ok(Some(shown.max(bound))),
        Err(_) => Ok(Some(bound)),
    }
}

/// The split of a leaf that cuts off a piece, behind so many splits, with the proof of what is kept.
fn cut_off(count: u32, leaf: u32, closed: Closed, proof: Option<Proof>) -> Squeezed
    requires { count < most_splits }
    ensures entry { shown_entry result.entry ≡ split_of record { leaf = leaf; coord = closed.coord; cut = closed.cut }
        (on closed.side (Some (shown_proof closed.proof)) (option_map shown_proof proof))
        (on closed.side (option_map shown_proof proof) (Some (shown_proof closed.proof))) }
    ensures kept { result.kept ≡ kept_node closed.side count }
{
    let split = Split {
        leaf,
        coord: closed.coord,
        cut: closed.cut,
    };
    match closed.side {
        Side::Left => Squeezed {
            entry: Entry::SplitOf(split, Some(closed.proof), proof),
            kept: 2 * count + 2,
        },
        Side::Right => Squeezed {
            entry: Entry::SplitOf(split, proof, Some(closed.proof)),
            kept: 2 * count + 1,
        },
    }
}
