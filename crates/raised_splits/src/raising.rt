//! Entries whose halves are raised.

ghost use Rattle.std.specs.Prelude.{◌≡◌, ◌<◌, IfOk, option_map};
ghost use Rattle.pool_model.specs.Network.{IsLimited, net_of};
ghost use Rattle.row_model.specs.Entries.{split_of, IsEntryInOrder, IsSplitEntryInOrder};
ghost use Rattle.box_space.specs.Views.{shown_proof, shown_split};
ghost use Rattle.box_tree.specs.Kept.{IsOf, searched_of};
ghost use Rattle.box_tree.specs.Views.{shown_entry};
ghost use Rattle.raised_splits.specs.Raising.{IsBestEntry, IsRaisedBy, IsRaisedTo};

use crate::half::raised_half;
use blend_network::Network;
use box_space::{Form, Proof, Split, halves};
use box_tree::{Entry, Tree};
use edge_io::Memory;
use row_book::Scratch;
use std::alloc::Global;

/// What an entry becomes that is in order on a tree: each half of a split that may hold a plan is marked in so many pivots, and gets the proof of
/// its mark, where that raises its bound or shows that it holds no plan. Without pivots it stays as it is. The only error is want of memory.
pub fn raised_entry(
    alloc: Global,
    net: &Network,
    form: Form,
    tree: &Tree,
    entry: Entry,
    pivots: u32,
) -> Result<Entry, Memory>
    requires limited { IsLimited (net_of net.now) }
    requires tree { IsOf (net_of net.now) tree.now }
    requires in_order { IsEntryInOrder (net_of net.now) (searched_of tree.now.kept) (shown_entry entry) }
    // Promise: Where pivots are asked for, each half of a split that may hold a plan is marked by the rows of the form for its bound, and gets the
    //   proof of a mark that raises it or shows that it holds no plan; all else of the entry stays, and so does each entry without pivots
    ensures raised { IfOk result (λ e. IsRaisedBy (net_of net.now) form pivots (searched_of tree.now.kept).tree (shown_entry entry) (shown_entry e)) }
    // Promise: An entry that was in order is so with the proofs that its halves get
    ensures in_order { IfOk result (λ e. IsEntryInOrder (net_of net.now) (searched_of tree.now.kept) (shown_entry e)) }
    // Promise: Where pivots are asked for, each half of a split holds no plan, or a light point meets its box and the form's rows at a cost of
    //   less than one pico above its bound, or the exact run of its box with so many pivots gives a reason
    ensures best { IfOk result (λ e. IsBestEntry (net_of net.now) form pivots (searched_of tree.now.kept).tree (shown_entry e)) }
{
    if pivots == 0 {
        return Ok(entry);
    }
    let entry = raised_halves(alloc, net, form, tree, entry, pivots)?;
    Ok(entry)
}

/// What an entry becomes where pivots are asked for.
fn raised_halves(
    alloc: Global,
    net: &Network,
    form: Form,
    tree: &Tree,
    entry: Entry,
    pivots: u32,
) -> Result<Entry, Memory>
    requires tree { IsOf (net_of net.now) tree.now }
    requires in_order { IsEntryInOrder (net_of net.now) (searched_of tree.now.kept) (shown_entry entry) }
    ensures { IfOk result (λ e. IsRaisedTo (net_of net.now) form pivots (searched_of tree.now.kept).tree (shown_entry entry) (shown_entry e)) }
{
    match entry {
        Entry::SplitOf(split, left, right) => {
            raised_split(alloc, net, form, tree, split, left, right, pivots)
        }
        Entry::Root(proof) => Ok(Entry::Root(proof)),
        Entry::Improve(plan) => Ok(Entry::Improve(plan)),
    }
}

/// What a split becomes.
fn raised_split(
    alloc: Global,
    net: &Network,
    form: Form,
    tree: &Tree,
    split: Split,
    left: Option<Proof>,
    right: Option<Proof>,
    pivots: u32,
) -> Result<Entry, Memory>
    requires tree { IsOf (net_of net.now) tree.now }
    requires in_order { IsSplitEntryInOrder (net_of net.now) (searched_of tree.now.kept) (shown_split split) (option_map shown_proof left) (option_map shown_proof right) }
    ensures { IfOk result (λ e. IsRaisedTo (net_of net.now) form pivots (searched_of tree.now.kept).tree
        (split_of (shown_split split) (option_map shown_proof left) (option_map shown_proof right)) (shown_entry e)) }
{
    let above = tree.node_bound(split.leaf);
    let ends = tree.box_of(net, split.leaf)?;
    let (below, beyond) = halves(alloc, &ends, split.coord, split.cut)?;
    let mut scratch = Scratch::new(alloc, net)?;
    let left = raised_half(alloc, net, form, &below, above, left, pivots, &mut scratch)?;
    let right = raised_half(
        alloc,
        net,
        form,
        &beyond,
        above,
        right,
        pivots,
        &mut scratch,
    )?;
    Ok(Entry::SplitOf(split, left, right))
}
