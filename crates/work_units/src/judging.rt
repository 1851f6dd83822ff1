//! Whether a tree takes an answer's split, without taking it.

ghost use Rattle.std.specs.Prelude.{◌≡◌, ◌≢◌, ◌<◌, ◌↔◌, ◌<ℤ◌, length, get_or, pos, IfOk, IfErr, IsTrue, option_map};
ghost use Rattle.std.specs.Option.{ForSome};
ghost use Rattle.pool_model.specs.Network.{net_of};
ghost use Rattle.row_model.specs.Boxes.{Box};
ghost use Rattle.row_model.specs.Multipliers.{IsInOrder};
ghost use Rattle.row_model.specs.Trees as trees;
ghost use Rattle.row_model.specs.Entries.{split_of, IsSplitEntryInOrder};
ghost use Rattle.box_space.specs.Views.{AreEnds, AreEndsOf, shown_proof, shown_split};
ghost use Rattle.row_book.specs.Fitting.{Fits};
ghost use Rattle.split_tree.specs.Faults as splits;
ghost use Rattle.split_tree.specs.Splits.{MayCome};
ghost use Rattle.box_tree.specs.EntryFaults.{IsFirstFault, IsProofFault};
ghost use Rattle.box_tree.specs.Kept.{IsOf, searched_of};
ghost use Rattle.work_units.specs.Views.{shown_answer};
ghost use Rattle.work_units.specs.Desks.{desk_of};
ghost use Rattle.work_units.specs.Judging.{IsJudged};

use crate::answer::{Answer, Judged, refused};
use crate::desk::Desk;
use blend_network::Network;
use bounds::value_in;
use box_space::{BoxEnds, Proof, Split, coords, halves};
use box_tree::{Entry, EntryFault, Tree};
use edge_io::Memory;
use row_book::{ProofFault, Scratch};
use split_tree::{MAX_SPLITS, SplitFault};
use std::alloc::Global;

impl Desk {
    /// How an answer is judged. Nothing changes.
    pub fn judge(&self, net: &Network, answer: &Answer) -> Result<Judged, Memory>
        requires { IsOf (net_of net.now) self.now.tree }
        // Promise: Each answer is judged as the definition says
        ensures judged { IfOk result (IsJudged (net_of net.now) (desk_of self.now) (shown_answer answer.now)) }
        // Promise: No answer is refused for a leaf that is cut, or for memory
        ensures never { IfOk result (λ j. (j ≢ Judged.Refused EntryFault.NotALeaf) × (j ≢ Judged.Refused EntryFault.Memory)) }
    {
        if let Some(judged) = self.dismissed(answer) {
            return Ok(judged);
        }
        match &answer.entry {
            Entry::SplitOf(split, left, right) => {
                match try_split(self.alloc, net, &self.tree, split, left, right) {
                    Ok(()) => Ok(Judged::Fits),
                    Err(fault) => refused(fault),
                }
            }
            Entry::Root(_) | Entry::Improve(_) => Ok(Judged::Wrong),
        }
    }
}

/// Whether a tree takes a split of a leaf, with the proofs of its halves; else the first fault.
fn try_split(
    alloc: Global,
    net: &Network,
    tree: &Tree,
    split: &Split,
    left: &Option<Proof>,
    right: &Option<Proof>,
) -> Result<(), EntryFault>
    requires tree { IsOf (net_of net.now) tree.now }
    requires leaf { trees.IsLeaf tree.now.kept.splits.list split.now.leaf }
    ensures in_order { IfOk result (λ _. IsSplitEntryInOrder (net_of net.now) (searched_of tree.now.kept) (shown_split split.now)
        (option_map shown_proof left.now) (option_map shown_proof right.now)) }
    ensures fault { IfErr result (λ f. f ≢ EntryFault.Memory → IsFirstFault (net_of net.now) (searched_of tree.now.kept)
        (split_of (shown_split split.now) (option_map shown_proof left.now) (option_map shown_proof right.now)) f) }
{
    let ends = tree.box_of(net, split.leaf)?;
    judge_cut(net, tree, &ends, split)?;
    let (left_ends, right_ends) = halves(alloc, &ends, split.coord, split.cut)?;
    let mut scratch = Scratch::new(alloc, net)?;
    judge_half(net, &left_ends, left, &mut scratch)?;
    judge_half(net, &right_ends, right, &mut scratch)?;
    Ok(())
}

/// Whether a split of a leaf, whose box has these ends, may come next; else its first fault.
fn judge_cut(net: &Network, tree: &Tree, ends: &BoxEnds, split: &Split) -> Result<(), SplitFault>
    requires leaf { trees.IsLeaf tree.now.kept.splits.list split.now.leaf }
    requires ends { AreEndsOf (net_of net.now) (trees.box_of (net_of net.now) tree.now.kept.splits.list split.now.leaf) ends.now }
    ensures cuts { IfOk result (λ _. MayCome (net_of net.now) tree.now.kept.splits.list (shown_split split.now)) }
    ensures few { IfOk result (λ _. length tree.now.kept.splits.list < trees.most_splits) }
    ensures fault { IfErr result (splits.IsFirstFault (net_of net.now) tree.now.kept.splits.list (shown_split split.now)) }
{
    if split.coord >= coords(net) {
        return Err(SplitFault::BadCoord);
    }
    if !is_inside(ends, split.coord, split.cut) {
        return Err(SplitFault::CutOutside);
    }
    if tree.splits().len() >= MAX_SPLITS {
        return Err(SplitFault::TooManySplits);
    }
    Ok(())
}

/// Whether a cut lies strictly between the ends of a coordinate.
fn is_inside(ends: &BoxEnds, coord: u32, cut: i64) -> bool
    requires low { coord < length ends.now.low.items }
    requires high { coord < length ends.now.high.items }
    ensures { IsTrue result ↔ ((get_or ends.now.low.items coord (pos 0) <ℤ cut) × (cut <ℤ get_or ends.now.high.items coord (pos 0))) }
{
    let ends = ends.view();
    ends.low_at(coord) < cut && cut < ends.high_at(coord)
}

/// Whether the proof of a half, where it has one, is in order in the box that has these ends; else its first fault.
fn judge_half(
    net: &Network,
    ends: &BoxEnds,
    proof: &Option<Proof>,
    scratch: &mut Scratch,
) -> Result<(), ProofFault>
    requires ends { AreEnds (net_of net.now) ends.now }
    requires fits { Fits (net_of net.now) scratch.old }
    ensures in_order { (b : Box) → AreEndsOf (net_of net.now) b ends.now → IfOk result (λ _. ForSome (option_map shown_proof proof.now) (IsInOrder (net_of net.now) b)) }
    ensures fault { (b : Box) → AreEndsOf (net_of net.now) b ends.now → IfErr result (IsProofFault (net_of net.now) b (option_map shown_proof proof.now)) }
    ensures fits { Fits (net_of net.now) scratch.new }
{
    match proof {
        None => Ok(()),
        Some(proof) => {
            value_in(net, ends, proof, scratch)?;
            Ok(())
        }
    }
}
