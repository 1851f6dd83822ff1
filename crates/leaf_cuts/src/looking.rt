//! The look at a leaf: its view, and the halves of the coordinates that are missed the most, proved before one is cut.

ghost use Rattle.std.specs.Prelude.{◌≡◌, All, IfOk};
ghost use Rattle.pool_model.specs.Network.{IsLimited, net_of};
ghost use Rattle.row_model.specs.Boxes.{Box};
ghost use Rattle.box_space.specs.Views.{AreEnds, AreEndsOf};
ghost use Rattle.box_tree.specs.Kept.{IsOf};
ghost use Rattle.leaf_cuts.specs.Benches.{IsBench};
ghost use Rattle.leaf_cuts.specs.Halvings.{IsHalvingOf};
ghost use Rattle.leaf_cuts.specs.Views.{IsViewOf};

use crate::bench::Bench;
use crate::gains::gains_of;
use crate::halving::Halving;
use crate::leaf::Leaf;
use crate::view::leaf_view;
use blend_network::Network;
use box_space::{Form, can_cut, coords};
use box_tree::Tree;
use branching::LeafView;
use cut_scores::{Aim, cutoff, misses, violations};
use edge_io::Memory;
use lp_sparse::lookup::put;
use std::alloc::{AllocError, Global};

/// How many cuts in a row may fail to lead before a look ends, by the count of splits so far: 2 below 32 splits, 3 below 256, then 4.
/// Measured on adhya1, adhya2, and made networks. In small trees a look is dear, and in large ones a split is.
const FEW_SPLITS: usize = 32;

const MANY_SPLITS: usize = 256;

const LEAST_PATIENCE: usize = 2;

/// How many coordinates are looked at in form P, at the most. There the greatest product of gains leads: the least rest gave worse plans
/// and bounds on adhya4.
const MIXED_LOOKS: u32 = 3;

/// The number of a coordinate that isn't missed at all. In form P it may be looked at even so: after 100 splits of adhya4, whose first ten
/// leaves were solved from nothing, the gap was 17.2 without them, and 1.6 with them.
const NOT_MISSED: u64 = 1;

/// How a look goes on, and what its cuts are compared by.
#[derive(Clone, Copy)]
struct Look {
    /// How many coordinates are looked at, at the most.
    most: u32,
    /// The least number of one that is looked at behind the first.
    least_miss: u64,
    /// How many in a row may fail to lead.
    patience: usize,
    aim: Aim,
}

impl Look {
    /// The look of a form at a leaf of a tree with this bound, of at most `looks` coordinates.
    fn new(form: Form, tree: &Tree, bound: i128, looks: u32, gap: i128) -> Look {
        let best = tree.best_cost();
        match form {
            Form::P => Look {
                most: looks.min(MIXED_LOOKS),
                least_miss: NOT_MISSED,
                patience: MIXED_LOOKS as usize,
                aim: Aim::by_gains(best, bound),
            },
            Form::Q | Form::Pq => Look {
                most: looks,
                least_miss: NOT_MISSED + 1,
                patience: patience(tree.splits().len()),
                aim: Aim::new(best, gap, bound),
            },
        }
    }

    /// The place of the cut that leads: the first of the best.
    fn leading(&self, halvings: &[Halving]) -> usize {
        let mut lead = 0;
        let mut most = i128::MIN;
        for (place, halving) in halvings.iter().enumerate() {
            let worth = self.aim.worth(halving.bounds);
            if worth > most {
                most = worth;
                lead = place;
            }
        }
        lead
    }

    /// The coordinate of the cut that leads; past all coordinates where none is there.
    fn leader(&self, halvings: &[Halving]) -> u32 {
        match halvings.get(self.leading(halvings)) {
            Some(halving) => halving.coord,
            None => u32::MAX,
        }
    }
}

/// How the cuts of a look stand so far.
#[derive(Clone, Copy)]
pub(crate) struct Race {
    aim: Aim,
    /// What a cut has to be worth more than, to lead.
    most: i128,
    /// How many have come since the one that leads, which is counted too.
    behind: usize,
}

impl Race {
    fn new(aim: Aim) -> Race {
        Race {
            aim,
            most: i128::MIN,
            behind: 0,
        }
    }

    /// Whether a half of this bound shows already that its cut does not lead.
    pub(crate) fn is_lost(&self, half: Option<i128>) -> bool {
        self.aim.is_lost(half, self.most)
    }

    /// Counts a cut, by the bounds of its halves; none where it was lost.
    fn count(&mut self, halves: Option<[Option<i128>; 2]>) {
        self.behind = self.behind.saturating_add(1);
        if let Some(halves) = halves {
            let worth = self.aim.worth(halves);
            if worth > self.most {
                self.most = worth;
                self.behind = 1;
            }
        }
    }
}

/// How many cuts in a row may fail to lead, at so many splits.
fn patience(splits: usize) -> usize {
    if splits < FEW_SPLITS {
        LEAST_PATIENCE
    } else if splits < MANY_SPLITS {
        LEAST_PATIENCE + 1
    } else {
        LEAST_PATIENCE + 2
    }
}

/// What a look at a leaf found: the leaf as a cut rule sees it, and the cuts whose halves are proved already.
#[derive(Drop)]
pub struct Looked {
    pub view: LeafView,
    pub halvings: Vec<Halving>,
}

impl Bench {
    /// Looks at a leaf of a tree whose program stands on the bench. It proves the halves of the coordinates that are missed the most,
    /// at most `looks` of them and as long as it helps, leaves out the second half of a cut that can't lead, and shows the leaf, with what each
    /// coordinate is missed by; of all those the one whose cut leaves the least to be done has the greatest number. The gap is the one that
    /// is enough, in picos.
    pub fn look(
        &mut self,
        alloc: Global,
        net: &Network,
        tree: &Tree,
        leaf: &Leaf,
        looks: u32,
        gap: i128,
    ) -> Result<Looked, Memory>
        requires limited { IsLimited (net_of net.now) }
        requires tree { IsOf (net_of net.now) tree.now }
        requires ends { AreEnds (net_of net.now) leaf.now.ends }
        requires bench { IsBench (net_of net.now) self.old }
        ensures bench { IsBench (net_of net.now) self.new }
        ensures form { self.new.form ≡ self.old.form }
        // Promise: A cut rule sees the least leaf of the tree: a row for each coordinate of the form, with its ends in the leaf's box
        ensures view { (b : Box) → AreEndsOf (net_of net.now) b leaf.now.ends → IfOk result (λ l. IsViewOf (net_of net.now) self.old.form tree.now.kept.splits.list b leaf.now.node l.view) }
        ensures halvings { (b : Box) → AreEndsOf (net_of net.now) b leaf.now.ends
            → IfOk result (λ l. All (IsHalvingOf (net_of net.now) self.old.form b leaf.now.bound) l.halvings.items) }
    {
        let mut misses = self.misses(alloc, net, tree, leaf, looks)?;
        let look = Look::new(self.form, tree, leaf.bound, looks, gap);
        self.look_by(alloc, net, tree, leaf, misses.as_mut_slice(), look)
    }

    /// By how much each coordinate of a leaf of a tree is missed; nothing where none is looked at.
    fn misses(
        &self,
        alloc: Global,
        net: &Network,
        tree: &Tree,
        leaf: &Leaf,
        looks: u32,
    ) -> Result<Vec<u64>, Memory>
        requires limited { IsLimited (net_of net.now) }
        requires ends { AreEnds (net_of net.now) leaf.now.ends }
    {
        if looks == 0 {
            return Ok(Vec::new(alloc));
        }
        let form = self.form;
        let violated = violations(alloc, net, form, self.program(), &leaf.advice)?;
        let gains = gains_of(alloc, net, tree, cutoff(tree.best_cost(), leaf.bound))?;
        misses(alloc, net, form, &leaf.ends, violated.as_slice(), &gains)
    }

    /// Looks at a leaf by what each coordinate is missed by.
    fn look_by(
        &mut self,
        alloc: Global,
        net: &Network,
        tree: &Tree,
        leaf: &Leaf,
        misses: &mut [u64],
        look: Look,
    ) -> Result<Looked, Memory>
        requires limited { IsLimited (net_of net.now) }
        requires tree { IsOf (net_of net.now) tree.now }
        requires ends { AreEnds (net_of net.now) leaf.now.ends }
        requires bench { IsBench (net_of net.now) self.old }
        ensures bench { IsBench (net_of net.now) self.new }
        ensures form { self.new.form ≡ self.old.form }
        ensures view { (b : Box) → AreEndsOf (net_of net.now) b leaf.now.ends → IfOk result (λ l. IsViewOf (net_of net.now) self.old.form tree.now.kept.splits.list b leaf.now.node l.view) }
        ensures halvings { (b : Box) → AreEndsOf (net_of net.now) b leaf.now.ends
            → IfOk result (λ l. All (IsHalvingOf (net_of net.now) self.old.form b leaf.now.bound) l.halvings.items) }
    {
        let best = ranked(alloc, misses, look)?;
        let halvings = self.halved(alloc, net, leaf, best.as_slice(), look)?;
        let top = look.leader(halvings.as_slice());
        put(misses, top as usize, u64::MAX);
        let view = leaf_view(alloc, net, tree, self.form, leaf, misses)?;
        Ok(Looked { view, halvings })
    }

    /// The cuts of a leaf at those of some coordinates where it can be cut, as long as looking helps. Those of which one half shows
    /// that they don't lead are left out.
    fn halved(
        &mut self,
        alloc: Global,
        net: &Network,
        leaf: &Leaf,
        best: &[u32],
        look: Look,
    ) -> Result<Vec<Halving>, Memory>
        requires limited { IsLimited (net_of net.now) }
        requires ends { AreEnds (net_of net.now) leaf.now.ends }
        requires bench { IsBench (net_of net.now) self.old }
        ensures bench { IsBench (net_of net.now) self.new }
        ensures form { self.new.form ≡ self.old.form }
        ensures halvings { (b : Box) → AreEndsOf (net_of net.now) b leaf.now.ends
            → IfOk result (λ l. All (IsHalvingOf (net_of net.now) self.old.form b leaf.now.bound) l.items) }
    {
        let mut halvings = Vec::new(alloc);
        let mut race = Race::new(look.aim);
        for coord in best {
            if race.behind <= look.patience
                && *coord < coords(net)
                && can_cut(&leaf.ends.view(), *coord)
            {
                let found = self.halve_to_lead(alloc, net, leaf, *coord, &race)?;
                race.count(found.as_ref().map(|halving| halving.bounds));
                if let Some(halving) = found {
                    halvings.push(halving)?;
                }
            }
        }
        Ok(halvings)
    }
}

/// The coordinates of the greatest numbers above 0, the greatest first, and at a tie the first; at most as many as the look takes, and
/// behind the first none of a lesser number than it asks for.
fn ranked(alloc: Global, misses: &[u64], look: Look) -> Result<Vec<u32>, AllocError> {
    let mut best = Vec::new(alloc);
    let mut least = 1;
    for _ in 0..look.most {
        let mut greatest = 0;
        let mut found = u32::MAX;
        for (coord, miss) in misses.iter().enumerate() {
            let coord = u32::try_from(coord).unwrap_or(u32::MAX);
            if *miss > greatest && !best.contains(&coord) {
                greatest = *miss;
                found = coord;
            }
        }
        if greatest < least {
            return Ok(best);
        }
        best.push(found)?;
        least = look.least_miss;
    }
    Ok(best)
}
