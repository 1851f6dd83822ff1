//! A cut of a leaf, with the proofs of its halves.

ghost use Rattle.std.specs.Prelude.{◌≡◌, ◌<◌, All, IfOk, IfSome, ℤ, pos, ◌+ℤ◌, ◌-ℤ◌, ◌≤ℤ◌, ◌≤◌, ◌^◌, unsigned_abs, get_or};
ghost use Rattle.std.specs.Int.RustNames.{int_div};
ghost use Rattle.pool_model.specs.Network.{IsLimited, net_of, Net};
ghost use Rattle.row_model.specs.Boxes.{coords, Box};
ghost use Rattle.box_space.specs.Views.{shown_box_ends, AreEnds, AreEndsOf};
ghost use Rattle.box_space.specs.declared.coordinates.Form as forms;
ghost use Rattle.leaf_cuts.specs.Benches.{IsBench};
ghost use Rattle.leaf_cuts.specs.Halvings.{middle_at, IsHalvingOf};

use crate::bench::{Bench, Effort, Proved};
use crate::ends::ends_at;
use crate::leaf::Leaf;
use crate::looking::Race;
use crate::solved::SolvedCut;
use blend_network::Network;
use box_space::{Block, BoxEnds, Coord, Proof, coord_at, halves, variable_number};
use edge_io::Memory;
use lp_sparse::lookup::at;
use std::alloc::{AllocError, Global};

/// The bits behind the point in the numbers of an advice's point.
const POINT_BITS: u32 = 32;

/// A cut of a leaf in the middle of a coordinate, and what rounding gives for its halves.
#[derive(Drop)]
pub struct Halving {
    pub coord: u32,
    pub left: Option<Proof>,
    pub right: Option<Proof>,
    /// What is known of each half then, in picos: None where it holds no plan.
    pub bounds: [Option<i128>; 2],
    /// Whether the programs of both halves came to their ends.
    pub is_final: bool,
}

impl Bench {
    /// Cuts a leaf in the middle of a coordinate, and proves both halves: each from where its program ended in a look, or from the leaf's
    /// basis.
    pub(crate) fn halve(
        &mut self,
        alloc: Global,
        net: &Network,
        leaf: &Leaf,
        coord: u32,
    ) -> Result<Halving, Memory>
        requires limited { IsLimited (net_of net.now) }
        requires ends { AreEnds (net_of net.now) leaf.now.ends }
        requires bench { IsBench (net_of net.now) self.old }
        requires known { coord < coords (net_of net.now) }
        requires wide { (get_or leaf.now.ends.low.items coord (pos 0) +ℤ pos 2) ≤ℤ get_or leaf.now.ends.high.items coord (pos 0) }
        ensures coord { IfOk result (λ h. h.coord ≡ coord) }
        ensures bench { IsBench (net_of net.now) self.new }
        ensures form { self.new.form ≡ self.old.form }
        ensures halving { (b : Box) → AreEndsOf (net_of net.now) b leaf.now.ends → IfOk result (IsHalvingOf (net_of net.now) self.old.form b leaf.now.bound) }
    {
        let cut = middle(net, &leaf.ends, coord);
        let (below, above) = halves(alloc, &leaf.ends, coord, cut)?;
        let start = taken(&mut self.solved, coord);
        let (low, high) = starts(leaf, start.as_ref());
        let left = self.prove(alloc, net, &below, low, leaf.bound, Effort::Whole)?;
        let right = self.prove(alloc, net, &above, high, leaf.bound, Effort::Whole)?;
        let halving = kept(&mut self.solved, coord, left, right)?;
        Ok(halving)
    }

    /// The same from the leaf's basis, as far as a look needs it and as long as the cut may lead: none where the half that is proved first
    /// shows that it is worth no more than what leads. That is the half that holds the point of the leaf's program, since its bound rises the
    /// least as a rule.
    pub(crate) fn halve_to_lead(
        &mut self,
        alloc: Global,
        net: &Network,
        leaf: &Leaf,
        coord: u32,
        race: &Race,
    ) -> Result<Option<Halving>, Memory>
        requires limited { IsLimited (net_of net.now) }
        requires ends { AreEnds (net_of net.now) leaf.now.ends }
        requires bench { IsBench (net_of net.now) self.old }
        requires known { coord < coords (net_of net.now) }
        requires wide { (get_or leaf.now.ends.low.items coord (pos 0) +ℤ pos 2) ≤ℤ get_or leaf.now.ends.high.items coord (pos 0) }
        ensures bench { IsBench (net_of net.now) self.new }
        ensures form { self.new.form ≡ self.old.form }
        ensures halving { (b : Box) → AreEndsOf (net_of net.now) b leaf.now.ends
            → IfOk result (λ o. IfSome o (IsHalvingOf (net_of net.now) self.old.form b leaf.now.bound)) }
    {
        let cut = middle(net, &leaf.ends, coord);
        let (below, above) = halves(alloc, &leaf.ends, coord, cut)?;
        let basis = leaf.advice.basis.as_slice();
        if lies_below(net, leaf, coord, cut) {
            let left = self.prove(alloc, net, &below, basis, leaf.bound, Effort::Look)?;
            if race.is_lost(left.bound) {
                return Ok(None);
            }
            let right = self.prove(alloc, net, &above, basis, leaf.bound, Effort::Look)?;
            let halving = kept(&mut self.solved, coord, left, right)?;
            return Ok(Some(halving));
        }
        let right = self.prove(alloc, net, &above, basis, leaf.bound, Effort::Look)?;
        if race.is_lost(right.bound) {
            return Ok(None);
        }
        let left = self.prove(alloc, net, &below, basis, leaf.bound, Effort::Look)?;
        let halving = kept(&mut self.solved, coord, left, right)?;
        Ok(Some(halving))
    }

    /// The cut of a leaf at a coordinate: one of those that are there, where its programs came to their ends, or a new one.
    pub fn proved_at(
        &mut self,
        alloc: Global,
        net: &Network,
        leaf: &Leaf,
        halvings: Vec<Halving>,
        coord: u32,
    ) -> Result<Halving, Memory>
        requires limited { IsLimited (net_of net.now) }
        requires ends { AreEnds (net_of net.now) leaf.now.ends }
        requires bench { IsBench (net_of net.now) self.old }
        requires known { coord < coords (net_of net.now) }
        requires wide { (get_or leaf.now.ends.low.items coord (pos 0) +ℤ pos 2) ≤ℤ get_or leaf.now.ends.high.items coord (pos 0) }
        requires halvings { (b : Box) → AreEndsOf (net_of net.now) b leaf.now.ends → All (IsHalvingOf (net_of net.now) self.old.form b leaf.now.bound) halvings.items }
        ensures coord { IfOk result (λ h. h.coord ≡ coord) }
        // Promise: What a split adds is what rounding gives for both halves, cut in the middle, above the leaf's bound
        ensures halving { (b : Box) → AreEndsOf (net_of net.now) b leaf.now.ends → IfOk result (IsHalvingOf (net_of net.now) self.old.form b leaf.now.bound) }
    {
        if let Some(halving) = halving_at(halvings, coord) {
            if halving.is_final {
                return Ok(halving);
            }
        }
        self.halve(alloc, net, leaf, coord)
    }
}

/// The cut of a coordinate that is solved so far, out of the list.
fn taken(solved: &mut Vec<SolvedCut>, coord: u32) -> Option<SolvedCut> {
    let place = solved.iter().position(|cut| cut.coord == coord)?;
    Some(solved.remove(place))
}

/// Where the programs of a cut's halves start.
fn starts<'a>(leaf: &'a Leaf, start: Option<&'a SolvedCut>) -> (&'a [u32], &'a [u32]) {
    match start {
        None => {
            let basis = leaf.advice.basis.as_slice();
            (basis, basis)
        }
        Some(cut) => (cut.left.as_slice(), cut.right.as_slice()),
    }
}

/// The cut of a coordinate whose halves are proved; where their programs ended is added to what is solved.
fn kept(
    solved: &mut Vec<SolvedCut>,
    coord: u32,
    left: Proved,
    right: Proved,
) -> Result<Halving, AllocError>
    ensures coord { IfOk result (λ h. h.coord ≡ coord) }
    ensures left { IfOk result (λ h. h.left ≡ left.proof) }
    ensures right { IfOk result (λ h. h.right ≡ right.proof) }
{
    let bounds = [left.bound, right.bound];
    let is_final = left.is_final && right.is_final;
    solved.push(SolvedCut {
        coord,
        bounds,
        left: left.basis,
        right: right.basis,
    })?;
    Ok(Halving {
        coord,
        left: left.proof,
        right: right.proof,
        bounds,
        is_final,
    })
}

/// The middle of a box's ends at a coordinate, rounded down.
fn middle(net: &Network, ends: &BoxEnds, coord: u32) -> i64
    requires limited { IsLimited (net_of net.now) }
    requires ends { AreEnds (net_of net.now) ends.now }
    requires known { coord < coords (net_of net.now) }
    ensures { result ≡ middle_at (shown_box_ends ends.now) coord }
{
    let (low, high) = ends_at(net, ends, coord);
    between(low, high)
}

/// The middle of two ends, rounded down.
fn between(low: i64, high: i64) -> i64
    requires order { low ≤ℤ high }
    requires low { unsigned_abs low ≤ 10 ^ 12 }
    requires high { unsigned_abs high ≤ 10 ^ 12 }
    ensures { result ≡ low +ℤ int_div (high -ℤ low) (pos 2) }
{
    low + half(high - low)
}

/// Half a width, rounded down.
fn half(width: i64) -> i64
    requires { pos 0 ≤ℤ width }
    ensures half { result ≡ int_div width (pos 2) }
    ensures least { pos 0 ≤ℤ result }
    ensures most { result ≤ℤ width }
{
    width / 2
}

/// Whether the point of a leaf's program lies below a cut of one of its coordinates.
fn lies_below(net: &Network, leaf: &Leaf, coord: u32, cut: i64) -> bool
    requires { coord < coords (net_of net.now) }
{
    let variable = match coord_at(net, coord) {
        Coord::Prop(feed) => variable_number(net, Block::Proportions, feed),
        Coord::Qual(pool, quality) => variable_number(net, Block::Qualities(quality), pool),
        Coord::Flow(out) => variable_number(net, Block::Outs, out),
    };
    let place = at(leaf.advice.point.as_slice(), variable as usize, 0);
    place < i128::from(cut).unbounded_shl(POINT_BITS)
}

/// The first of some cuts that is at a coordinate, out of the list.
fn halving_at(halvings: Vec<Halving>, coord: u32) -> Option<Halving>
    ensures coord { IfSome result (λ h. h.coord ≡ coord) }
    ensures halving { (n : Net) (form : forms.Form) (b : Box) (least : ℤ) → All (IsHalvingOf n form b least) halvings.items → IfSome result (IsHalvingOf n form b least) }
{
    for halving in halvings {
        if halving.coord == coord {
            return Some(halving);
        }
    }
    None
}
