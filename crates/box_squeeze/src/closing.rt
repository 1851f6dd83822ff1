//! Pieces that are closed: a proof shows that they hold no plan, or none that costs less than a target.

ghost use Rattle.std.specs.Prelude.{◌≡◌, ◌↔◌, ◌^◌, IsTrue, IfOk, IfSome, IfNone, option_map, pos, neg_ℤ, ◌-ℤ◌, ◌<ℤ◌};
ghost use Rattle.pool_model.specs.Network.{IsLimited, net_of};
ghost use Rattle.row_model.specs.Boxes as boxes;
ghost use Rattle.row_model.specs.Boxes.{Box};
ghost use Rattle.row_model.specs.Multipliers.{IsInOrder, bound as shows};
ghost use Rattle.box_space.specs.Views.{shown_box_ends, shown_proof, AreEnds, AreEndsOf};
ghost use Rattle.row_book.specs.Fitting.{Fits};
ghost use Rattle.row_book.specs.Views.{shown_value};
ghost use Rattle.dual_rounding.specs.Answers.{IsAtMost};
ghost use Rattle.leaf_cuts.specs.Given.{IsGiven};
ghost use Rattle.box_squeeze.specs.Pieces.{HasPieces, piece_of};
ghost use Rattle.box_squeeze.specs.Squeezes as empties;
ghost use Rattle.box_squeeze.specs.Squeezes.{Closes, HasNoEmpty, IsClosed, Reaches};

use crate::piece::{Parts, Side, has_pieces, parts_at};
use blend_network::Network;
use box_space::{BoxEnds, Form, Proof};
use dual_rounding::{lp_of, round};
use edge_io::Memory;
use lp_simplex::advise_from;
use row_book::{Scratch, Shown, value};
use std::alloc::Global;

/// A piece of a box with a proof that closes it, where it is cut off, and the ends of what is kept.
#[derive(Drop)]
pub(crate) struct Closed {
    pub(crate) coord: u32,
    pub(crate) side: Side,
    pub(crate) cut: i64,
    pub(crate) proof: Proof,
    pub(crate) kept: BoxEnds,
}

/// A box whose pieces are tried.
#[derive(Drop)]
pub(crate) struct Range {
    /// The form of the programs, whose coordinates have pieces.
    pub(crate) form: Form,
    pub(crate) ends: BoxEnds,
    /// How many coordinates there are.
    pub(crate) coords: u32,
    /// What a plan has to cost less than to matter, in picos.
    pub(crate) target: i128,
    /// How often a program's basis may change at the most.
    pub(crate) pivots: u32,
}

impl Range {
    /// A piece that is closed: the first whose empty proof shows the target, and else the first that a program closes.
    pub(crate) fn closed(
        &self,
        alloc: Global,
        net: &Network,
        basis: &[u32],
    ) -> Result<Option<Closed>, Memory>
        requires limited { IsLimited (net_of net.now) }
        requires ends { AreEnds (net_of net.now) self.now.ends }
        requires coords { self.now.coords ≡ boxes.coords (net_of net.now) }
        requires target { neg_ℤ (pos (2 ^ 120)) <ℤ self.now.target }
        ensures some { (b : Box) → AreEndsOf (net_of net.now) b self.now.ends → IfOk result (λ o. IfSome o (IsClosed (net_of net.now) self.now.form b self.now.target)) }
        ensures none { (b : Box) → AreEndsOf (net_of net.now) b self.now.ends → IfOk result (λ o. IfNone o (HasNoEmpty (net_of net.now) self.now.form b self.now.target)) }
    {
        match self.closed_by_none(alloc, net, basis)? {
            Some(closed) => Ok(Some(closed)),
            None => self.closed_by_program(alloc, net, basis),
        }
    }

    /// The first piece whose empty proof shows the target.
    pub(crate) fn closed_by_none(
        &self,
        alloc: Global,
        net: &Network,
        basis: &[u32],
    ) -> Result<Option<Closed>, Memory>
        requires limited { IsLimited (net_of net.now) }
        requires ends { AreEnds (net_of net.now) self.now.ends }
        requires coords { self.now.coords ≡ boxes.coords (net_of net.now) }
        requires target { neg_ℤ (pos (2 ^ 120)) <ℤ self.now.target }
        ensures some { (b : Box) → AreEndsOf (net_of net.now) b self.now.ends → IfOk result (λ o. IfSome o (IsClosed (net_of net.now) self.now.form b self.now.target)) }
        ensures none { (b : Box) → AreEndsOf (net_of net.now) b self.now.ends → IfOk result (λ o. IfNone o (HasNoEmpty (net_of net.now) self.now.form b self.now.target)) }
    {
        let mut scratch = Scratch::new(alloc, net)?;
        for coord in 0..self.coords {
            if let Some(closed) = self.either(alloc, net, &mut scratch, basis, coord)? {
                return Ok(Some(closed));
            }
        }
        Ok(None)
    }

    /// The first piece of a coordinate whose empty proof shows the target, where it has pieces.
    fn either(
        &self,
        alloc: Global,
        net: &Network,
        scratch: &mut Scratch,
        basis: &[u32],
        coord: u32,
    ) -> Result<Option<Closed>, Memory>
        requires limited { IsLimited (net_of net.now) }
        requires ends { AreEnds (net_of net.now) self.now.ends }
        requires target { neg_ℤ (pos (2 ^ 120)) <ℤ self.now.target }
        requires fits { Fits (net_of net.now) scratch.old }
        ensures some { (b : Box) → AreEndsOf (net_of net.now) b self.now.ends → IfOk result (λ o. IfSome o (IsClosed (net_of net.now) self.now.form b self.now.target)) }
        ensures none { (b : Box) → AreEndsOf (net_of net.now) b self.now.ends → IfOk result (λ o. IfNone o ((side : Side) → HasPieces (net_of net.now) self.now.form b coord
            → ¬ Reaches (net_of net.now) (piece_of b side coord) self.now.target empties.empty)) }
        ensures fits { Fits (net_of net.now) scratch.new }
    {
        if !has_pieces(net, self.form, &self.ends, coord) {
            return Ok(None);
        }
        if let Some(closed) = self.without_rows(alloc, net, scratch, basis, coord, Side::Left)? {
            return Ok(Some(closed));
        }
        let right = self.without_rows(alloc, net, scratch, basis, coord, Side::Right)?;
        Ok(right)
    }

    /// The piece of a side, where its empty proof shows the target.
    fn without_rows(
        &self,
        alloc: Global,
        net: &Network,
        scratch: &mut Scratch,
        basis: &[u32],
        coord: u32,
        side: Side,
    ) -> Result<Option<Closed>, Memory>
        requires limited { IsLimited (net_of net.now) }
        requires ends { AreEnds (net_of net.now) self.now.ends }
        requires target { neg_ℤ (pos (2 ^ 120)) <ℤ self.now.target }
        requires pieces { HasPieces (net_of net.now) self.now.form (shown_box_ends self.now.ends) coord }
        requires fits { Fits (net_of net.now) scratch.old }
        ensures some { (b : Box) → AreEndsOf (net_of net.now) b self.now.ends → IfOk result (λ o. IfSome o (IsClosed (net_of net.now) self.now.form b self.now.target)) }
        ensures none { (b : Box) → AreEndsOf (net_of net.now) b self.now.ends → IfOk result (λ o. IfNone o (¬ Reaches (net_of net.now) (piece_of b side coord) self.now.target empties.empty)) }
        ensures fits { Fits (net_of net.now) scratch.new }
    {
        let parts = parts_at(alloc, net, self.form, &self.ends, coord, side)?;
        let empty = empty_proof(alloc);
        if !reaches(net, &parts.piece, &empty, self.target, scratch) {
            return Ok(None);
        }
        let proof = self.proof_or_empty(alloc, net, &parts.piece, basis, empty)?;
        let Parts { cut, kept, .. } = parts;
        Ok(Some(Closed {
            coord,
            side,
            cut,
            proof,
            kept,
        }))
    }

    /// A proof that closes a box whose empty proof shows the target: that of its program, where it shows the target, and else the empty one.
    fn proof_or_empty(
        &self,
        alloc: Global,
        net: &Network,
        ends: &BoxEnds,
        basis: &[u32],
        empty: Proof,
    ) -> Result<Proof, Memory>
        requires limited { IsLimited (net_of net.now) }
        requires ends { AreEnds (net_of net.now) ends.now }
        requires target { neg_ℤ (pos (2 ^ 120)) <ℤ self.now.target }
        requires empty { shown_proof empty ≡ empties.empty }
        requires reaches { Reaches (net_of net.now) (shown_box_ends ends.now) self.now.target (shown_proof empty) }
        ensures { (b : Box) → AreEndsOf (net_of net.now) b ends.now → IfOk result (λ p. Closes (net_of net.now) self.now.form b self.now.target (shown_proof p)) }
    {
        match self.closing_proof(alloc, net, ends, basis)? {
            Some(proof) => Ok(proof),
            None => Ok(empty),
        }
    }

    /// The first piece whose program, from a basis, gives a proof that shows the target.
    fn closed_by_program(
        &self,
        alloc: Global,
        net: &Network,
        basis: &[u32],
    ) -> Result<Option<Closed>, Memory>
        requires limited { IsLimited (net_of net.now) }
        requires ends { AreEnds (net_of net.now) self.now.ends }
        requires target { neg_ℤ (pos (2 ^ 120)) <ℤ self.now.target }
        ensures { (b : Box) → AreEndsOf (net_of net.now) b self.now.ends → IfOk result (λ o. IfSome o (IsClosed (net_of net.now) self.now.form b self.now.target)) }
    {
        for coord in 0..self.coords {
            if has_pieces(net, self.form, &self.ends, coord) {
                let left = self.by_program(alloc, net, basis, coord, Side::Left)?;
                if left.is_some() {
                    return Ok(left);
                }
                let right = self.by_program(alloc, net, basis, coord, Side::Right)?;
                if right.is_some() {
                    return Ok(right);
                }
            }
        }
        Ok(None)
    }

    /// The piece of a side, where its program, from a basis, gives a proof that shows the target.
    pub(crate) fn by_program(
        &self,
        alloc: Global,
        net: &Network,
        basis: &[u32],
        coord: u32,
        side: Side,
    ) -> Result<Option<Closed>, Memory>
        requires limited { IsLimited (net_of net.now) }
        requires ends { AreEnds (net_of net.now) self.now.ends }
        requires target { neg_ℤ (pos (2 ^ 120)) <ℤ self.now.target }
        requires pieces { HasPieces (net_of net.now) self.now.form (shown_box_ends self.now.ends) coord }
        ensures { (b : Box) → AreEndsOf (net_of net.now) b self.now.ends → IfOk result (λ o. IfSome o (IsClosed (net_of net.now) self.now.form b self.now.target)) }
    {
        let parts = parts_at(alloc, net, self.form, &self.ends, coord, side)?;
        let Some(proof) = self.closing_proof(alloc, net, &parts.piece, basis)? else {
            return Ok(None);
        };
        let Parts { cut, kept, .. } = parts;
        Ok(Some(Closed {
            coord,
            side,
            cut,
            proof,
            kept,
        }))
    }

    /// What rounding gives for a box above a pico less than the target.
    fn closing_proof(
        &self,
        alloc: Global,
        net: &Network,
        ends: &BoxEnds,
        basis: &[u32],
    ) -> Result<Option<Proof>, Memory>
        requires limited { IsLimited (net_of net.now) }
        requires ends { AreEnds (net_of net.now) ends.now }
        requires target { neg_ℤ (pos (2 ^ 120)) <ℤ self.now.target }
        ensures { (b : Box) → AreEndsOf (net_of net.now) b ends.now
            → IfOk result (λ o. IsGiven (net_of net.now) self.now.form b (shows (self.now.target -ℤ pos 1)) (option_map shown_proof o)) }
    {
        self.proof_of(alloc, net, ends, basis, self.target - 1)
    }

    /// What rounding gives for a box above a bound, of an advice on its program from a basis.
    pub(crate) fn proof_of(
        &self,
        alloc: Global,
        net: &Network,
        ends: &BoxEnds,
        basis: &[u32],
        bound: i128,
    ) -> Result<Option<Proof>, Memory>
        requires limited { IsLimited (net_of net.now) }
        requires ends { AreEnds (net_of net.now) ends.now }
        ensures { (b : Box) → AreEndsOf (net_of net.now) b ends.now → IfOk result (λ o. IsGiven (net_of net.now) self.now.form b (shows bound) (option_map shown_proof o)) }
    {
        let view = ends.view();
        let program = lp_of(alloc, net, self.form, &view)?;
        let advice = advise_from(alloc, &program, basis, self.pivots)?;
        round(alloc, net, &view, &program, &advice, Shown::Bound(bound))
    }
}

/// Whether a proof is in order in a box, and shows the target of it.
fn reaches(
    net: &Network,
    ends: &BoxEnds,
    proof: &Proof,
    target: i128,
    scratch: &mut Scratch,
) -> bool
    requires ends { AreEnds (net_of net.now) ends.now }
    requires fits { Fits (net_of net.now) scratch.old }
    ensures yes { IsTrue result → Reaches (net_of net.now) (shown_box_ends ends.now) target (shown_proof proof.now) }
    ensures no { ¬ IsTrue result → IsInOrder (net_of net.now) (shown_box_ends ends.now) (shown_proof proof.now)
        → ¬ Reaches (net_of net.now) (shown_box_ends ends.now) target (shown_proof proof.now) }
    ensures fits { Fits (net_of net.now) scratch.new }
{
    let view = ends.view();
    match value(net, &view, proof, scratch) {
        Ok(shown) => is_at_least(shown, target),
        Err(_) => false,
    }
}

/// Whether what is shown of a box is at least a target.
fn is_at_least(shown: Shown, target: i128) -> bool
    ensures { IsTrue result ↔ IsAtMost (shows target) (shown_value shown) }
{
    match shown {
        Shown::Bound(bound) => target <= bound,
        Shown::NoPlan => true,
    }
}

/// The proof of scale 1 without parts.
fn empty_proof(alloc: Global) -> Proof
    ensures { shown_proof result ≡ empties.empty }
{
    Proof {
        scale: 1,
        parts: Vec::new(alloc),
    }
}
