//! The memory that boxes are proved in.

ghost use Rattle.std.specs.Prelude.{◌≡◌, IfOk, option_map, vec_len};
ghost use Rattle.pool_model.specs.Network.{IsLimited, net_of};
ghost use Rattle.row_model.specs.Boxes.{Box};
ghost use Rattle.row_model.specs.Multipliers.{bound as shows};
ghost use Rattle.box_space.specs.Views.{shown_box_ends, shown_proof, AreEnds, AreEndsOf};
ghost use Rattle.box_space.specs.declared.coordinates.Form as forms;
ghost use Rattle.dual_rounding.specs.Programs.{IsProgramOf};
ghost use Rattle.dual_rounding.specs.Rooms.{Serves};
ghost use Rattle.leaf_cuts.specs.Benches.{IsBench};
ghost use Rattle.leaf_cuts.specs.Given.{IsGiven};

use crate::solved::SolvedCut;
use blend_network::Network;
use box_space::{BoxEnds, Form, Proof};
use dual_rounding::{Relaxation, Rounding};
use edge_io::Memory;
use lp_simplex::{Advice, Lp, advise, advise_from, advise_within};
use row_book::Shown;
use std::alloc::Global;

/// How often the basis of a half's program may change at the most while it is looked at. In networks of some dozens of arcs most end before;
/// in those of 500 paths a half takes some 200, and half as many tell well enough which cut leads (docs/SEARCH.md).
const LOOK_PIVOTS: u32 = 100;

/// How far a program is solved.
#[derive(Clone, Copy)]
pub(crate) enum Effort {
    /// To its end.
    Whole,
    /// As far as a look needs it.
    Look,
}

/// A program of a form, which is written over for box after box, and the memory of rounding.
#[derive(Drop)]
pub struct Bench {
    pub form: Form,
    /// How often a program's basis may change at the most.
    pivots: u32,
    pub(crate) relaxation: Relaxation,
    pub(crate) rounding: Rounding,
    /// The cuts of which both halves are solved.
    pub(crate) solved: Vec<SolvedCut>,
}

/// What came of a box: what rounding gives, what is known of it then, and where its program ended.
#[derive(Drop)]
pub(crate) struct Proved {
    pub(crate) proof: Option<Proof>,
    /// In picos: None where it holds no plan.
    pub(crate) bound: Option<i128>,
    pub(crate) basis: Vec<u32>,
    /// Whether the program came to its end.
    pub(crate) is_final: bool,
}

impl Bench {
    /// A bench whose program is that of a box.
    pub(crate) fn new(
        alloc: Global,
        net: &Network,
        form: Form,
        pivots: u32,
        ends: &BoxEnds,
    ) -> Result<Bench, Memory>
        requires { AreEnds (net_of net.now) ends.now }
        ensures bench { IfOk result (IsBench (net_of net.now)) }
        ensures form { IfOk result (λ b. b.form ≡ form) }
        ensures program { IfOk result (λ b. IsProgramOf (net_of net.now) form (shown_box_ends ends.now) b.relaxation) }
    {
        let view = ends.view();
        Ok(Bench {
            form,
            pivots,
            relaxation: Relaxation::new(alloc, net, form, &view)?,
            rounding: Rounding::new(alloc, net)?,
            solved: Vec::new(alloc),
        })
    }

    /// The program that stands.
    pub(crate) fn program(&self) -> &Lp
        ensures { result.now ≡ self.now.relaxation }
    {
        self.relaxation.program()
    }

    /// Advice on the program that stands, from nothing.
    pub(crate) fn advise(&self, alloc: Global) -> Result<Advice, Memory>
        ensures { IfOk result (λ a. vec_len a.point ≡ vec_len self.now.relaxation.low) }
    {
        advise(alloc, self.relaxation.program(), self.pivots)
    }

    /// Advice on the program that stands, from a basis.
    pub(crate) fn advise_from(&self, alloc: Global, basis: &[u32]) -> Result<Advice, Memory>
        ensures { IfOk result (λ a. vec_len a.point ≡ vec_len self.now.relaxation.low) }
    {
        advise_from(alloc, self.relaxation.program(), basis, self.pivots)
    }

    /// The same as far as is asked for, and whether the program came to its end.
    fn advise_by(
        &self,
        alloc: Global,
        basis: &[u32],
        effort: Effort,
    ) -> Result<(Advice, bool), Memory> {
        match effort {
            Effort::Whole => Ok((self.advise_from(alloc, basis)?, true)),
            Effort::Look => {
                let most = self.pivots.min(LOOK_PIVOTS);
                advise_within(alloc, self.relaxation.program(), basis, most)
            }
        }
    }

    /// Writes the program of another box.
    fn move_to(&mut self, net: &Network, ends: &BoxEnds) -> Result<(), Memory>
        requires ends { AreEnds (net_of net.now) ends.now }
        requires bench { IsBench (net_of net.now) self.old }
        ensures bench { IsBench (net_of net.now) self.new }
        ensures form { self.new.form ≡ self.old.form }
        ensures program { IfOk result (λ _. IsProgramOf (net_of net.now) self.old.form (shown_box_ends ends.now) self.new.relaxation) }
    {
        let view = ends.view();
        self.relaxation.move_to(net, &view)
    }

    /// What rounding gives of an advice on the program that stands, which is that of the box, above a bound.
    pub(crate) fn round(
        &mut self,
        net: &Network,
        ends: &BoxEnds,
        advice: &Advice,
        bound: i128,
    ) -> Result<Option<Proof>, Memory>
        requires limited { IsLimited (net_of net.now) }
        requires ends { AreEnds (net_of net.now) ends.now }
        requires bench { IsBench (net_of net.now) self.old }
        ensures bench { IsBench (net_of net.now) self.new }
        ensures form { self.new.form ≡ self.old.form }
        ensures given { (b : Box) → IsProgramOf (net_of net.now) self.old.form (shown_box_ends ends.now) self.old.relaxation
            → AreEndsOf (net_of net.now) b ends.now → IfOk result (λ o. IsGiven (net_of net.now) self.old.form b (shows bound) (option_map shown_proof o)) }
    {
        let relaxation = &self.relaxation;
        round_on(&mut self.rounding, net, ends, relaxation, advice, bound)
    }

    /// What rounding gives for another box above a bound, of an advice from a basis.
    pub(crate) fn prove(
        &mut self,
        alloc: Global,
        net: &Network,
        ends: &BoxEnds,
        basis: &[u32],
        bound: i128,
        effort: Effort,
    ) -> Result<Proved, Memory>
        requires limited { IsLimited (net_of net.now) }
        requires ends { AreEnds (net_of net.now) ends.now }
        requires bench { IsBench (net_of net.now) self.old }
        ensures bench { IsBench (net_of net.now) self.new }
        ensures form { self.new.form ≡ self.old.form }
        ensures given { (b : Box) → AreEndsOf (net_of net.now) b ends.now
            → IfOk result (λ p. IsGiven (net_of net.now) self.old.form b (shows bound) (option_map shown_proof p.proof)) }
    {
        self.move_to(net, ends)?;
        let (advice, is_final) = self.advise_by(alloc, basis, effort)?;
        let proof = self.round(net, ends, &advice, bound)?;
        Ok(Proved {
            proof,
            bound: self.worth(),
            basis: advice.basis,
            is_final,
        })
    }

    /// The cuts of which both halves are solved, without the bench.
    pub fn into_solved(self) -> Vec<SolvedCut> {
        self.solved
    }

    /// What is known of the box that was rounded last, in picos: what the proof shows, or the bound. None where it holds no plan.
    fn worth(&self) -> Option<i128> {
        match self.rounding.known() {
            Shown::Bound(bound) => Some(bound),
            Shown::NoPlan => None,
        }
    }
}

/// What rounding gives of an advice on a program, which is that of the box, above a bound.
fn round_on(
    rounding: &mut Rounding,
    net: &Network,
    ends: &BoxEnds,
    relaxation: &Relaxation,
    advice: &Advice,
    bound: i128,
) -> Result<Option<Proof>, Memory>
    requires limited { IsLimited (net_of net.now) }
    requires ends { AreEnds (net_of net.now) ends.now }
    requires serves { Serves (net_of net.now) rounding.old }
    ensures serves { Serves (net_of net.now) rounding.new }
    ensures given { (form : forms.Form) (b : Box) → IsProgramOf (net_of net.now) form (shown_box_ends ends.now) relaxation.now
        → AreEndsOf (net_of net.now) b ends.now → IfOk result (λ o. IsGiven (net_of net.now) form b (shows bound) (option_map shown_proof o)) }
{
    let view = ends.view();
    let program = relaxation.program();
    rounding.round(net, &view, program, advice, Shown::Bound(bound))
}
