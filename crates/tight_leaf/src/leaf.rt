//! The mark of a leaf.

ghost use Rattle.std.specs.Prelude.{◌≡◌, ◌<ℤ◌, IfOk, IfErr, IsTrue, option_map, pos, ℤ};
ghost use Rattle.pool_model.specs.Network.{net_of};
ghost use Rattle.pool_model.specs.Plan.{IsWritten, Obeys, plan_of};
ghost use Rattle.row_model.specs.Multipliers.{IsInOrder, number};
ghost use Rattle.box_space.specs.Views.{IsView, shown_box, shown_proof};
ghost use Rattle.plan_core.specs.Views.{shown_plan};
ghost use Rattle.row_book.specs.Faults.{IsFirstFault};
ghost use Rattle.row_book.specs.Fitting.{Fits as FitsNetwork};
ghost use Rattle.row_book.specs.PartSums.{AreInOrder};
ghost use Rattle.row_book.specs.declared.fault.ProofFault.TheVariants as faults;
ghost use Rattle.dual_rounding.specs.Programs.{form_rows};
ghost use Rattle.exact_run.specs.Runs.{IsEmpty, IsSolved};
ghost use Rattle.exact_pivots.specs.Runs.{Comes};
ghost use Rattle.exact_pivots.specs.Views.{program_of, state_of};
ghost use Rattle.tight_leaf.specs.Ends.{ComesOf, IsBoxMark, IsBoxStop, IsPlanAnswer, IsPlanGiven, IsRunMark, IsRunStop, IsStop};
ghost use Rattle.leaf_marks.specs.Marks.{IsMark};
ghost use Rattle.tight_leaf.specs.Programs.{IsBoxProgram};

use crate::plan_point::plan_point;
use crate::point::point_of;
use crate::program::{LeafProgram, leaf_program};
use crate::proof::{bound_proof, empty_proof};
use crate::stop::Stop;
use blend_network::Network;
use box_space::{BoxView, Form, LinRow, Proof};
use edge_io::Memory;
use exact_pivots::{Leaving, Run, Tableau, run_of};
use leaf_marks::{Mark, Reason};
use plan_core::WrittenPlan;
use relaxation_points::{RelaxPoint, is_light, is_witness};
use row_book::{Scratch, value};
use row_model::{cost_law, ends_law, row_law};
use run_laws::{empty_law, multipliers_law, point_law};
use std::alloc::{AllocError, Global};

/// Whether multipliers on a form's rows can show more of a box than a bound, in picos. A plan that lies in the box and costs less than one
/// pico above the bound decides; else the mark is what the exact run of the box gives, in at most so many pivots.
pub fn mark_leaf(
    alloc: Global,
    net: &Network,
    form: Form,
    v: &BoxView,
    bound: i128,
    plan: Option<&WrittenPlan>,
    pivots: u32,
    scratch: &mut Scratch,
) -> Result<Mark, Memory>
    requires view { IsView (net_of net.now) v.now }
    requires plan { IsPlanGiven (net_of net.now) (option_map (λ w. shown_plan w.now) plan) }
    requires fits { FitsNetwork (net_of net.now) scratch.old }
    // Promise: A mark says what it carries: a witness for the leaf's bound, a proof of a greater one with a witness, or a proof of no plan
    ensures mark { IfOk result (IsMark (net_of net.now) form (shown_box v.now) bound pivots) }
    // Promise: A leaf whose box holds the place of a plan that costs less than one pico above the bound is tight, and no leaf is loose but
    //   for a reason that the exact run of its box gives
    ensures comes { IfOk result (ComesOf (net_of net.now) form (shown_box v.now) bound (option_map (λ w. shown_plan w.now) plan.entry) pivots) }
    ensures fits { FitsNetwork (net_of net.now) scratch.new }
{
    match marked(alloc, net, form, v, bound, plan, pivots, scratch) {
        Ok(mark) => Ok(mark),
        Err(Stop::Loose(reason)) => Ok(Mark::Loose(reason)),
        Err(Stop::Memory) => Err(Memory),
    }
}

/// The mark by the plan, or else by the run.
fn marked(
    alloc: Global,
    net: &Network,
    form: Form,
    v: &BoxView,
    bound: i128,
    plan: Option<&WrittenPlan>,
    pivots: u32,
    scratch: &mut Scratch,
) -> Result<Mark, Stop>
    requires view { IsView (net_of net.now) v.now }
    requires plan { IsPlanGiven (net_of net.now) (option_map (λ w. shown_plan w.now) plan) }
    requires fits { FitsNetwork (net_of net.now) scratch.old }
    ensures mark { IfOk result (IsMark (net_of net.now) form (shown_box v.now) bound pivots) }
    ensures comes { IfOk result (ComesOf (net_of net.now) form (shown_box v.now) bound (option_map (λ w. shown_plan w.now) plan.entry) pivots) }
    ensures stop { IfErr result (IsStop (net_of net.now) form (shown_box v.now) bound (option_map (λ w. shown_plan w.now) plan.entry) pivots) }
    ensures fits { FitsNetwork (net_of net.now) scratch.new }
{
    let mut row = LinRow::new(alloc)?;
    if let Some(plan) = plan {
        if let Some(point) = witness_of(alloc, net, form, v, bound, plan, &mut row)? {
            return Ok(Mark::Tight(point));
        }
    }
    by_run(alloc, net, form, v, bound, pivots, &mut row, scratch)
}

/// The plan's point, where it is a witness.
fn witness_of(
    alloc: Global,
    net: &Network,
    form: Form,
    v: &BoxView,
    bound: i128,
    plan: &WrittenPlan,
    row: &mut LinRow,
) -> Result<Option<RelaxPoint>, AllocError>
    requires view { IsView (net_of net.now) v.now }
    requires written { IsWritten (net_of net.now) (shown_plan plan.now) }
    requires obeys { Obeys (net_of net.now) (plan_of (net_of net.now) (shown_plan plan.now)) }
    ensures { IfOk result (IsPlanAnswer (net_of net.now) form (shown_box v.now) bound (shown_plan plan.now)) }
{
    let point = plan_point(alloc, net, plan)?;
    ends_law();
    row_law();
    cost_law();
    if is_witness(net, form, v, bound, &point, row) {
        Ok(Some(point))
    } else {
        Ok(None)
    }
}

/// The mark by the run of the box.
fn by_run(
    alloc: Global,
    net: &Network,
    form: Form,
    v: &BoxView,
    bound: i128,
    pivots: u32,
    row: &mut LinRow,
    scratch: &mut Scratch,
) -> Result<Mark, Stop>
    requires view { IsView (net_of net.now) v.now }
    requires fits { FitsNetwork (net_of net.now) scratch.old }
    ensures mark { IfOk result (IsMark (net_of net.now) form (shown_box v.now) bound pivots) }
    ensures comes { IfOk result (IsBoxMark (net_of net.now) form (shown_box v.now) pivots) }
    ensures stop { IfErr result (IsBoxStop (net_of net.now) form (shown_box v.now) pivots) }
    ensures fits { FitsNetwork (net_of net.now) scratch.new }
{
    let leaf = leaf_program(alloc, net, form, v)?;
    match run_of(alloc, &leaf.program, pivots)? {
        Run::Solved(tableau) => solved(
            alloc, net, form, v, bound, pivots, &leaf, &tableau, row, scratch,
        ),
        Run::Empty(tableau, leaving) => {
            empty(
                alloc, net, form, v, pivots, &leaf, &tableau, leaving, scratch,
            )
        }
        Run::Pivots => Ok(Mark::Loose(Reason::Pivots(pivots))),
        Run::Wide(wide) => Ok(Mark::Loose(Reason::Wide(wide))),
    }
}

/// The mark of a run that ends with a point, within so many pivots.
fn solved(
    alloc: Global,
    net: &Network,
    form: Form,
    v: &BoxView,
    bound: i128,
    pivots: u32,
    leaf: &LeafProgram,
    tableau: &Tableau,
    row: &mut LinRow,
    scratch: &mut Scratch,
) -> Result<Mark, Stop>
    requires view { IsView (net_of net.now) v.now }
    requires program { IsBoxProgram (net_of net.now) form (shown_box v.now) (program_of leaf.now.program) }
    requires rows { leaf.now.rows.items ≡ form_rows (net_of net.now) form }
    requires comes { Comes (program_of leaf.now.program) pivots tableau.now }
    requires solved { IsSolved (program_of leaf.now.program) (state_of tableau.now) }
    requires fits { FitsNetwork (net_of net.now) scratch.old }
    ensures mark { IfOk result (IsMark (net_of net.now) form (shown_box v.now) bound pivots) }
    ensures run { IfOk result (IsRunMark (net_of net.now) form (program_of leaf.now.program) pivots) }
    ensures stop { IfErr result (IsRunStop (net_of net.now) form (shown_box v.now) (program_of leaf.now.program) pivots) }
    ensures fits { FitsNetwork (net_of net.now) scratch.new }
{
    point_law();
    multipliers_law();
    let point = point_of(alloc, &leaf.program, tableau)?;
    if !is_light(net, form, v, &point, row) {
        return Ok(Mark::Loose(Reason::HeavyPoint(point)));
    }
    if is_witness(net, form, v, bound, &point, row) {
        return Ok(Mark::Tight(point));
    }
    let proof = bound_proof(alloc, leaf, tableau)?;
    if is_narrow(net, v, &proof, scratch) {
        Ok(Mark::Raised(proof, point))
    } else {
        Ok(Mark::Loose(Reason::HeavyProof(proof)))
    }
}

/// The mark of a run that ends without a point, within so many pivots.
fn empty(
    alloc: Global,
    net: &Network,
    form: Form,
    v: &BoxView,
    pivots: u32,
    leaf: &LeafProgram,
    tableau: &Tableau,
    leaving: Leaving,
    scratch: &mut Scratch,
) -> Result<Mark, Stop>
    requires view { IsView (net_of net.now) v.now }
    requires program { IsBoxProgram (net_of net.now) form (shown_box v.now) (program_of leaf.now.program) }
    requires rows { leaf.now.rows.items ≡ form_rows (net_of net.now) form }
    requires comes { Comes (program_of leaf.now.program) pivots tableau.now }
    requires empty { IsEmpty (program_of leaf.now.program) (state_of tableau.now) leaving.place leaving.side leaving.end }
    requires fits { FitsNetwork (net_of net.now) scratch.old }
    ensures mark { IfOk result (λ mark. (bound : ℤ) → IsMark (net_of net.now) form (shown_box v.now) bound pivots mark) }
    ensures run { IfOk result (IsRunMark (net_of net.now) form (program_of leaf.now.program) pivots) }
    ensures stop { IfErr result (IsRunStop (net_of net.now) form (shown_box v.now) (program_of leaf.now.program) pivots) }
    ensures fits { FitsNetwork (net_of net.now) scratch.new }
{
    empty_law();
    let proof = empty_proof(alloc, leaf, tableau, leaving)?;
    if is_narrow(net, v, &proof, scratch) {
        Ok(Mark::Empty(proof))
    } else {
        Ok(Mark::Loose(Reason::HeavyProof(proof)))
    }
}

/// Whether a proof that can have no other fault is not too wide.
fn is_narrow(net: &Network, v: &BoxView, proof: &Proof, scratch: &mut Scratch) -> bool
    requires view { IsView (net_of net.now) v.now }
    requires fits { FitsNetwork (net_of net.now) scratch.old }
    requires order { AreInOrder (net_of net.now) (shown_box v.now) (shown_proof proof.now) }
    requires shows { proof.now.scale ≡ 0 → pos 0 <ℤ number (net_of net.now) (shown_box v.now) (shown_proof proof.now) }
    ensures narrow { IsTrue result → IsInOrder (net_of net.now) (shown_box v.now) (shown_proof proof.now) }
    ensures wide { ¬ IsTrue result → IsFirstFault (net_of net.now) (shown_box v.now) (shown_proof proof.now) faults.Wide }
    ensures fits { FitsNetwork (net_of net.now) scratch.new }
{
    match value(net, v, proof, scratch) {
        Ok(_) => true,
        Err(_) => false,
    }
}
