//! What a certificate opens with: its plan, where one is claimed.

ghost use Rattle.std.specs.Prelude.{◌≡◌, OnOk};
ghost use Rattle.pool_model.specs.Network.{net_of, counts_of};
ghost use Rattle.plan_core.specs.Views.{shown_plan};
ghost use Rattle.cert_items.specs.declared.items.State.TheVariants as states;
ghost use Rattle.cert_stream.specs.Items.{shown_item, shaped_state};
ghost use Rattle.proof_lines.specs.Parts.{Takes};
ghost use Rattle.cert_checker.specs.Parts.{Never, with_number, IsPlan, IsOpening, IsWrongPlan, opening_cost};
ghost use Rattle.proof_lines.specs.Runs.{moment, IsReady};

use blend_network::Network;
use cert_format::reading::Kind;
use cert_stream::{CertReader, Item};
use plan_core::{Cost, WrittenPlan, check_plan};
use proof_lines::steps::{base_pair, next};
use proof_lines::{Refusal, StreamRefusal};
use shelf_calls::Shelf;
use std::alloc::{AllocError, Global};

/// What is claimed, before its numbers are read: the plan and what it costs, where a gap is claimed.
#[derive(Drop)]
pub(crate) enum Opening {
    Gap(WrittenPlan, Cost),
    Bound,
    NoPlan,
}

impl Opening {
    /// What the plan that is claimed costs, where there is one.
    pub(crate) fn cost(&self) -> Option<Cost>
        ensures { result ≡ opening_cost self.now }
    {
        match self {
            Opening::Gap(_, cost) => Some(*cost),
            Opening::Bound | Opening::NoPlan => None,
        }
    }
}

/// What is claimed, with the plan where there is one, which obeys; or the first rule that it breaks.
pub(crate) fn read_opening<S: Shelf>(
    alloc: Global,
    net: &Network,
    kind: Kind,
    reader: &mut CertReader,
    shelf: &mut S,
) -> Result<Opening, StreamRefusal>
    requires ready { IsReady (moment reader.old (S.told shelf.old)) (shaped_state kind (counts_of (net_of net.now))) }
    ensures { Takes (IsOpening (net_of net.now) kind) (IsWrongPlan (net_of net.now) kind)
        (moment reader.old (S.told shelf.old)) (moment reader.new (S.told shelf.new)) result }
{
    match kind {
        Kind::Gap => {
            let plan = plan(alloc, net, reader, shelf)?;
            match check_plan(net, &plan) {
                Ok(cost) => Ok(Opening::Gap(plan, cost)),
                Err(fault) => Err(StreamRefusal::Refused(Refusal::Plan(fault))),
            }
        }
        Kind::Bound => Ok(Opening::Bound),
        Kind::NoPlan => Ok(Opening::NoPlan),
    }
}

/// The plan, whose lists have the lengths of the network's counts.
fn plan<S: Shelf>(
    alloc: Global,
    net: &Network,
    reader: &mut CertReader,
    shelf: &mut S,
) -> Result<WrittenPlan, StreamRefusal>
    requires ready { IsReady (moment reader.old (S.told shelf.old)) (states.Bases (net_of net.now).feeds (net_of net.now).outs (net_of net.now).directs) }
    ensures { Takes (λ p. IsPlan (net_of net.now) (shown_plan p)) Never (moment reader.old (S.told shelf.old)) (moment reader.new (S.told shelf.new)) result }
{
    let (base, flow_base) = base_pair(reader, shelf)?;
    let mut plan = WrittenPlan {
        base,
        flow_base,
        weights: Vec::new(alloc),
        outflows: Vec::new(alloc),
        direct: Vec::new(alloc),
    };
    let sizes = net.sizes();
    for _ in 0..sizes.feeds + sizes.outs + sizes.directs {
        let number = next(reader, shelf)?;
        put(&mut plan, number)?;
    }
    Ok(plan)
}

/// Puts a weight or a flow of a plan behind those of its list. Another item changes nothing.
fn put(plan: &mut WrittenPlan, number: Item) -> Result<(), AllocError>
    ensures { OnOk result (shown_plan plan.new ≡ with_number (shown_plan plan.old) (shown_item number)) }
{
    match number {
        Item::Weight(weight) => plan.weights.push(weight)?,
        Item::Outflow(flow) => plan.outflows.push(flow)?,
        Item::Direct(flow) => plan.direct.push(flow)?,
        _ => {}
    }
    Ok(())
}
