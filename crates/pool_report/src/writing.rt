//! The report of a certificate.

ghost use Rattle.std.specs.Prelude.{◌≡◌, ◌<◌, OnErr};
ghost use Rattle.edge_io.specs.Counts.{Grows, Rose};
ghost use Rattle.edge_io.specs.Writing.{Wrote};
ghost use Rattle.pool_model.specs.Network.{net_of};
ghost use Rattle.pool_model.specs.Plan.{IsWritten, Obeys, plan_of};
ghost use Rattle.plan_core.specs.Views.{shown_plan};
ghost use Rattle.cert_format.specs.Views.{shown_claim};
ghost use Rattle.pool_report.specs.Report.{IsReported, plan_lines, report_text};

use crate::claims::{write_bound, write_gap};
use crate::flows::write_flows;
use crate::means::write_means;
use crate::slacks::write_slacks;
use blend_network::Network;
use cert_format::Claim;
use edge_io::{Sink, WriteFault, write_whole};
use plan_core::WrittenPlan;
use text_buffer::TextBuffer;

/// Writes the report of a certificate of the network, handed on as one piece where it is short. It takes no memory.
///
/// `WriteFault` comes only where the sink's count of faults rose; the sink has taken a front of the text then. For each arc it goes once over the
/// arcs, and for each product and quality once over the arcs for each arc.
pub fn report<K: Sink>(net: &Network, claim: &Claim, out: &mut K) -> Result<(), WriteFault>
    requires { IsReported (net_of net.now) (shown_claim claim.now) }
    // Promise: A report is the text of the definition, rounded as it says, or a front of it where the sink fails
    ensures wrote { Wrote result (K.taken out.old) (report_text net.now (shown_claim claim.now)) (K.taken out.new) }
    ensures failed { OnErr result (Rose (K.faults out.old) (K.faults out.new)) }
    ensures faults_grow { Grows (K.faults out.old) (K.faults out.new) }
{
    let mut text = TextBuffer::new();
    match put_report(net, claim, &mut text) {
        Ok(()) => write_whole(out, text.text()),
        Err(_) => put_report(net, claim, out),
    }
}

/// The report, part by part.
fn put_report<K: Sink>(net: &Network, claim: &Claim, out: &mut K) -> Result<(), WriteFault>
    requires { IsReported (net_of net.now) (shown_claim claim.now) }
    ensures wrote { Wrote result (K.taken out.old) (report_text net.now (shown_claim claim.now)) (K.taken out.new) }
    ensures failed { OnErr result (Rose (K.faults out.old) (K.faults out.new)) }
    ensures faults_grow { Grows (K.faults out.old) (K.faults out.new) }
{
    match claim {
        Claim::Gap {
            plan,
            cost,
            base,
            bound,
            gap,
        } => {
            write_gap(*cost, *base, *bound, *gap, out)?;
            write_plan(net, plan, out)
        }
        Claim::Bound { bound } => write_bound(*bound, out),
        Claim::NoPlan => write_whole(out, b"kind none\n"),
    }
}

/// The lines of a plan: its flows, its means and its slacks.
fn write_plan<K: Sink>(net: &Network, plan: &WrittenPlan, out: &mut K) -> Result<(), WriteFault>
    requires written { IsWritten (net_of net.now) (shown_plan plan.now) }
    requires obeys { Obeys (net_of net.now) (plan_of (net_of net.now) (shown_plan plan.now)) }
    ensures wrote { Wrote result (K.taken out.old) (plan_lines net.now (plan_of (net_of net.now) (shown_plan plan.now))) (K.taken out.new) }
    ensures failed { OnErr result (Rose (K.faults out.old) (K.faults out.new)) }
    ensures faults_grow { Grows (K.faults out.old) (K.faults out.new) }
{
    write_flows(net, plan, out)?;
    write_means(net, plan, out)?;
    write_slacks(net, plan, out)
}
