//! The lines of flows.

ghost use Rattle.std.specs.Prelude.{◌≡◌, ◌<◌, ◌≤◌, ◌^◌, ◌*◌, pos, OnErr};
ghost use Rattle.edge_io.specs.Counts.{Grows, Rose};
ghost use Rattle.edge_io.specs.Writing.{Wrote};
ghost use Rattle.pool_model.specs.Network.{net_of};
ghost use Rattle.pool_model.specs.Plan.{IsWritten, plan_of};
ghost use Rattle.plan_core.specs.Views.{shown_plan};
ghost use Rattle.text_pieces.specs.Pieces.{each_below};
ghost use Rattle.text_pieces.specs.Rounding.{rounded_down as down};
ghost use Rattle.pool_report.specs.Lines.{direct_line, feed_line, flow_line, out_line};
ghost use Rattle.pool_report.specs.Report.{flow_lines};

use blend_network::{Kind, Network};
use edge_io::{Sink, WriteFault};
use plan_core::WrittenPlan;
use plan_flows::{direct_flow, feed_flow, out_flow};
use text_pieces::{Piece, rounded_down, write_line};

/// A line for each arc: feeds, then outs, then directs.
pub(crate) fn write_flows<K: Sink>(
    net: &Network,
    plan: &WrittenPlan,
    out: &mut K,
) -> Result<(), WriteFault>
    requires { IsWritten (net_of net.now) (shown_plan plan.now) }
    ensures wrote { Wrote result (K.taken out.old) (flow_lines net.now (plan_of (net_of net.now) (shown_plan plan.now))) (K.taken out.new) }
    ensures failed { OnErr result (Rose (K.faults out.old) (K.faults out.new)) }
    ensures faults_grow { Grows (K.faults out.old) (K.faults out.new) }
{
    write_feeds(net, plan, out)?;
    write_outs(net, plan, out)?;
    write_directs(net, plan, out)
}

/// A line for each feed.
fn write_feeds<K: Sink>(net: &Network, plan: &WrittenPlan, out: &mut K) -> Result<(), WriteFault>
    requires { IsWritten (net_of net.now) (shown_plan plan.now) }
    ensures wrote { Wrote result (K.taken out.old) (each_below (feed_line net.now (plan_of (net_of net.now) (shown_plan plan.now))) (net_of net.now).feeds) (K.taken out.new) }
    ensures failed { OnErr result (Rose (K.faults out.old) (K.faults out.new)) }
    ensures faults_grow { Grows (K.faults out.old) (K.faults out.new) }
{
    let counts = net.sizes();
    for feed in 0..counts.feeds {
        write_feed(net, plan, feed, out)?;
    }
    Ok(())
}

/// What flows along a feed.
#[tactic(auto, unfolding(pool_model::specs::Network::net_of))]
fn write_feed<K: Sink>(
    net: &Network,
    plan: &WrittenPlan,
    feed: u32,
    out: &mut K,
) -> Result<(), WriteFault>
    requires written { IsWritten (net_of net.now) (shown_plan plan.now) }
    requires feed { feed < (net_of net.now).feeds }
    ensures wrote { Wrote result (K.taken out.old) (feed_line net.now (plan_of (net_of net.now) (shown_plan plan.now)) feed) (K.taken out.new) }
    ensures failed { OnErr result (Rose (K.faults out.old) (K.faults out.new)) }
    ensures faults_grow { Grows (K.faults out.old) (K.faults out.new) }
{
    let (source, pool) = net.feed(feed);
    let from = net.name(Kind::Source, source);
    let to = net.name(Kind::Pool, pool);
    let flow = units(feed_flow(net, plan, feed), plan);
    write_flow(flow, from, to, out)
}

/// A line for each out.
fn write_outs<K: Sink>(net: &Network, plan: &WrittenPlan, out: &mut K) -> Result<(), WriteFault>
    requires { IsWritten (net_of net.now) (shown_plan plan.now) }
    ensures wrote { Wrote result (K.taken out.old) (each_below (out_line net.now (plan_of (net_of net.now) (shown_plan plan.now))) (net_of net.now).outs) (K.taken out.new) }
    ensures failed { OnErr result (Rose (K.faults out.old) (K.faults out.new)) }
    ensures faults_grow { Grows (K.faults out.old) (K.faults out.new) }
{
    let counts = net.sizes();
    for arc in 0..counts.outs {
        write_out(net, plan, arc, out)?;
    }
    Ok(())
}

/// What flows along an out.
#[tactic(auto, unfolding(pool_model::specs::Network::net_of))]
fn write_out<K: Sink>(
    net: &Network,
    plan: &WrittenPlan,
    arc: u32,
    out: &mut K,
) -> Result<(), WriteFault>
    requires written { IsWritten (net_of net.now) (shown_plan plan.now) }
    requires arc { arc < (net_of net.now).outs }
    ensures wrote { Wrote result (K.taken out.old) (out_line net.now (plan_of (net_of net.now) (shown_plan plan.now)) arc) (K.taken out.new) }
    ensures failed { OnErr result (Rose (K.faults out.old) (K.faults out.new)) }
    ensures faults_grow { Grows (K.faults out.old) (K.faults out.new) }
{
    let (pool, product) = net.out(arc);
    let from = net.name(Kind::Pool, pool);
    let to = net.name(Kind::Product, product);
    let flow = units(out_flow(net, plan, arc), plan);
    write_flow(flow, from, to, out)
}

/// A line for each direct.
fn write_directs<K: Sink>(net: &Network, plan: &WrittenPlan, out: &mut K) -> Result<(), WriteFault>
    requires { IsWritten (net_of net.now) (shown_plan plan.now) }
    ensures wrote { Wrote result (K.taken out.old) (each_below (direct_line net.now (plan_of (net_of net.now) (shown_plan plan.now))) (net_of net.now).directs) (K.taken out.new) }
    ensures failed { OnErr result (Rose (K.faults out.old) (K.faults out.new)) }
    ensures faults_grow { Grows (K.faults out.old) (K.faults out.new) }
{
    let counts = net.sizes();
    for arc in 0..counts.directs {
        write_direct(net, plan, arc, out)?;
    }
    Ok(())
}

/// What flows along a direct.
#[tactic(auto, unfolding(pool_model::specs::Network::net_of))]
fn write_direct<K: Sink>(
    net: &Network,
    plan: &WrittenPlan,
    arc: u32,
    out: &mut K,
) -> Result<(), WriteFault>
    requires written { IsWritten (net_of net.now) (shown_plan plan.now) }
    requires arc { arc < (net_of net.now).directs }
    ensures wrote { Wrote result (K.taken out.old) (direct_line net.now (plan_of (net_of net.now) (shown_plan plan.now)) arc) (K.taken out.new) }
    ensures failed { OnErr result (Rose (K.faults out.old) (K.faults out.new)) }
    ensures faults_grow { Grows (K.faults out.old) (K.faults out.new) }
{
    let (source, product) = net.direct(arc);
    let from = net.name(Kind::Source, source);
    let to = net.name(Kind::Product, product);
    let flow = units(direct_flow(net, plan, arc), plan);
    write_flow(flow, from, to, out)
}

/// A flow over the plan's denominator, in millionths of a unit, rounded down.
fn units(flow: u128, plan: &WrittenPlan) -> i128
    requires base { 0 < plan.now.flow_base * plan.now.base }
    requires flow { flow < 2 ^ 127 }
    ensures { result ≡ down (pos flow) (plan.now.flow_base * plan.now.base) }
{
    rounded_down(flow as i128, u128::from(plan.denominator()))
}

/// How much flows from a node to a node.
fn write_flow<'x, K: Sink>(
    flow: i128,
    from: &'x str,
    to: &'x str,
    out: &mut K,
) -> Result<(), WriteFault>
    ensures wrote { Wrote result (K.taken out.old) (flow_line flow from.now to.now) (K.taken out.new) }
    ensures failed { OnErr result (Rose (K.faults out.old) (K.faults out.new)) }
    ensures faults_grow { Grows (K.faults out.old) (K.faults out.new) }
{
    write_line(
        out,
        &[
            Piece::Words(b"flow "),
            Piece::Column(flow),
            Piece::Words(b" "),
            Piece::Words(from.as_bytes()),
            Piece::Words(b" -> "),
            Piece::Words(to.as_bytes()),
            Piece::Words(b"\n"),
        ],
    )
}
