//! The lines of means.

ghost use Rattle.std.specs.Prelude.{◌≡◌, ◌<◌, OnErr};
ghost use Rattle.edge_io.specs.Counts.{Grows, Rose};
ghost use Rattle.edge_io.specs.Writing.{Wrote};
ghost use Rattle.pool_model.specs.Network.{net_of};
ghost use Rattle.pool_model.specs.Plan.{IsWritten, Obeys, plan_of, product_inflow};
ghost use Rattle.plan_core.specs.Views.{shown_plan};
ghost use Rattle.text_pieces.specs.Pieces.{each_below};
ghost use Rattle.pool_report.specs.Amounts.{mean_of};
ghost use Rattle.pool_report.specs.Lines.{mean_line, mean_lines};
ghost use Rattle.pool_report.specs.Report.{quality_lines};

use blend_network::{Kind, Network};
use edge_io::{Sink, WriteFault, write_whole};
use plan_core::WrittenPlan;
use plan_flows::{mean, product_flow};
use text_pieces::{Piece, rounded_down, write_line};

/// A line for each product with inflow and each quality.
pub(crate) fn write_means<K: Sink>(
    net: &Network,
    plan: &WrittenPlan,
    out: &mut K,
) -> Result<(), WriteFault>
    requires written { IsWritten (net_of net.now) (shown_plan plan.now) }
    requires obeys { Obeys (net_of net.now) (plan_of (net_of net.now) (shown_plan plan.now)) }
    ensures wrote { Wrote result (K.taken out.old) (quality_lines net.now (plan_of (net_of net.now) (shown_plan plan.now))) (K.taken out.new) }
    ensures failed { OnErr result (Rose (K.faults out.old) (K.faults out.new)) }
    ensures faults_grow { Grows (K.faults out.old) (K.faults out.new) }
{
    let counts = net.sizes();
    for product in 0..counts.products {
        write_means_of(net, plan, product, out)?;
    }
    Ok(())
}

/// A product's means of all qualities, where something flows into it.
fn write_means_of<K: Sink>(
    net: &Network,
    plan: &WrittenPlan,
    product: u32,
    out: &mut K,
) -> Result<(), WriteFault>
    requires written { IsWritten (net_of net.now) (shown_plan plan.now) }
    requires obeys { Obeys (net_of net.now) (plan_of (net_of net.now) (shown_plan plan.now)) }
    requires product { product < (net_of net.now).products }
    ensures wrote { Wrote result (K.taken out.old) (mean_lines net.now (plan_of (net_of net.now) (shown_plan plan.now)) product) (K.taken out.new) }
    ensures failed { OnErr result (Rose (K.faults out.old) (K.faults out.new)) }
    ensures faults_grow { Grows (K.faults out.old) (K.faults out.new) }
{
    if product_flow(net, plan, product) == 0 {
        return write_whole(out, b"");
    }
    write_each_mean(net, plan, product, out)
}

/// A product's means of all qualities.
fn write_each_mean<K: Sink>(
    net: &Network,
    plan: &WrittenPlan,
    product: u32,
    out: &mut K,
) -> Result<(), WriteFault>
    requires written { IsWritten (net_of net.now) (shown_plan plan.now) }
    requires obeys { Obeys (net_of net.now) (plan_of (net_of net.now) (shown_plan plan.now)) }
    requires product { product < (net_of net.now).products }
    requires inflow { 0 < product_inflow (net_of net.now) (plan_of (net_of net.now) (shown_plan plan.now)) product }
    ensures wrote { Wrote result (K.taken out.old) (each_below (mean_line net.now (plan_of (net_of net.now) (shown_plan plan.now)) product) (net_of net.now).qualities) (K.taken out.new) }
    ensures failed { OnErr result (Rose (K.faults out.old) (K.faults out.new)) }
    ensures faults_grow { Grows (K.faults out.old) (K.faults out.new) }
{
    let counts = net.sizes();
    for quality in 0..counts.qualities {
        write_mean(net, plan, product, quality, out)?;
    }
    Ok(())
}

/// A product's mean of a quality.
#[tactic(auto, unfolding(pool_model::specs::Network::net_of))]
fn write_mean<K: Sink>(
    net: &Network,
    plan: &WrittenPlan,
    product: u32,
    quality: u32,
    out: &mut K,
) -> Result<(), WriteFault>
    requires written { IsWritten (net_of net.now) (shown_plan plan.now) }
    requires obeys { Obeys (net_of net.now) (plan_of (net_of net.now) (shown_plan plan.now)) }
    requires product { product < (net_of net.now).products }
    requires quality { quality < (net_of net.now).qualities }
    requires inflow { 0 < product_inflow (net_of net.now) (plan_of (net_of net.now) (shown_plan plan.now)) product }
    ensures wrote { Wrote result (K.taken out.old) (mean_line net.now (plan_of (net_of net.now) (shown_plan plan.now)) product quality) (K.taken out.new) }
    ensures failed { OnErr result (Rose (K.faults out.old) (K.faults out.new)) }
    ensures faults_grow { Grows (K.faults out.old) (K.faults out.new) }
{
    write_line(
        out,
        &[
            Piece::Words(b"quality "),
            Piece::Column(whole_mean(net, plan, product, quality)),
            Piece::Words(b" "),
            Piece::Words(net.name(Kind::Product, product).as_bytes()),
            Piece::Words(b": "),
            Piece::Words(net.name(Kind::Quality, quality).as_bytes()),
            Piece::Words(b"\n"),
        ],
    )
}

/// A product's mean of a quality, in millionths, rounded down.
fn whole_mean(net: &Network, plan: &WrittenPlan, product: u32, quality: u32) -> i128
    requires written { IsWritten (net_of net.now) (shown_plan plan.now) }
    requires obeys { Obeys (net_of net.now) (plan_of (net_of net.now) (shown_plan plan.now)) }
    requires product { product < (net_of net.now).products }
    requires quality { quality < (net_of net.now).qualities }
    requires inflow { 0 < product_inflow (net_of net.now) (plan_of (net_of net.now) (shown_plan plan.now)) product }
    ensures { result ≡ mean_of (net_of net.now) (plan_of (net_of net.now) (shown_plan plan.now)) product quality }
{
    let (quality, inflow) = mean(net, plan, product, quality);
    rounded_down(quality, inflow.unsigned_abs())
}
