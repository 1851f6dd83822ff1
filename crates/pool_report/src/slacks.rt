//! The lines of slacks.

ghost use Rattle.std.specs.Prelude.{◌≡◌, ◌<◌, ◌≤◌, ◌^◌, ◌*◌, pos, ◌-ℤ◌, ◌*ℤ◌, OnErr};
ghost use Rattle.edge_io.specs.Counts.{Grows, Rose};
ghost use Rattle.edge_io.specs.Writing.{Wrote};
ghost use Rattle.pool_model.specs.Network.{net_of};
ghost use Rattle.pool_model.specs.Plan.{IsWritten, plan_of};
ghost use Rattle.plan_core.specs.Views.{shown_plan};
ghost use Rattle.text_pieces.specs.Pieces.{each_below};
ghost use Rattle.text_pieces.specs.Rounding.{rounded_down as down};
ghost use Rattle.pool_report.specs.Lines.{pool_slack_line, product_slack_line, slack_line, source_slack_line};
ghost use Rattle.pool_report.specs.Report.{slack_lines};

use blend_network::{Kind, Network};
use edge_io::{Sink, WriteFault};
use plan_core::WrittenPlan;
use plan_flows::{pool_flow, product_flow, source_flow};
use text_pieces::{Piece, rounded_down, write_line};

/// A line for each node: sources, then pools, then products.
pub(crate) fn write_slacks<K: Sink>(
    net: &Network,
    plan: &WrittenPlan,
    out: &mut K,
) -> Result<(), WriteFault>
    requires { IsWritten (net_of net.now) (shown_plan plan.now) }
    ensures wrote { Wrote result (K.taken out.old) (slack_lines net.now (plan_of (net_of net.now) (shown_plan plan.now))) (K.taken out.new) }
    ensures failed { OnErr result (Rose (K.faults out.old) (K.faults out.new)) }
    ensures faults_grow { Grows (K.faults out.old) (K.faults out.new) }
{
    write_sources(net, plan, out)?;
    write_pools(net, plan, out)?;
    write_products(net, plan, out)
}

/// A line for each source.
fn write_sources<K: Sink>(net: &Network, plan: &WrittenPlan, out: &mut K) -> Result<(), WriteFault>
    requires { IsWritten (net_of net.now) (shown_plan plan.now) }
    ensures wrote { Wrote result (K.taken out.old) (each_below (source_slack_line net.now (plan_of (net_of net.now) (shown_plan plan.now))) (net_of net.now).sources) (K.taken out.new) }
    ensures failed { OnErr result (Rose (K.faults out.old) (K.faults out.new)) }
    ensures faults_grow { Grows (K.faults out.old) (K.faults out.new) }
{
    let counts = net.sizes();
    for source in 0..counts.sources {
        write_source(net, plan, source, out)?;
    }
    Ok(())
}

/// How much more a source could send.
#[tactic(auto, unfolding(pool_model::specs::Network::net_of))]
fn write_source<K: Sink>(
    net: &Network,
    plan: &WrittenPlan,
    source: u32,
    out: &mut K,
) -> Result<(), WriteFault>
    requires written { IsWritten (net_of net.now) (shown_plan plan.now) }
    requires source { source < (net_of net.now).sources }
    ensures wrote { Wrote result (K.taken out.old) (source_slack_line net.now (plan_of (net_of net.now) (shown_plan plan.now)) source) (K.taken out.new) }
    ensures failed { OnErr result (Rose (K.faults out.old) (K.faults out.new)) }
    ensures faults_grow { Grows (K.faults out.old) (K.faults out.new) }
{
    let more = room(net.source_max(source), source_flow(net, plan, source), plan);
    write_slack(more, net.name(Kind::Source, source), out)
}

/// A line for each pool.
fn write_pools<K: Sink>(net: &Network, plan: &WrittenPlan, out: &mut K) -> Result<(), WriteFault>
    requires { IsWritten (net_of net.now) (shown_plan plan.now) }
    ensures wrote { Wrote result (K.taken out.old) (each_below (pool_slack_line net.now (plan_of (net_of net.now) (shown_plan plan.now))) (net_of net.now).pools) (K.taken out.new) }
    ensures failed { OnErr result (Rose (K.faults out.old) (K.faults out.new)) }
    ensures faults_grow { Grows (K.faults out.old) (K.faults out.new) }
{
    let counts = net.sizes();
    for pool in 0..counts.pools {
        write_pool(net, plan, pool, out)?;
    }
    Ok(())
}

/// How much more could flow through a pool.
#[tactic(auto, unfolding(pool_model::specs::Network::net_of))]
fn write_pool<K: Sink>(
    net: &Network,
    plan: &WrittenPlan,
    pool: u32,
    out: &mut K,
) -> Result<(), WriteFault>
    requires written { IsWritten (net_of net.now) (shown_plan plan.now) }
    requires pool { pool < (net_of net.now).pools }
    ensures wrote { Wrote result (K.taken out.old) (pool_slack_line net.now (plan_of (net_of net.now) (shown_plan plan.now)) pool) (K.taken out.new) }
    ensures failed { OnErr result (Rose (K.faults out.old) (K.faults out.new)) }
    ensures faults_grow { Grows (K.faults out.old) (K.faults out.new) }
{
    let more = room(net.pool_max(pool), pool_flow(net, plan, pool), plan);
    write_slack(more, net.name(Kind::Pool, pool), out)
}

/// A line for each product.
fn write_products<K: Sink>(net: &Network, plan: &WrittenPlan, out: &mut K) -> Result<(), WriteFault>
    requires { IsWritten (net_of net.now) (shown_plan plan.now) }
    ensures wrote { Wrote result (K.taken out.old) (each_below (product_slack_line net.now (plan_of (net_of net.now) (shown_plan plan.now))) (net_of net.now).products) (K.taken out.new) }
    ensures failed { OnErr result (Rose (K.faults out.old) (K.faults out.new)) }
    ensures faults_grow { Grows (K.faults out.old) (K.faults out.new) }
{
    let counts = net.sizes();
    for product in 0..counts.products {
        write_product(net, plan, product, out)?;
    }
    Ok(())
}

/// How much more a product could take.
#[tactic(auto, unfolding(pool_model::specs::Network::net_of))]
fn write_product<K: Sink>(
    net: &Network,
    plan: &WrittenPlan,
    product: u32,
    out: &mut K,
) -> Result<(), WriteFault>
    requires written { IsWritten (net_of net.now) (shown_plan plan.now) }
    requires product { product < (net_of net.now).products }
    ensures wrote { Wrote result (K.taken out.old) (product_slack_line net.now (plan_of (net_of net.now) (shown_plan plan.now)) product) (K.taken out.new) }
    ensures failed { OnErr result (Rose (K.faults out.old) (K.faults out.new)) }
    ensures faults_grow { Grows (K.faults out.old) (K.faults out.new) }
{
    let more = room(
        net.product_max(product),
        product_flow(net, plan, product),
        plan,
    );
    write_slack(more, net.name(Kind::Product, product), out)
}

/// What is left of so many millionths, in millionths of a unit, rounded down.
fn room(most: i64, flow: u128, plan: &WrittenPlan) -> i128
    requires base { (0 < plan.now.flow_base * plan.now.base) × (plan.now.flow_base * plan.now.base ≤ 2 ^ 36) }
    requires flow { flow ≤ 2 ^ 113 }
    ensures { let base = plan.now.flow_base * plan.now.base in result ≡ down (pos base *ℤ most -ℤ pos flow) base }
{
    let base = plan.denominator();
    rounded_down(left(base, most, flow), u128::from(base))
}

/// What is left of so many millionths, over a base.
fn left(base: u64, most: i64, flow: u128) -> i128
    requires base { base ≤ 2 ^ 36 }
    requires flow { flow ≤ 2 ^ 113 }
    ensures { result ≡ pos base *ℤ most -ℤ pos flow }
{
    i128::from(base) * i128::from(most) - flow as i128
}

/// How much more could flow through a node.
fn write_slack<K: Sink>(more: i128, name: &str, out: &mut K) -> Result<(), WriteFault>
    ensures wrote { Wrote result (K.taken out.old) (slack_line more name.now) (K.taken out.new) }
    ensures failed { OnErr result (Rose (K.faults out.old) (K.faults out.new)) }
    ensures faults_grow { Grows (K.faults out.old) (K.faults out.new) }
{
    write_line(
        out,
        &[
            Piece::Words(b"slack "),
            Piece::Column(more),
            Piece::Words(b" "),
            Piece::Words(name.as_bytes()),
            Piece::Words(b"\n"),
        ],
    )
}
