//! The check of a written plan: its form, its flows through nodes, its qualities and its flows along arcs, in this order.

ghost use Rattle.std.specs.Prelude.{◌≡◌, ℕ, ◌*◌, ◌<◌, ◌≤◌, ◌^◌, ◌↔◌, [], get_or, pos, unsigned_abs, IfOk, IfErr, IsTrue};
ghost use Rattle.pool_model.specs.Network.{net_of, IsLimited};
ghost use Rattle.plan_core.specs.Views.{shown_plan};
ghost use Rattle.plan_core.specs.Faults.{IsShaped, Breaks, Keeps, KeepsEach, IsFirstBroken, IsFirstQuality, IsFirstFault, IsCostOf};
ghost use Rattle.plan_core.specs.Weighed.{ArePoolOutflows, AreSourceOutflows, AreProductInflows, HasRoom, IsAbove, IsBelow, IsFirstBelow};

use crate::arcs::is_over;
use crate::cost::cost;
use crate::fault::PlanFault;
use crate::plan::{Cost, WrittenPlan};
use crate::qualities::{MAX_QUALITIES, in_parts, qualities, weighted};
use crate::sums::{
    MAX_POOLS, MAX_PRODUCTS, MAX_SOURCES, pool_outflows, product_inflows, source_outflows,
    weight_sums,
};
use blend_network::Network;

/// The greatest base and the greatest flow base of a plan.
const MAX_BASE: u32 = 1_048_576;

const MAX_FLOW_BASE: u32 = 65_536;

/// What the plan costs, or the first rule that it breaks. It goes over the arcs once for each quality, and takes no memory.
pub fn check_plan(net: &Network, plan: &WrittenPlan) -> Result<Cost, PlanFault>
    // Promise: A written plan is accepted only where it has its form and what it stands for obeys, and then with its exact cost
    ensures ok { IfOk result (IsCostOf (net_of net.now) (shown_plan plan.now)) }
    ensures size { IfOk result (λ cost. unsigned_abs cost.num ≤ 2 ^ 124) }
    // Promise: Of a written plan that is not accepted the first rule that it breaks is named, with the source, pool, product, quality and
    //   arc; no memory is taken
    ensures fault { IfErr result (IsFirstFault (net_of net.now) (shown_plan plan.now)) }
{
    check_shape(net, plan)?;
    check_weight_sums(net, plan)?;
    let through = pool_outflows(net, plan);
    let outflows = source_outflows(net, plan, &through);
    let inflows = product_inflows(net, plan);
    check_sources(net, plan, &outflows)?;
    check_pools(net, plan, &through)?;
    check_maxima(net, plan, &inflows)?;
    check_minima(net, plan, &inflows)?;
    check_qualities(net, plan, &inflows)?;
    check_arcs(net, plan, &through)?;
    Ok(cost(net, plan, &through, &outflows, &inflows))
}

/// Shape, exactly where the plan's bases or lengths are wrong.
fn check_shape(net: &Network, plan: &WrittenPlan) -> Result<(), PlanFault>
    ensures shaped { IfOk result (λ _. IsShaped (net_of net.now) (shown_plan plan.now)) }
    ensures shape { IfErr result (λ f. f ≡ PlanFault.Shape) }
    ensures unshaped { IfErr result (λ _. ¬ IsShaped (net_of net.now) (shown_plan plan.now)) }
    ensures limited { IsLimited (net_of net.now) }
{
    let counts = net.sizes();
    let bases = is_base(plan.base, MAX_BASE) && is_base(plan.flow_base, MAX_FLOW_BASE);
    let lengths = plan.weights.len() == counts.feeds as usize
        && plan.outflows.len() == counts.outs as usize
        && plan.direct.len() == counts.directs as usize;
    if bases && lengths {
        Ok(())
    } else {
        Err(PlanFault::Shape)
    }
}

fn is_base(base: u32, most: u32) -> bool
    ensures { IsTrue result ↔ ((1 ≤ base) × (base ≤ most)) }
{
    1 <= base && base <= most
}

/// WeightSum, exactly where a pool's weights don't sum to the base.
fn check_weight_sums(net: &Network, plan: &WrittenPlan) -> Result<(), PlanFault>
    requires { IsShaped (net_of net.now) (shown_plan plan.now) }
    ensures keeps { IfOk result (λ _. Keeps (net_of net.now) (shown_plan plan.now) (λ l. PlanFault.WeightSum l)) }
    ensures first { IfErr result (IsFirstBroken (net_of net.now) (shown_plan plan.now) (λ l. PlanFault.WeightSum l)) }
{
    let counts = net.sizes();
    let sums = weight_sums(net, plan);
    for pool in 0..counts.pools {
        if sums[pool as usize] != u64::from(plan.base) {
            return Err(PlanFault::WeightSum(pool));
        }
    }
    Ok(())
}

/// SourceOver, exactly where a source sends out more than its maximum.
fn check_sources(
    net: &Network,
    plan: &WrittenPlan,
    outflows: &[u128; MAX_SOURCES],
) -> Result<(), PlanFault>
    requires { AreSourceOutflows (net_of net.now) (shown_plan plan.now) outflows.now }
    ensures keeps { IfOk result (λ _. Keeps (net_of net.now) (shown_plan plan.now) (λ i. PlanFault.SourceOver i)) }
    ensures first { IfErr result (IsFirstBroken (net_of net.now) (shown_plan plan.now) (λ i. PlanFault.SourceOver i)) }
{
    let counts = net.sizes();
    let denominator = plan.denominator();
    for source in 0..counts.sources {
        if room(denominator, net.source_max(source)) < outflows[source as usize] {
            return Err(PlanFault::SourceOver(source));
        }
    }
    Ok(())
}

/// PoolOver, exactly where more flows through a pool than its maximum.
fn check_pools(
    net: &Network,
    plan: &WrittenPlan,
    through: &[u128; MAX_POOLS],
) -> Result<(), PlanFault>
    requires shaped { IsShaped (net_of net.now) (shown_plan plan.now) }
    requires through { ArePoolOutflows (net_of net.now) (shown_plan plan.now) through.now }
    ensures keeps { IfOk result (λ _. Keeps (net_of net.now) (shown_plan plan.now) (λ l. PlanFault.PoolOver l)) }
    ensures first { IfErr result (IsFirstBroken (net_of net.now) (shown_plan plan.now) (λ l. PlanFault.PoolOver l)) }
{
    let counts = net.sizes();
    for pool in 0..counts.pools {
        if room(u64::from(plan.flow_base), net.pool_max(pool)) < through[pool as usize] {
            return Err(PlanFault::PoolOver(pool));
        }
    }
    Ok(())
}

/// ProductOver, exactly where more flows into a product than its maximum.
fn check_maxima(
    net: &Network,
    plan: &WrittenPlan,
    inflows: &[u128; MAX_PRODUCTS],
) -> Result<(), PlanFault>
    requires { AreProductInflows (net_of net.now) (shown_plan plan.now) inflows.now }
    ensures keeps { IfOk result (λ _. Keeps (net_of net.now) (shown_plan plan.now) (λ j. PlanFault.ProductOver j)) }
    ensures first { IfErr result (IsFirstBroken (net_of net.now) (shown_plan plan.now) (λ j. PlanFault.ProductOver j)) }
{
    let counts = net.sizes();
    let denominator = plan.denominator();
    for product in 0..counts.products {
        if room(denominator, net.product_max(product)) < inflows[product as usize] {
            return Err(PlanFault::ProductOver(product));
        }
    }
    Ok(())
}

/// ProductUnder, exactly where less flows into a product than its minimum.
fn check_minima(
    net: &Network,
    plan: &WrittenPlan,
    inflows: &[u128; MAX_PRODUCTS],
) -> Result<(), PlanFault>
    requires { AreProductInflows (net_of net.now) (shown_plan plan.now) inflows.now }
    ensures keeps { IfOk result (λ _. Keeps (net_of net.now) (shown_plan plan.now) (λ j. PlanFault.ProductUnder j)) }
    ensures first { IfErr result (IsFirstBroken (net_of net.now) (shown_plan plan.now) (λ j. PlanFault.ProductUnder j)) }
{
    let counts = net.sizes();
    let denominator = plan.denominator();
    for product in 0..counts.products {
        if inflows[product as usize] < room(denominator, net.product_min(product)) {
            return Err(PlanFault::ProductUnder(product));
        }
    }
    Ok(())
}

/// A number of millionths, over a denominator.
pub(crate) fn room(denominator: u64, millionths: i64) -> u128
    ensures { result ≡ denominator * unsigned_abs millionths }
{
    u128::from(denominator) * u128::from(millionths.unsigned_abs())
}

/// QualityOver, exactly where a product's mean of a quality is above its most; and else QualityUnder, exactly where one is
/// below its least.
fn check_qualities(
    net: &Network,
    plan: &WrittenPlan,
    inflows: &[u128; MAX_PRODUCTS],
) -> Result<(), PlanFault>
    requires shaped { IsShaped (net_of net.now) (shown_plan plan.now) }
    requires inflows { AreProductInflows (net_of net.now) (shown_plan plan.now) inflows.now }
    requires room { HasRoom (net_of net.now) (shown_plan plan.now) }
    ensures keeps_most { IfOk result (λ _. KeepsEach (net_of net.now) (shown_plan plan.now) (λ j k. PlanFault.QualityOver j k)) }
    ensures keeps_least { IfOk result (λ _. KeepsEach (net_of net.now) (shown_plan plan.now) (λ j k. PlanFault.QualityUnder j k)) }
    ensures first { IfErr result (IsFirstQuality (net_of net.now) (shown_plan plan.now)) }
{
    let counts = net.sizes();
    let sums = qualities(net, plan);
    for product in 0..counts.products {
        if let Some(quality) = first_above(net, product, inflows[product as usize], &sums) {
            return Err(PlanFault::QualityOver(product, quality));
        }
    }
    for product in 0..counts.products {
        if let Some(quality) = first_below(net, product, inflows[product as usize], &sums) {
            return Err(PlanFault::QualityUnder(product, quality));
        }
    }
    Ok(())
}

/// The first quality whose mean is above the product's most.
fn first_above(
    net: &Network,
    product: u32,
    inflow: u128,
    sums: &[[i128; MAX_PRODUCTS]; MAX_QUALITIES],
) -> Option<u32>
    requires product { product < (net_of net.now).products }
    requires inflow { inflow ≤ 2 ^ 76 }
    ensures { IsFirstBelow (λ k. IsAbove (pos (net_of net.now).scale) ((net_of net.now).most product k) inflow (get_or (get_or sums.now k []) product (pos 0))) (net_of net.now).qualities result }
{
    let counts = net.sizes();
    for quality in 0..counts.qualities {
        let sum = sums[quality as usize][product as usize];
        if is_above(net, product, quality, inflow, sum) {
            return Some(quality);
        }
    }
    None
}

/// The first quality whose mean is below the product's least.
fn first_below(
    net: &Network,
    product: u32,
    inflow: u128,
    sums: &[[i128; MAX_PRODUCTS]; MAX_QUALITIES],
) -> Option<u32>
    requires product { product < (net_of net.now).products }
    requires inflow { inflow ≤ 2 ^ 76 }
    ensures { IsFirstBelow (λ k. IsBelow (pos (net_of net.now).scale) ((net_of net.now).least product k) inflow (get_or (get_or sums.now k []) product (pos 0))) (net_of net.now).qualities result }
{
    let counts = net.sizes();
    for quality in 0..counts.qualities {
        let sum = sums[quality as usize][product as usize];
        if is_below(net, product, quality, inflow, sum) {
            return Some(quality);
        }
    }
    None
}

fn is_above(net: &Network, product: u32, quality: u32, inflow: u128, sum: i128) -> bool
    requires product { product < (net_of net.now).products }
    requires quality { quality < (net_of net.now).qualities }
    requires inflow { inflow ≤ 2 ^ 76 }
    ensures { IsTrue result ↔ IsAbove (pos (net_of net.now).scale) ((net_of net.now).most product quality) inflow sum }
{
    match net.product_most(product, quality) {
        None => false,
        Some(most) => weighted(in_parts(net.scale(), i128::from(most)), inflow) < sum,
    }
}

fn is_below(net: &Network, product: u32, quality: u32, inflow: u128, sum: i128) -> bool
    requires product { product < (net_of net.now).products }
    requires quality { quality < (net_of net.now).qualities }
    requires inflow { inflow ≤ 2 ^ 76 }
    ensures { IsTrue result ↔ IsBelow (pos (net_of net.now).scale) ((net_of net.now).least product quality) inflow sum }
{
    match net.product_least(product, quality) {
        None => false,
        Some(least) => sum < weighted(in_parts(net.scale(), i128::from(least)), inflow),
    }
}

/// ArcOver, exactly where an arc carries more than its maximum.
fn check_arcs(
    net: &Network,
    plan: &WrittenPlan,
    through: &[u128; MAX_POOLS],
) -> Result<(), PlanFault>
    requires shaped { IsShaped (net_of net.now) (shown_plan plan.now) }
    requires through { ArePoolOutflows (net_of net.now) (shown_plan plan.now) through.now }
    requires size { (l : ℕ) → get_or through.now l 0 ≤ 2 ^ 72 }
    ensures keeps { IfOk result (λ _. Keeps (net_of net.now) (shown_plan plan.now) (λ a. PlanFault.ArcOver a)) }
    ensures first { IfErr result (IsFirstBroken (net_of net.now) (shown_plan plan.now) (λ a. PlanFault.ArcOver a)) }
{
    let counts = net.sizes();
    for arc in 0..counts.feeds + counts.outs + counts.directs {
        if is_over(net, plan, through, arc) {
            return Err(PlanFault::ArcOver(arc));
        }
    }
    Ok(())
}
