//! The points of the best plan of Haverly's network in the three forms.

use blend_network::Network;
use plan_core::{WrittenPlan, check_plan};
use program_points::{p, pq, q};
use std::alloc::{AllocError, Global};
use std::test::Fail;
use worked_networks::{HAVERLY_1, network};

/// All of B through the pool and as much of C into Y.
fn best(alloc: Global) -> Result<WrittenPlan, AllocError> {
    Ok(WrittenPlan {
        base: 1,
        flow_base: 1,
        weights: Vec::from_slice(alloc, &[0, 1])?,
        outflows: Vec::from_slice(alloc, &[0, 100_000_000])?,
        direct: Vec::from_slice(alloc, &[0, 100_000_000])?,
    })
}

/// The point of a plan in form Q.
fn by_proportions(alloc: Global, net: &Network, plan: &WrittenPlan) -> Result<String, Fail> {
    check_plan(net, plan)?;
    let point = q::point_of(alloc, net, plan)?;
    Ok(format!(in alloc; "{point:?}")?)
}

/// The same in form PQ.
fn by_proportions_further(
    alloc: Global,
    net: &Network,
    plan: &WrittenPlan,
) -> Result<String, Fail> {
    check_plan(net, plan)?;
    let point = pq::point_of(alloc, net, plan)?;
    Ok(format!(in alloc; "{point:?}")?)
}

/// The same in form P.
fn by_qualities(alloc: Global, net: &Network, plan: &WrittenPlan) -> Result<String, Fail> {
    check_plan(net, plan)?;
    let point = p::point_of(alloc, net, plan)?;
    Ok(format!(in alloc; "{point:?}")?)
}

/// The points of a plan in forms Q, PQ and P, a line each.
fn points(alloc: Global, net: &Network, plan: &WrittenPlan) -> Result<String, Fail> {
    let q = by_proportions(alloc, net, plan)?;
    let pq = by_proportions_further(alloc, net, plan)?;
    let p = by_qualities(alloc, net, plan)?;
    Ok(format!(in alloc; "{q}\n{pq}\n{p}\n")?)
}

fn points_of_best(alloc: Global) -> Result<String, Fail> {
    let net = network(alloc, HAVERLY_1)?;
    let plan = best(alloc)?;
    points(alloc, &net, &plan)
}

#[test]
fn the_best_plan_has_these_points(rt: HostRuntime) -> Result<(), Fail> {
    let told = points_of_best(rt.alloc())?;
    assert_eq!(rt;
        told.as_str(),
        "PropPoint { base: 1, prop_base: 1, props: [0, 1], x: [0, 100000000], y: [0, 100000000], z: [0, 100000000], w: [0, 0, 0, 100000000] }
PropPoint { base: 1, prop_base: 1, props: [0, 1], x: [0, 100000000], y: [0, 100000000], z: [0, 100000000], w: [0, 0, 0, 100000000] }
QualPoint { base: 1, qual_base: 1, quals: [1000000], x: [0, 100000000], y: [0, 100000000], z: [0, 100000000], mix: [0, 100000000000000] }
"
    );
    Ok(())
}
