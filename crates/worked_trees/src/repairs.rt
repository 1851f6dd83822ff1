//! Plans from points of the root's relaxation, compared with the best costs that are known, and the plain plan with a best
//! plan beside it.
//!
//! The points are optima of the relaxation PQ on the box of all plans, found by another program. The best costs are those
//! of C. A. Haverly (1978) and of A. Ben-Tal, G. Eiger and V. Gershovitz (1994).

ghost use Rattle.std.specs.Option.{ForSome, option_copied};
ghost use Rattle.pool_model.specs.Network.{net_of};
ghost use Rattle.plan_core.specs.Views.{shown_plan};
ghost use Rattle.plan_repair.specs.Repairs.{IsAccepted};

use blend_network::Network;
use box_space::vars;
use linear_program::Advice;
use plan_core::{WrittenPlan, cheapest_start, check_plan};
use plan_repair::repair;
use std::alloc::Global;
use std::test::Fail;
use worked_networks::{BEN_TAL_4, HAVERLY_1, HAVERLY_2, HAVERLY_3, network};

/// Networks with a point, whose numbers are tenths of a unit, and what the plan costs that is found near it, in picos. With `plain` the
/// best plan is the cheapest starting plan, which is the zero plan, and the point that of a plan that costs 400 less: 100 of B and of C
/// for Y.
const POINTS: &str = "\
haverly-1: 500 1000 500 1000 500 1000 500 0 0 1000 0 0 0 0 0 = -400000000000000
haverly-2: 3000 1000 3000 1000 3000 1000 3000 0 0 1000 0 0 0 0 0 = -600000000000000
haverly-3: 750 1500 250 2000 250 0 250 500 0 1500 0 0 0 0 0 = -750000000000000
ben-tal-4: 500 500 500 500 1000 500 1000 500 0 0 500 0 500 0 0 0 0 0 0 = -450000000000000
plain: 0 1000 0 1000 0 1000 0 0 0 0 0 0 0 0 0 = -400000000000000
";

fn network_under(name: &str) -> &'static str {
    match name {
        "haverly-2" => HAVERLY_2,
        "haverly-3" => HAVERLY_3,
        "ben-tal-4" => BEN_TAL_4,
        _ => HAVERLY_1,
    }
}

/// An advice of the point of a line.
fn advice(alloc: Global, line: &str) -> Result<Advice, Fail> {
    let mut point = Vec::new(alloc);
    for number in line.split(' ') {
        let tenths: i128 = number.parse().ok().ok_or("a number")?;
        point.push(tenths.wrapping_mul(429_496_729_600_000))?;
    }
    Ok(Advice {
        ray: false,
        duals: Vec::new(alloc),
        point,
        basis: Vec::new(alloc),
    })
}

/// The plan that is found near a point; none where the point has another length than the network asks for.
fn repaired(
    alloc: Global,
    net: &Network,
    advice: &Advice,
    best: Option<&WrittenPlan>,
) -> Result<Option<WrittenPlan>, Fail>
    requires { ForSome (option_copied best) (λ b. IsAccepted (net_of net.now) (shown_plan b)) }
{
    if advice.point.len() != vars(net) as usize {
        return Ok(None);
    }
    Ok(repair(alloc, net, advice, best)?)
}

/// What is told of the plan near a point, with a best plan or without one.
fn found(
    alloc: Global,
    net: &Network,
    line: &str,
    plain: bool,
) -> Result<Option<WrittenPlan>, Fail> {
    let advice = advice(alloc, line)?;
    if !plain {
        return repaired(alloc, net, &advice, None);
    }
    match cheapest_start(alloc, net)? {
        None => Ok(None),
        Some(start) => repaired(alloc, net, &advice, Some(&start.plan)),
    }
}

/// What a plan costs, as its check tells it.
fn cost_of(alloc: Global, net: &Network, plan: &WrittenPlan) -> Result<String, Fail> {
    let cost = check_plan(net, plan)?;
    let picos = cost.num.checked_div(cost.base.into()).unwrap_or(1);
    let rest = cost.num.checked_rem(cost.base.into()).unwrap_or(1);
    Ok(format!(in alloc; "{picos} {rest}")?)
}

/// What the plan costs that is found near the point of a line.
fn told(alloc: Global, name: &str, line: &str) -> Result<String, Fail> {
    let net = network(alloc, network_under(name))?;
    let plan = found(alloc, &net, line, name == "plain")?.ok_or("a plan")?;
    cost_of(alloc, &net, &plan)
}

#[test]
fn known_optima_are_found(rt: HostRuntime) -> Result<(), Fail> {
    for case in POINTS.lines() {
        let (asked, picos) = case.split_once(" = ").ok_or("a cost")?;
        let (name, line) = asked.split_once(": ").ok_or("a point")?;
        let told = told(rt.alloc(), name, line)?;
        assert_eq!(rt; told.as_str().strip_suffix(" 0"), Some(picos), "of {name}");
    }
    Ok(())
}
