//! Plans of points of the exact programs, and why other points have none: of Haverly's network, of one direct, and of a pool that removes
//! half of the sulfur. The cases are a table of text, a case a line.

use blend_network::Network;
use form_plans::{p, pq, q};
use plan_core::{WrittenPlan, check_plan};
use program_points::{PropPoint, QualPoint};
use std::alloc::Global;
use std::str::FromStr;
use std::test::Fail;
use worked_networks::{DESULFURED, HAVERLY_1, ONE_DIRECT, network};

/// A form, a network and a point, and its plan or why there is none. `p-again` asks for the plan of the point of the plan.
///
/// A point of Q and PQ is: the base of flows and that of proportions, the proportions of A and B, and the flows of feeds, of outs, of
/// directs, and along paths. One of P is: the base of flows and that of qualities, the pool's sulfur, the flows of feeds, of outs and of
/// directs, and sulfur by out. A `-` is a list of none.
///
/// Of PQ the points that are none have one cause after another: a product, bases of 0 and too large, a proportion above 1, proportions
/// that sum to 2, a flow above 10^14 millionths, a feed that doesn't go along its paths, flows that don't carry, sulfur above its most.
/// Of P they are: a product, bases of 0 and too large, a flow above 10^14 millionths, sulfur below that of B and above that of A, flows
/// that don't carry, a product that takes too much, sulfur that doesn't flow out, sulfur above its most. Behind them is one millionth of A
/// in so much that parts are over 2^20, and over 2^21: the least base is within its limit, and above it. The points of one direct are so
/// many parts of a millionth of A to X; the last has a quality, of which that network has none.
///
/// To the pool that removes half go 80 of A at the most: as much as the arc carries, and a part of a millionth more. What enters has 3 of
/// sulfur and what leaves 1.5, as much as the product may have; a point of P has what enters.
const POINTS: &str = "\
pq haverly: 1 1, 0 1, 0 100000000, 0 100000000, 0 100000000, 0 0 0 100000000 = Ok(WrittenPlan { base: 1, flow_base: 1, weights: [0, 1], outflows: [0, 100000000], direct: [0, 100000000] })
pq haverly: 6 4, 0 4, 0 9, 0 9, 0 3, 0 0 0 9 = Ok(WrittenPlan { base: 4, flow_base: 2, weights: [0, 4], outflows: [0, 3], direct: [0, 1] })
pq haverly: 1 1, 0 1, 0 100000000, 0 100000000, 0 100000000, 0 0 0 1 = Err(NotAPoint)
pq haverly: 0 1, 0 1, 0 100000000, 0 100000000, 0 100000000, 0 0 0 100000000 = Err(NotAPoint)
pq haverly: 1 0, 1 0, 0 0, 0 0, 0 0, 0 0 0 0 = Err(NotAPoint)
pq haverly: 68719476737 1, 1 0, 0 0, 0 0, 0 0, 0 0 0 0 = Err(NotAPoint)
pq haverly: 1 1048577, 0 1048577, 0 0, 0 0, 0 0, 0 0 0 0 = Err(NotAPoint)
pq haverly: 1 1, 2 0, 0 0, 0 0, 0 0, 0 0 0 0 = Err(NotAPoint)
pq haverly: 1 1, 1 1, 0 0, 0 0, 0 0, 0 0 0 0 = Err(NotAPoint)
pq haverly: 1 1, 0 1, 0 100000000000001, 0 100000000, 0 100000000, 0 0 0 100000000 = Err(NotAPoint)
pq haverly: 1 1, 1 0, 1 0, 0 0, 0 0, 0 0 0 0 = Err(NotAPoint)
pq haverly: 1 1, 0 1, 0 100000000, 0 100000000, 0 200000000, 0 0 0 100000000 = Err(NotAPoint)
pq haverly: 1 1, 1 0, 1 0, 0 1, 0 0, 0 1 0 0 = Err(NotAPoint)
q direct: 65536 1, -, -, -, 1, - = Ok(WrittenPlan { base: 1, flow_base: 65536, weights: [], outflows: [], direct: [1] })
q direct: 65537 1, -, -, -, 1, - = Err(TooFine)
q direct: 131074 1, -, -, -, 2, - = Err(TooFine)
q direct: 65537 1, -, -, -, 6553700000001, - = Err(NotAPoint)
p haverly: 1 1, 1000000, 0 100000000, 0 100000000, 0 100000000, 0 100000000000000 = Ok(WrittenPlan { base: 1, flow_base: 1, weights: [0, 1], outflows: [0, 100000000], direct: [0, 100000000] })
p-again haverly: 1 1, 1000000, 0 100000000, 0 100000000, 0 100000000, 0 100000000000000 = Ok(WrittenPlan { base: 1, flow_base: 1, weights: [0, 1], outflows: [0, 100000000], direct: [0, 100000000] })
p haverly: 6 3, 5000000, 3 6, 9 0, 3 0, 15000000 0 = Ok(WrittenPlan { base: 3, flow_base: 2, weights: [1, 2], outflows: [3, 0], direct: [1, 0] })
p-again haverly: 6 3, 5000000, 3 6, 9 0, 3 0, 15000000 0 = Ok(WrittenPlan { base: 3, flow_base: 2, weights: [1, 2], outflows: [3, 0], direct: [1, 0] })
p haverly: 1 1, 1000000, 0 0, 0 0, 0 0, 0 0 = Ok(WrittenPlan { base: 1, flow_base: 1, weights: [1, 0], outflows: [0, 0], direct: [0, 0] })
p haverly: 1 1, 1000000, 0 100000000, 0 100000000, 0 100000000, 0 1 = Err(NotAPoint)
p haverly: 0 1, 1000000, 0 100000000, 0 100000000, 0 100000000, 0 100000000000000 = Err(NotAPoint)
p haverly: 1 0, 1000000, 0 0, 0 0, 0 0, 0 0 = Err(NotAPoint)
p haverly: 68719476737 1, 1000000, 0 0, 0 0, 0 0, 0 0 = Err(NotAPoint)
p haverly: 1 1048577, 1048577000000, 0 0, 0 0, 0 0, 0 0 = Err(NotAPoint)
p haverly: 1 1, 1000000, 0 100000000000001, 0 100000000, 0 100000000, 0 100000000000000 = Err(NotAPoint)
p haverly: 1 1, 999999, 0 0, 0 0, 0 0, 0 0 = Err(NotAPoint)
p haverly: 1 1, 3000001, 0 0, 0 0, 0 0, 0 0 = Err(NotAPoint)
p haverly: 1 1, 1000000, 1 0, 0 0, 0 0, 0 0 = Err(NotAPoint)
p haverly: 1 1, 1000000, 0 100000000, 0 100000000, 0 200000000, 0 100000000000000 = Err(NotAPoint)
p haverly: 1 1, 2000000, 0 10, 10 0, 0 0, 20000000 0 = Err(NotAPoint)
p haverly: 1 1, 3000000, 10 0, 0 10, 0 0, 0 30000000 = Err(NotAPoint)
p haverly: 1 8192, 8192015625, 1 1048575, 1048576 0, 0 0, 1048578000000 0 = Ok(WrittenPlan { base: 1048576, flow_base: 1, weights: [1, 1048575], outflows: [1048576, 0], direct: [0, 0] })
p haverly: 1 16384, 16384015625, 1 2097151, 2097152 0, 0 0, 2097154000000 0 = Err(TooFine)
p direct: 65536 1, -, -, -, 1, - = Ok(WrittenPlan { base: 1, flow_base: 65536, weights: [], outflows: [], direct: [1] })
p direct: 65537 1, -, -, -, 1, - = Err(TooFine)
p direct: 131074 1, -, -, -, 2, - = Err(TooFine)
p direct: 65537 1, -, -, -, 6553700000001, - = Err(NotAPoint)
p direct: 65536 1, 0, -, -, 1, - = Err(NotAPoint)
pq desulfured: 1 1, 1, 80000000, 80000000, -, 80000000 = Ok(WrittenPlan { base: 1, flow_base: 1, weights: [1], outflows: [80000000], direct: [] })
pq desulfured: 1 1, 1, 80000001, 80000001, -, 80000001 = Err(NotAPoint)
q desulfured: 2 1, 1, 160000000, 160000000, -, 160000000 = Ok(WrittenPlan { base: 1, flow_base: 1, weights: [1], outflows: [80000000], direct: [] })
q desulfured: 2 1, 1, 160000001, 160000001, -, 160000001 = Err(NotAPoint)
p desulfured: 1 1, 3000000, 80000000, 80000000, -, 240000000000000 = Ok(WrittenPlan { base: 1, flow_base: 1, weights: [1], outflows: [80000000], direct: [] })
p-again desulfured: 1 1, 3000000, 80000000, 80000000, -, 240000000000000 = Ok(WrittenPlan { base: 1, flow_base: 1, weights: [1], outflows: [80000000], direct: [] })
p desulfured: 1 1, 3000000, 80000001, 80000001, -, 240000003000000 = Err(NotAPoint)
p desulfured: 1 1, 1500000, 80000000, 80000000, -, 120000000000000 = Err(NotAPoint)
";

/// Puts the numbers of a text into a list.
fn fill<T: FromStr<Err: Drop> + Drop>(list: &mut Vec<T>, text: &str) -> Option<()> {
    if text != "-" {
        for word in text.split(' ') {
            list.push(word.parse().ok()?).ok()?;
        }
    }
    Some(())
}

/// Puts the numbers of a line of the table into a point of form Q.
fn fill_by_proportions(point: &mut PropPoint, line: &str) -> Option<()> {
    let mut lists = line.split(", ");
    let (base, prop_base) = lists.next()?.split_once(' ')?;
    point.base = base.parse().ok()?;
    point.prop_base = prop_base.parse().ok()?;
    fill(&mut point.props, lists.next()?)?;
    fill(&mut point.x, lists.next()?)?;
    fill(&mut point.y, lists.next()?)?;
    fill(&mut point.z, lists.next()?)?;
    fill(&mut point.w, lists.next()?)
}

/// The same of a point of form P.
fn fill_by_qualities(point: &mut QualPoint, line: &str) -> Option<()> {
    let mut lists = line.split(", ");
    let (base, qual_base) = lists.next()?.split_once(' ')?;
    point.base = base.parse().ok()?;
    point.qual_base = qual_base.parse().ok()?;
    fill(&mut point.quals, lists.next()?)?;
    fill(&mut point.x, lists.next()?)?;
    fill(&mut point.y, lists.next()?)?;
    fill(&mut point.z, lists.next()?)?;
    fill(&mut point.mix, lists.next()?)
}

/// The point of form Q of a line.
fn by_proportions(alloc: Global, line: &str) -> Result<PropPoint, Fail> {
    let mut point = PropPoint {
        base: 0,
        prop_base: 0,
        props: Vec::new(alloc),
        x: Vec::new(alloc),
        y: Vec::new(alloc),
        z: Vec::new(alloc),
        w: Vec::new(alloc),
    };
    fill_by_proportions(&mut point, line).ok_or("a point")?;
    Ok(point)
}

/// The point of form P of a line.
fn by_qualities(alloc: Global, line: &str) -> Result<QualPoint, Fail> {
    let mut point = QualPoint {
        base: 0,
        qual_base: 0,
        quals: Vec::new(alloc),
        x: Vec::new(alloc),
        y: Vec::new(alloc),
        z: Vec::new(alloc),
        mix: Vec::new(alloc),
    };
    fill_by_qualities(&mut point, line).ok_or("a point")?;
    Ok(point)
}

/// The plan of the point of a plan.
fn again(alloc: Global, net: &Network, plan: &WrittenPlan) -> Result<String, Fail> {
    check_plan(net, plan)?;
    let point = program_points::p::point_of(alloc, net, plan)?;
    Ok(format!(in alloc; "{:?}", p::plan_of(alloc, net, &point))?)
}

/// The plan of a point of form P, or why there is none; with `twice` the plan of that plan's point.
fn told_by_qualities(
    alloc: Global,
    net: &Network,
    line: &str,
    twice: bool,
) -> Result<String, Fail> {
    let point = by_qualities(alloc, line)?;
    match p::plan_of(alloc, net, &point) {
        Ok(plan) if twice => again(alloc, net, &plan),
        told => Ok(format!(in alloc; "{told:?}")?),
    }
}

/// The plan of a point of a form, or why there is none.
fn told(alloc: Global, net: &Network, form: &str, line: &str) -> Result<String, Fail> {
    if form.starts_with('p') && form != "pq" {
        return told_by_qualities(alloc, net, line, form == "p-again");
    }
    let point = by_proportions(alloc, line)?;
    let told = if form == "pq" {
        pq::plan_of(alloc, net, &point)
    } else {
        q::plan_of(alloc, net, &point)
    };
    Ok(format!(in alloc; "{told:?}")?)
}

/// The same of a line of the table.
fn told_of(alloc: Global, asked: &str) -> Result<String, Fail> {
    let (head, line) = asked.split_once(": ").ok_or("a point")?;
    let (form, name) = head.split_once(' ').ok_or("a network")?;
    let file = if name == "direct" {
        ONE_DIRECT
    } else if name == "desulfured" {
        DESULFURED
    } else {
        HAVERLY_1
    };
    let net = network(alloc, file)?;
    told(alloc, &net, form, line)
}

#[test]
fn a_point_has_its_plan_or_none(rt: HostRuntime) -> Result<(), Fail> {
    let alloc = rt.alloc();
    for line in POINTS.lines() {
        let (asked, answer) = line.split_once(" = ").ok_or("an answer")?;
        let told = told_of(alloc, asked)?;
        assert_eq!(rt; told.as_str(), answer, "of {asked}");
    }
    Ok(())
}
