//! Points of the relaxation of a root box, and whether each is a witness for a bound.

use blend_network::Network;
use box_space::{Form, LinRow, root_box};
use relaxation_points::{RelaxPoint, is_witness};
use std::alloc::Global;
use std::test::Fail;
use worked_networks::{ONE_DIRECT, network};

/// A bound, and the base and the value of a point; whether it is a witness for the bound in the root box of a network whose one
/// variable is what flows from a source to a product, at most 100 units at a profit of 3 each.
const OF_ONE_DIRECT: &str = "\
-300000000000000 1 100000000 = true
-300000000000000 1 99999999 = false
-300000000000000 1 100000001 = false
-300000000000000 0 100000000 = false
-300000000000001 1 100000000 = false
-299999997000000 1 99999999 = true
-299999997000001 1 99999999 = false
-300000000000000 3000000 299999999999999 = false
-300000000000000 3000001 300000099999999 = true
";

/// Whether the point of a line is a witness for its bound.
fn told(alloc: Global, net: &Network, line: &str) -> Result<bool, Fail> {
    let root = root_box(alloc, net)?;
    let mut row = LinRow::new(alloc)?;
    let mut numbers = line.split(' ');
    let bound = numbers
        .next()
        .ok_or("a bound")?
        .parse()
        .ok()
        .ok_or("a bound")?;
    let base = numbers
        .next()
        .ok_or("a base")?
        .parse()
        .ok()
        .ok_or("a base")?;
    let value = numbers
        .next()
        .ok_or("a value")?
        .parse()
        .ok()
        .ok_or("a value")?;
    let values = vec![in alloc; value]?;
    let point = RelaxPoint { base, values };
    Ok(is_witness(net, Form::Pq, &root.view(), bound, &point, &mut row))
}

#[test]
fn points_of_one_direct(rt: HostRuntime) -> Result<(), Fail> {
    let alloc = rt.alloc();
    let net = network(alloc, ONE_DIRECT)?;
    let mut found = String::new(alloc);
    for line in OF_ONE_DIRECT.lines() {
        let (point, _) = line.split_once(" = ").ok_or("an answer")?;
        let answer = told(alloc, &net, point)?;
        found.push_str(&format!(in alloc; "{point} = {answer}\n")?)?;
    }
    assert_eq!(rt; found.as_str(), OF_ONE_DIRECT);
    Ok(())
}
