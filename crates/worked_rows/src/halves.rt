//! The halves of a box.

use blend_network::Network;
use box_space::{BoxEnds, halves, root_box};
use edge_io::Memory;
use std::alloc::{AllocError, Global};
use std::test::Fail;
use worked_networks::{TWO_FEEDS, network};

/// The ends of a box, low and high.
fn ends(alloc: Global, b: &BoxEnds) -> Result<String, AllocError> {
    format!(in alloc; "{:?} {:?}\n", b.low.as_slice(), b.high.as_slice())
}

/// The halves of the root box that is cut at coordinate 0; nothing where the cut is not inside.
fn root_halves(alloc: Global, net: &Network, cut: i64) -> Result<String, Memory> {
    let root = root_box(alloc, net)?;
    let view = root.view();
    if view.low.is_empty() || view.high.is_empty() {
        return Ok(String::new(alloc));
    }
    if view.low_at(0) >= cut || view.high_at(0) <= cut {
        return Ok(String::new(alloc));
    }
    let (left, right) = halves(alloc, &root, 0, cut)?;
    let (left, right) = (ends(alloc, &left)?, ends(alloc, &right)?);
    Ok(format!(in alloc; "{left}{right}")?)
}

/// The coordinates are the proportions of A and B in the pool, its sulfur, and what flows from it.
#[test]
fn a_box_is_cut_in_two(rt: HostRuntime) -> Result<(), Fail> {
    let net = network(rt.alloc(), TWO_FEEDS)?;
    let told = root_halves(rt.alloc(), &net, 524_288)?;
    let expected = "\
[0, 0, 1000000, 0] [524288, 1048576, 3000000, 100000000]
[524288, 0, 1000000, 0] [1048576, 1048576, 3000000, 100000000]
";
    assert_eq!(rt; told.as_str(), expected);
    Ok(())
}
