//! Leaves put into their order and taken out.

use leaf_order::{LeafOrder, OpenLeaf};
use std::alloc::{AllocError, Global};
use std::test::Fail;

fn leaf(bound: i128, node: u32) -> Option<OpenLeaf> {
    Some(OpenLeaf { bound, node })
}

/// A root of the bound -5; its halves, of -3 each; the right one's halves, of -3 and -4; and the left one's, of which one holds no plan.
fn grown(alloc: Global) -> Result<LeafOrder, AllocError> {
    let mut order = LeafOrder::new(alloc);
    order.put(leaf(-5, 0), None)?;
    order.put(leaf(-3, 1), leaf(-3, 2))?;
    order.take_out(leaf(-5, 0));
    order.put(leaf(-3, 3), leaf(-4, 4))?;
    order.take_out(leaf(-3, 2));
    order.put(None, leaf(-3, 6))?;
    order.take_out(leaf(-3, 1));
    Ok(order)
}

/// The first leaf, and the first two; and all after a leaf that is there is put in and its like of another bound taken out, and after
/// another has got a lesser bound.
fn told(alloc: Global) -> Result<String, AllocError> {
    let mut order = grown(alloc)?;
    let (first, two) = (order.first(), order.nodes(2)?);
    order.put(leaf(-4, 4), leaf(-3, 3))?;
    order.take_out(leaf(-3, 4));
    let same = order.nodes(9)?;
    order.replace(leaf(-3, 6), leaf(-5, 6))?;
    format!(in alloc; "{first:?} {two:?} {same:?} {:?}", order.nodes(9)?)
}

#[test]
fn leaves_come_by_bound_and_then_by_number(rt: HostRuntime) -> Result<(), Fail> {
    let expected = "Some(OpenLeaf { bound: -4, node: 4 }) [4, 3] [4, 3, 6] [6, 4, 3]";
    assert_eq!(rt; told(rt.alloc())?.as_str(), expected);
    Ok(())
}
