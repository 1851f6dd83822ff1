//! A leaf that is squeezed: its lowest quarter of flow can't pay as much as the best plan, with a gap.

ghost use Rattle.std.specs.Prelude.{IfOk, ◌^◌, pos, neg_ℤ, ◌<ℤ◌};
ghost use Rattle.pool_model.specs.Network.{net_of};
ghost use Rattle.box_tree.specs.Kept.{IsOf};

use blend_network::Network;
use box_space::Form;
use box_squeeze::{Squeezed, squeeze, squeeze_free, target_of};
use box_tree::{Entry, EntryFault, Tree};
use plan_core::{Cost, WrittenPlan};
use std::alloc::{AllocError, Global};
use std::test::Fail;
use worked_networks::{TWO_FEEDS, network};

/// No source, no product and no arc.
const NOTHING: &str = "{\"version\":1,\"sources\":[],\"products\":[],\"arcs\":[]}";

/// The plan of 100 of the first source.
fn all_of_the_first(alloc: Global) -> Result<WrittenPlan, AllocError> {
    Ok(WrittenPlan {
        base: 1,
        flow_base: 1,
        weights: vec![in alloc; 1, 0]?,
        outflows: vec![in alloc; 100_000_000]?,
        direct: Vec::new(alloc),
    })
}

/// The tree of the root, with that plan where there are feeds.
fn planned(alloc: Global, net: &Network) -> Result<Tree, EntryFault>
    ensures { IfOk result (IsOf (net_of net.now)) }
{
    let mut tree = Tree::start(alloc, net)?;
    if net.sizes().feeds > 0 {
        tree.apply(net, Entry::Improve(all_of_the_first(alloc)?))?;
    }
    Ok(tree)
}

/// The split that a squeeze of the root answers, by the empty proof alone or by programs too, the node that is kept, and whether the
/// other one's bound is what a quarter of the flow can pay, or more.
fn told(alloc: Global, net: &Network, target: i128, free: bool) -> Result<String, EntryFault>
    requires { neg_ℤ (pos (2 ^ 120)) <ℤ target }
{
    let mut tree = planned(alloc, net)?;
    if !tree.splits().is_empty() {
        return Ok(String::new(alloc));
    }
    let squeezed = if free {
        squeeze_free(alloc, net, &tree, Form::Pq, 0, target, 1000)?
    } else {
        squeeze(alloc, net, &tree, Form::Pq, 0, target, 1000)?
    };
    let Some(squeezed) = squeezed else {
        return Ok(String::from_str(alloc, "none\n")?);
    };
    let Squeezed { entry, kept } = squeezed;
    tree.apply(net, entry)?;
    let closed = tree.node_bound(1).unwrap_or(0) >= -225_000_000_000_000;
    Ok(format!(in alloc; "{:?} {kept} {closed}\n", tree.splits())?)
}

/// 300 of money less a hundredth is no more than what the plan earns, which sends 100 at 3 each; 25 of the product pay 225 at most.
#[test]
fn a_quarter_is_cut_off_that_pays_too_little(rt: HostRuntime) -> Result<(), Fail> {
    let earned = Cost {
        num: -600_000_000_000_001,
        base: 2,
    };
    let target = target_of(&earned, 10_000_000_000);
    let net = network(rt.alloc(), TWO_FEEDS)?;
    let mut text = format!(in rt.alloc(); "{target}\n")?;
    let nothing = network(rt.alloc(), NOTHING)?;
    for free in [false, true] {
        text.push_str(&told(rt.alloc(), &net, target, free)?)?;
        text.push_str(&told(rt.alloc(), &nothing, 0, free)?)?;
    }
    let expected = "\
-300010000000000
[Split { leaf: 0, coord: 3, cut: 25000000 }] 2 true
none
[Split { leaf: 0, coord: 3, cut: 25000000 }] 2 true
none
";
    assert_eq!(rt; text.as_str(), expected);
    Ok(())
}
