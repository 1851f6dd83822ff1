//! The certificate of a tree over two feeds to one pool, with a plan and without one.

ghost use Rattle.pool_model.specs.Network.{net_of};
ghost use Rattle.box_tree.specs.Kept.{IsOf};

use super::{TREE, TREE_BOUND};
use blend_network::Network;
use box_space::{Part, Proof, Split};
use box_tree::{Entry, EntryFault, Tree};
use cert_format::write_cert;
use edge_io::MemSink;
use plan_core::zero_plan;
use std::alloc::{AllocError, Global};
use std::test::Fail;
use tree_certificate::certificate_of;
use worked_networks::{TWO_FEEDS, network};

/// The proportions of the pool's feeds can't sum to 1: multiplier 1 on their row, without the cost.
fn too_few(alloc: Global) -> Result<Proof, AllocError> {
    Ok(Proof {
        scale: 0,
        parts: vec![in alloc; Part { row: 11, mult: 1 }]?,
    })
}

/// A split of the root, and one of its left half whose left half has a proof.
fn cut_twice(alloc: Global, net: &Network, tree: &mut Tree) -> Result<(), EntryFault>
    requires { IsOf (net_of net.now) tree.old }
    ensures { IsOf (net_of net.now) tree.new }
{
    let upper = Split {
        leaf: 0,
        coord: 0,
        cut: 524_288,
    };
    let lower = Split {
        leaf: 1,
        coord: 1,
        cut: 262_144,
    };
    tree.apply(net, Entry::SplitOf(upper, None, None))?;
    tree.apply(net, Entry::SplitOf(lower, Some(too_few(alloc)?), None))
}

/// The text of a tree's certificate.
fn text_of(alloc: Global, net: &Network, tree: Tree) -> Result<MemSink, Fail>
    requires { IsOf (net_of net.now) tree }
{
    let certificate = certificate_of(alloc, net, tree)?;
    let mut sink = MemSink::new(alloc, Vec::new(alloc));
    write_cert(&certificate, &mut sink)?;
    Ok(sink)
}

/// The certificate of the tree that is cut so.
fn without_a_plan(alloc: Global, net: &Network) -> Result<MemSink, Fail> {
    let mut tree = Tree::start(alloc, net)?;
    cut_twice(alloc, net, &mut tree)?;
    text_of(alloc, net, tree)
}

/// The same where the zero plan is the best so far.
fn with_a_plan(alloc: Global, net: &Network) -> Result<MemSink, Fail> {
    let mut tree = Tree::start(alloc, net)?;
    cut_twice(alloc, net, &mut tree)?;
    tree.apply(net, Entry::Improve(zero_plan(alloc, net)?))?;
    text_of(alloc, net, tree)
}

#[test]
fn a_tree_is_written_with_its_plan_and_without_one(rt: HostRuntime) -> Result<(), Fail> {
    let alloc = rt.alloc();
    let net = network(alloc, TWO_FEEDS)?;
    assert_eq!(rt; without_a_plan(alloc, &net)?.taken(), TREE_BOUND.as_bytes());
    assert_eq!(rt; with_a_plan(alloc, &net)?.taken(), TREE.as_bytes());
    Ok(())
}
