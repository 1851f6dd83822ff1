//! A tree over two feeds to one pool that is cut twice, the entries that it refuses, and what it answers.

ghost use Rattle.pool_model.specs.Network.{net_of};
ghost use Rattle.box_tree.specs.Kept.{IsOf};

use blend_network::Network;
use box_space::{Part, Proof, Split};
use box_tree::{Entry, EntryFault, Tree};
use edge_io::Memory;
use plan_core::zero_plan;
use std::alloc::{AllocError, Global};
use std::test::Fail;
use worked_networks::{TWO_FEEDS, network};

/// A split without proofs.
fn split(leaf: u32, coord: u32, cut: i64) -> Entry {
    Entry::SplitOf(Split { leaf, coord, cut }, None, None)
}

/// The proportions of the pool's feeds can't sum to 1: multiplier 1 on their row, without the cost.
fn too_few(alloc: Global) -> Result<Proof, AllocError> {
    Ok(Proof {
        scale: 0,
        parts: vec![in alloc; Part { row: 11, mult: 1 }]?,
    })
}

/// Gives a tree the zero plan, and splits its root.
fn cut_once(alloc: Global, net: &Network, tree: &mut Tree) -> Result<(), EntryFault>
    requires { IsOf (net_of net.now) tree.old }
    ensures { IsOf (net_of net.now) tree.new }
{
    let zero = zero_plan(alloc, net)?;
    tree.apply(net, Entry::Improve(zero))?;
    tree.apply(net, split(0, 0, 524_288))
}

/// What comes of a split of a node that is cut, of one on the end of its box, of a late proof of the root, and of the same plan again.
fn refused(alloc: Global, net: &Network, tree: &mut Tree) -> Result<String, EntryFault>
    requires { IsOf (net_of net.now) tree.old }
    ensures { IsOf (net_of net.now) tree.new }
{
    let again = zero_plan(alloc, net)?;
    let late = Proof {
        scale: 1,
        parts: Vec::new(alloc),
    };
    let told = [
        tree.apply(net, split(0, 1, 262_144)),
        tree.apply(net, split(1, 0, 524_288)),
        tree.apply(net, Entry::Root(late)),
        tree.apply(net, Entry::Improve(again)),
    ];
    Ok(format!(in alloc; "{told:?}\n")?)
}

/// A split of the tree's node 1 whose left half has a proof.
fn cut_again(alloc: Global, net: &Network, tree: &mut Tree) -> Result<(), EntryFault>
    requires { IsOf (net_of net.now) tree.old }
    ensures { IsOf (net_of net.now) tree.new }
{
    let lower = Split {
        leaf: 1,
        coord: 1,
        cut: 262_144,
    };
    let proof = too_few(alloc)?;
    tree.apply(net, Entry::SplitOf(lower, Some(proof), None))
}

/// The bound of the tree and those of its nodes 3 and 4, which of the two has a proof, the least leaf, and the best cost.
fn bounds(alloc: Global, tree: &Tree) -> Result<String, AllocError> {
    let (bound, least, cost) = (tree.bound(), tree.least_leaf(), tree.best_cost());
    let of_nodes = [tree.node_bound(3), tree.node_bound(4)];
    let proved = [tree.proof_of(3).is_some(), tree.proof_of(4).is_some()];
    format!(in alloc; "{bound:?} {of_nodes:?} {proved:?} {least:?} {cost:?}\n")
}

/// Its open leaves, up to 9 and up to 1, and how many splits there are on each coordinate.
fn lists(alloc: Global, tree: &Tree) -> Result<String, Memory> {
    let (all, one) = (tree.open_leaves(9)?, tree.open_leaves(1)?);
    Ok(format!(in alloc; "{all:?} {one:?} {:?}\n", tree.cuts())?)
}

/// The ends of node 4 of a tree of two splits.
fn ends(alloc: Global, net: &Network, tree: &Tree) -> Result<String, Memory>
    requires { IsOf (net_of net.now) tree.now }
{
    if tree.splits().len() != 2 {
        return Ok(String::new(alloc));
    }
    let ends = tree.box_of(net, 4)?;
    Ok(format!(in alloc; "{:?} {:?}\n", ends.low.as_slice(), ends.high.as_slice())?)
}

/// What a tree of the root alone answers once it is cut, and cut again.
fn answers(alloc: Global, net: &Network, tree: &mut Tree) -> Result<String, EntryFault>
    requires { IsOf (net_of net.now) tree.old }
{
    cut_once(alloc, net, tree)?;
    let mut told = refused(alloc, net, tree)?;
    cut_again(alloc, net, tree)?;
    told.push_str(&bounds(alloc, tree)?)?;
    told.push_str(&lists(alloc, tree)?)?;
    told.push_str(&ends(alloc, net, tree)?)?;
    Ok(told)
}

fn told(alloc: Global) -> Result<String, Fail> {
    let net = network(alloc, TWO_FEEDS)?;
    let mut tree = Tree::start(alloc, &net)?;
    Ok(answers(alloc, &net, &mut tree)?)
}

/// The box of node 4 ends at the cuts above it; the pool's quality is from 1 to 3, and what flows from it at most 100.
#[test]
fn a_tree_that_is_cut_twice(rt: HostRuntime) -> Result<(), Fail> {
    let told = told(rt.alloc())?;
    let expected = "\
[Err(NotALeaf), Err(CutOutside), Err(RootLate), Err(PlanNotBetter)]
Some(-300000000000000) [None, Some(-300000000000000)] [true, false] Some(2) Some(Cost { num: 0, base: 1 })
[2, 4] [2] [1, 1, 0, 0]
[0, 262144, 1000000, 0] [524288, 1048576, 3000000, 100000000]
";
    assert_eq!(rt; told.as_str(), expected);
    Ok(())
}
