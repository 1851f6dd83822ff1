//! A desk with the job of the root alone, over two feeds to one pool: each way in which an answer is judged, and what is taken.

ghost use Rattle.pool_model.specs.Network.{net_of};
ghost use Rattle.box_tree.specs.Kept.{IsOf};

use blend_network::Network;
use box_space::Split;
use box_tree::{Entry, Tree};
use edge_io::Memory;
use std::alloc::Global;
use std::test::Fail;
use work_units::{Answer, Desk, jobs_of};
use worked_networks::{TWO_FEEDS, network};

/// An answer that splits a leaf at the first coordinate, without proofs.
fn answer(number: u32, leaf: u32, cut: i64) -> Answer {
    let coord = 0;
    Answer {
        number,
        entry: Entry::SplitOf(Split { leaf, coord, cut }, None, None),
    }
}

/// How answers are judged before anything is taken: one with a cut on the end of the box, one with no job of its number, one that
/// splits another node, and one that fits.
fn judged(alloc: Global, net: &Network, desk: &Desk) -> Result<String, Memory>
    requires { IsOf (net_of net.now) desk.now.tree }
{
    let told = [
        desk.judge(net, &answer(0, 0, 0))?,
        desk.judge(net, &answer(3, 0, 524_288))?,
        desk.judge(net, &answer(0, 1, 524_288))?,
        desk.judge(net, &answer(0, 0, 524_288))?,
    ];
    Ok(format!(in alloc; "{told:?}\n")?)
}

/// What comes of the same answers and of the last one again, how many are taken, how many splits there are then, and the bound.
fn delivered(alloc: Global, net: &Network, desk: &mut Desk) -> Result<String, Memory>
    requires { IsOf (net_of net.now) desk.old.tree }
{
    let told = [
        desk.deliver(net, answer(0, 0, 0))?,
        desk.deliver(net, answer(3, 0, 524_288))?,
        desk.deliver(net, answer(0, 1, 524_288))?,
        desk.deliver(net, answer(0, 0, 524_288))?,
        desk.deliver(net, answer(0, 0, 524_288))?,
    ];
    let (taken, tree) = (desk.taken().len(), desk.tree());
    Ok(format!(in alloc;
        "{told:?}\n{taken} {} {:?}\n",
        tree.splits().len(),
        tree.bound()
    )?)
}

/// The jobs of the root alone, and what a desk with them answers.
fn told(alloc: Global) -> Result<String, Fail> {
    let net = network(alloc, TWO_FEEDS)?;
    let tree = Tree::start(alloc, &net)?;
    let jobs = jobs_of(alloc, &tree, 1000)?;
    let mut told = format!(in alloc; "{:?}\n", jobs.as_slice())?;
    let mut desk = Desk::start(alloc, tree, jobs)?;
    told.push_str(&judged(alloc, &net, &desk)?)?;
    told.push_str(&delivered(alloc, &net, &mut desk)?)?;
    Ok(told)
}

#[test]
fn each_way_in_which_an_answer_is_judged(rt: HostRuntime) -> Result<(), Fail> {
    let told = told(rt.alloc())?;
    let expected = "\
[Job { number: 0, node: 0 }]
[Refused(CutOutside), Stranger, Wrong, Fits]
[Refused(CutOutside), Stranger, Wrong, Fits, Repeated]
1 1 Some(-300000000000000)
";
    assert_eq!(rt; told.as_str(), expected);
    Ok(())
}
