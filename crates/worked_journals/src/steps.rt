//! The first steps of a search, a call at a time.

ghost use Rattle.branching.specs.Known.{IsFirstOpen};
ghost use Rattle.branching.specs.Rows.{HasOpen};
ghost use Rattle.pool_model.specs.Network.{net_of};
ghost use Rattle.search_core.specs.Searches.{IsSearchOf};

use blend_network::Network;
use box_space::Form;
use box_tree::Tree;
use branching::{CutRule, LeafView, first_open};
use leaf_cuts::KnownAdvice;
use search_core::{Answer, Next, Options, Search};
use std::alloc::{AllocError, Global};
use std::test::Fail;
use worked_networks::{HAVERLY_1, ONE_DIRECT, network};

/// To gap 0, and no more than three splits.
const OPTIONS: Options = Options {
    form: Form::Pq,
    nodes: 3,
    gap: 0,
    pivots: 1_000,
    looks: 0,
};

/// The rule of the first open coordinate.
fn rule(alloc: Global) -> Result<CutRule, AllocError> {
    let closure = Box::new(
        alloc,
        |view: &LeafView| -> usize
            requires { HasOpen view.now.rows }
            ensures { IsFirstOpen view.now.rows result }
        { first_open(view) },
    )?;
    Ok(CutRule::new(closure))
}

/// Takes what is due, where that is an entry, and says what it was, with the point that was tried.
fn step(
    alloc: Global,
    net: &Network,
    search: &mut Search,
    rule: &CutRule,
    known: &mut Option<KnownAdvice>,
) -> Result<String, Fail>
    requires { IsSearchOf (net_of net.now) search.old }
    ensures { IsSearchOf (net_of net.now) search.new }
{
    let Answer { due, tried, .. } = search.next(alloc, net, rule, known)?;
    let told = format!(in alloc; "{due:?}, {tried:?}\n")?;
    if let Next::Do(entry) = due {
        search.take(net, entry)?;
    }
    Ok(told)
}

/// What is due first, and what once that was taken.
fn first_steps(alloc: Global, net: &Network) -> Result<String, Fail> {
    let rule = rule(alloc)?;
    let tree = Tree::start(alloc, net)?;
    let mut search = Search::start(alloc, net, OPTIONS, tree)?;
    let first = step(alloc, net, &mut search, &rule, &mut None)?;
    let second = step(alloc, net, &mut search, &rule, &mut None)?;
    Ok(format!(in alloc; "{first}{second}")?)
}

/// The first five steps, each of which begins with what is known: what the one before it left, or nothing.
fn five_steps(alloc: Global, net: &Network, keeps: bool) -> Result<String, Fail> {
    let rule = rule(alloc)?;
    let tree = Tree::start(alloc, net)?;
    let mut search = Search::start(alloc, net, OPTIONS, tree)?;
    let mut known = None;
    let first = step(alloc, net, &mut search, &rule, &mut known)?;
    let second = step(alloc, net, &mut search, &rule, &mut known)?;
    known = known.filter(|_| keeps);
    let third = step(alloc, net, &mut search, &rule, &mut known)?;
    known = known.filter(|_| keeps);
    let fourth = step(alloc, net, &mut search, &rule, &mut known)?;
    let fifth = step(alloc, net, &mut search, &rule, &mut known)?;
    Ok(format!(in alloc; "{first}{second}{third}{fourth}{fifth}")?)
}

/// A ships 100 to X, which costs 600 and brings 900. By the reach bound no plan does better, so nothing is due then, and no point was tried.
#[test]
fn a_plan_is_due_and_then_nothing(rt: HostRuntime) -> Result<(), Fail> {
    let alloc = rt.alloc();
    let net = network(alloc, ONE_DIRECT)?;
    let expected =
        "Do(Improve(WrittenPlan { base: 1, flow_base: 1, weights: [], outflows: [], direct: [100000000] })), None\nEnd(Closed), None\n";
    let steps = first_steps(alloc, &net)?;
    assert_eq!(rt; steps.as_str(), expected);
    Ok(())
}

/// Haverly's first network, as docs/SEARCH.md has it step by step: the plan that sends nothing, a proof of the root, a plan from its point, a cut,
/// and then nothing. What the proof leaves known, and what the plan does, change none of it.
#[test]
fn what_is_known_changes_no_step(rt: HostRuntime) -> Result<(), Fail> {
    let alloc = rt.alloc();
    let net = network(alloc, HAVERLY_1)?;
    let kept = five_steps(alloc, &net, true)?;
    let forgotten = five_steps(alloc, &net, false)?;
    assert_eq!(rt; kept.as_str(), forgotten.as_str());
    let starts = [
        "Do(Improve(",
        "Do(Root(",
        "Do(Improve(",
        "Do(SplitOf(",
        "End(Closed), ",
    ];
    assert_eq!(rt; kept.lines().count(), starts.len());
    assert!(rt;
        kept.lines()
            .zip(starts)
            .all(|(line, start)| line.starts_with(start))
    );
    Ok(())
}
