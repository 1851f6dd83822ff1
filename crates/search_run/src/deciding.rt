//! What is due under the orders: what comes next for the search, in place of a cut a squeeze, where one is asked for and found, and each split
//! with its halves raised, where that is asked for.

ghost use Rattle.std.specs.Prelude.{◌≡◌, ◌<◌, length, IfOk, IfSome, IfNone};
ghost use Rattle.pool_model.specs.Network.{net_of};
ghost use Rattle.row_model.specs.Trees.{IsLeastLeaf};
ghost use Rattle.search_core.specs.Cases.{HasNoBetterStart};
ghost use Rattle.search_core.specs.Searches.{searched, IsAsked, IsSearchOf};
ghost use Rattle.search_run.specs.Due.{cut_leaf, split_leaf, IsChosenNext, IsDueNext, IsSqueezeEntry};
ghost use Rattle.search_run.specs.Orders.{options_of};
ghost use Rattle.search_run.specs.Steps.{OwesNone};

use crate::orders::Orders;
use crate::rules::next_by;
use blend_network::Network;
use box_squeeze::{squeeze_looked, target_of};
use box_tree::Entry;
use edge_io::Memory;
use leaf_cuts::{KnownAdvice, SolvedCuts};
use raised_splits::raised_entry;
use search_core::{Answer, Next, Search};
use std::alloc::Global;

/// What is due for a search under the orders: an entry to take, or how the run ended. Where squeezes are asked for and there is a plan, a
/// cut of the least leaf gives way to a squeeze of it, if one is found. Where pivots are asked for, the halves of a split are raised.
/// What one call leaves known is handed to the next.
pub fn due(
    alloc: Global,
    net: &Network,
    orders: Orders,
    search: &Search,
    known: &mut Option<KnownAdvice>,
) -> Result<Next, Memory>
    requires search { IsSearchOf (net_of net.now) search.now }
    requires options { search.now.options ≡ options_of orders }
    requires asked { IsAsked (options_of orders) }
    ensures { IfOk result (IsDueNext (net_of net.now) orders search.now) }
{
    let next = chosen(alloc, net, orders, search, known)?;
    match next {
        Next::Do(entry) => raised(alloc, net, orders, search, entry),
        Next::End(ended) => Ok(Next::End(ended)),
    }
}

/// What is due where an entry was chosen: the entry with its halves raised, where that is asked for.
fn raised(
    alloc: Global,
    net: &Network,
    orders: Orders,
    search: &Search,
    entry: Entry,
) -> Result<Next, Memory>
    requires search { IsSearchOf (net_of net.now) search.now }
    requires options { search.now.options ≡ options_of orders }
    requires chosen { IsChosenNext (net_of net.now) orders search.now (Next.Do entry) }
    ensures { IfOk result (IsDueNext (net_of net.now) orders search.now) }
{
    let tree = search.tree();
    let entry = raised_entry(alloc, net, orders.form, tree, entry, orders.raise)?;
    Ok(Next::Do(entry))
}

/// What is due, before the halves of a split are raised.
fn chosen(
    alloc: Global,
    net: &Network,
    orders: Orders,
    search: &Search,
    known: &mut Option<KnownAdvice>,
) -> Result<Next, Memory>
    requires search { IsSearchOf (net_of net.now) search.now }
    requires options { search.now.options ≡ options_of orders }
    requires asked { IsAsked (options_of orders) }
    ensures { IfOk result (IsChosenNext (net_of net.now) orders search.now) }
{
    let Answer { due, solved, .. } = next_by(alloc, net, orders.rule, search, known)?;
    let Some(leaf) = cut_leaf(&due) else {
        return Ok(due);
    };
    let squeezed = squeezed_leaf(alloc, net, orders, search, leaf, &solved)?;
    match squeezed {
        Some(entry) => Ok(Next::Do(entry)),
        None => Ok(due),
    }
}

/// The leaf that is cut, where a split is due.
fn cut_leaf(due: &Next) -> Option<u32>
    ensures { result ≡ cut_leaf due.now }
{
    match due {
        Next::Do(entry) => split_leaf(entry),
        Next::End(_) => None,
    }
}

/// The leaf that an entry cuts, where it is a split.
fn split_leaf(entry: &Entry) -> Option<u32>
    ensures { result ≡ split_leaf entry.now }
{
    match entry {
        Entry::SplitOf(split, _, _) => Some(split.leaf),
        Entry::Root(_) | Entry::Improve(_) => None,
    }
}

/// A squeeze of the least leaf, where squeezes are asked for and there is a plan.
fn squeezed_leaf(
    alloc: Global,
    net: &Network,
    orders: Orders,
    search: &Search,
    leaf: u32,
    solved: &SolvedCuts,
) -> Result<Option<Entry>, Memory>
    requires search { IsSearchOf (net_of net.now) search.now }
    requires options { search.now.options ≡ options_of orders }
    requires asked { IsAsked (options_of orders) }
    requires start { HasNoBetterStart (net_of net.now) (searched search.now) }
    requires leaf { IsLeastLeaf (net_of net.now) (searched search.now).tree leaf }
    requires few { length (searched search.now).tree.splits < orders.nodes }
    ensures some { IfOk result (λ o. IfSome o (IsSqueezeEntry (net_of net.now) orders (searched search.now))) }
    ensures none { IfOk result (λ o. IfNone o (OwesNone (net_of net.now) orders (searched search.now) leaf)) }
{
    if !orders.squeeze {
        return Ok(None);
    }
    let tree = search.tree();
    let Some(cost) = tree.best_cost() else {
        return Ok(None);
    };
    let target = target_of(&cost, orders.gap);
    let pivots = orders.options().pivots;
    let form = orders.form;
    let squeezed = squeeze_looked(alloc, net, tree, form, leaf, target, pivots, solved)?;
    match squeezed {
        Some(found) => Ok(Some(found.entry)),
        None => Ok(None),
    }
}
