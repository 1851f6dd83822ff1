//! A run that records nothing.

ghost use Rattle.std.specs.Prelude.{IfOk};
ghost use Rattle.disk_calls.specs.Disks.{untold};
ghost use Rattle.pool_model.specs.Network.{net_of};
ghost use Rattle.box_tree.specs.Kept.{IsOf, searched_of};
ghost use Rattle.search_core.specs.Searches.{IsAsked};
ghost use Rattle.search_run.specs.Found.{IsFound};
ghost use Rattle.search_run.specs.Orders.{options_of};
ghost use Rattle.search_run.specs.Runs.{IsRun};
ghost use Rattle.recorded_run.specs.Sessions.{nowhere};

use crate::driving::drive;
use crate::outcome::Outcome;
use crate::recorder::Recorder;
use blend_network::Network;
use box_tree::{Entry, Tree};
use disk_calls::DiskFailed;
use edge_io::Memory;
use search_core::Search;
use search_run::Orders;
use std::alloc::Global;

/// Records nothing, where there is no disk.
#[derive(Drop)]
struct Unrecorded;

impl Recorder<()> for Unrecorded {
    ghost told = { λ _. untold 0 };

    ghost next = { λ _. nowhere };

    ghost takes = { λ _ _ _. Unit {0} };

    fn record(
        &mut self,
        _net: &Network,
        _search: &Search,
        _disk: &mut (),
        _entry: &Entry,
    ) -> Result<(), DiskFailed> {
        Ok(())
    }
}

/// Goes on from a tree of the network until nothing more is to be done for the orders, records nothing, and says how that ended. The
/// only error is want of memory.
///
/// Each entry that is added is the step that is due: the cheapest starting plan, then a proof of the root, then again and again a
/// split of the least leaf, with a repaired plan before it where there is one.
pub fn run_search(
    alloc: Global,
    net: &Network,
    orders: Orders,
    tree: Tree,
) -> Result<Outcome, Memory>
    requires asked { IsAsked (options_of orders) }
    requires tree { IsOf (net_of net.now) tree }
    ensures tree { IfOk result (λ r. IsOf (net_of net.now) r.tree) }
    // Promise: A search ends: its steps, one due after another, lead to an end that holds of the tree
    ensures run { IfOk result (λ r. IsRun (net_of net.now) orders (searched_of tree.kept) (searched_of r.tree.kept) r.ended) }
    // Promise: A search ends: its steps, one due after another, lead to an end that holds of the tree
    ensures found { IfOk result (λ r. IsFound (net_of net.now) orders (searched_of tree.kept) (searched_of r.tree.kept) r.ended) }
{
    let mut search = Search::start(alloc, net, orders.options(), tree)?;
    match drive(alloc, net, orders, &mut search, &mut Unrecorded, &mut ()) {
        Ok(ended) => {
            let tree = search.into_tree();
            Ok(Outcome { tree, ended })
        }
        // Only memory can be wanting, where there is no disk.
        Err(_) => Err(Memory),
    }
}
