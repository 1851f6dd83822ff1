//! A recorded run from the file to the end of the search.

ghost use Rattle.std.specs.Prelude.{◌≡◌, ◌≤◌, ◌^◌, ◌⊎◌, ℕ, List, Some, length, IfOk, IfErr, IsErrAnd, IsErrOf, MatchResult};
ghost use Rattle.edge_io.specs.Counts.{Rose};
ghost use Rattle.disk_calls.specs.Disks.{Reaches, IsSameDisk};
ghost use Rattle.pool_model.specs.Network.{net_of};
ghost use Rattle.row_model.specs.Entries as entries;
ghost use Rattle.box_tree.specs.Kept.{IsOf, searched_of};
ghost use Rattle.node_journal.specs.Settled.{IsQuiet};
ghost use Rattle.journal_format.specs.declared.fault.JournalFault.TheVariants as journal_faults;
ghost use Rattle.search_core.specs.Searches.{IsAsked};
ghost use Rattle.search_run.specs.Orders.{options_of};
ghost use Rattle.recorded_run.specs.Recorded.{IsNetworksOwn, IsCause, IsFreeFault, IsLeftAlone, StandsNow, Ends};
ghost use Rattle.recorded_run.specs.Sessions.{IsResumed, IsRunFrom};

use crate::driving::drive;
use crate::fault::RunFault;
use crate::outcome::Outcome;
use crate::recovery::{Recovered, recover};
use blend_network::Network;
use disk_calls::Disk;
use search_core::Search;
use search_run::Orders;
use std::alloc::Global;

/// Opens the journal of the network on the file that is attached, and goes on from the tree of its entries until nothing more is to
/// be done for the orders; each entry is on the disk before the tree takes it. `text` is the network's canonical text.
pub fn run_recorded<D: Disk>(
    alloc: Global,
    net: &Network,
    text: &[u8],
    orders: Orders,
    disk: &mut D,
) -> Result<Outcome, RunFault>
    requires attached { Reaches (D.told disk.old) 0 }
    requires text { length text.now ≤ 2 ^ 20 }
    requires asked { IsAsked (options_of orders) }

    // Promise: Over every disk, real files too: the run goes on from the tree of entries that are in order on the network, each of its
    //   steps is one that was due, its end holds of the tree that is answered, and all that is proved of a search holds of that tree
    ensures tree { IfOk result (λ r. IsOf (net_of net.now) r.tree) }
    // The run goes on from the tree of entries, which are those that the file stands for.
    // Promise: Over every disk, real files too: the run goes on from the tree of entries that are in order on the network, each of its
    //   steps is one that was due, its end holds of the tree that is answered, and all that is proved of a search holds of that tree
    ensures run { IfOk result (λ r. IsResumed (net_of net.now) orders text.now (D.told disk.old) (searched_of r.tree.kept) r.ended) }
    // Of two lists, of which the last begins with the first: a crash at any moment leaves what it might have left before, or the
    // network's own file, for a list between the two, and no acknowledged entry is lost; none of these lists has more splits than were
    // asked for, or than the first. At the end the file stands for the last, also where memory ran out, and what is answered is the
    // tree of it.
    // Promise: On the network's own file a crash at any moment leaves a file from before the run, or the network's own for a list between
    //   the first and the last
    ensures any_moment { (file : List ℕ) (first : List entries.Entry) → (D.told disk.old).reads ≡ Some file → IsNetworksOwn (net_of net.now) text.now first file →
        IsRunFrom (net_of net.now) text.now orders first (D.told disk.old) (D.told disk.new) (λ last. MatchResult result
        (λ r. Ends (net_of net.now) text.now last (searched_of r.tree.kept) (D.told disk.new))
        (λ fault. fault ≡ RunFault.Journal journal_faults.Memory → StandsNow (net_of net.now) text.now last (D.told disk.new))) }

    // A refusal has its cause in the file, and a cause that is there is answered, unless disk or memory failed.
    // Promise: A run with a journal is refused only for a cause in the file, and such a cause is always the answer, unless disk or memory
    //   failed; a file has one cause at most
    ensures refused { IfErr result (λ f. (file : List ℕ) → (D.told disk.old).reads ≡ Some file → IsFreeFault f ⊎ IsCause (net_of net.now) text.now file f) }
    // Promise: A run with a journal is refused only for a cause in the file, and such a cause is always the answer, unless disk or memory
    //   failed; a file has one cause at most
    ensures decided { (file : List ℕ) (cause : RunFault) → (D.told disk.old).reads ≡ Some file → IsCause (net_of net.now) text.now file cause →
        IsErrAnd result (λ f. IsFreeFault f ⊎ (f ≡ cause)) }
    // The network's own file is never refused, and a file of which no journal is opened is left as it is.
    // Promise: The network's own file is never refused
    ensures taken { (file : List ℕ) (first : List entries.Entry) → (D.told disk.old).reads ≡ Some file → IsNetworksOwn (net_of net.now) text.now first file → IfErr result IsFreeFault }
    // Promise: A file of which no journal is opened is left as it is, unless disk or memory failed
    ensures untouched { IfErr result (λ f. IsLeftAlone f (IsQuiet (D.told disk.old) (D.told disk.new))) }
    // Promise: A fault of the disk is answered only where the disk's own count of faults rose
    ensures failed { IsErrOf result (RunFault.Journal journal_faults.Disk) → Rose (D.told disk.old).faults (D.told disk.new).faults }
    ensures same_disk { IsSameDisk (D.told disk.old) (D.told disk.new) }
{
    let recovered = recover(alloc, net, text, disk)?;
    let Recovered { mut journal, tree } = recovered;
    let mut search = Search::start(alloc, net, orders.options(), tree)?;
    let ended = drive(alloc, net, orders, &mut search, &mut journal, disk)?;
    let tree = search.into_tree();
    Ok(Outcome { tree, ended })
}
