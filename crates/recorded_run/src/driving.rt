//! The loop of a run: what comes next is asked, recorded and taken, until the search ended.

ghost use Rattle.std.specs.Prelude.{◌≡◌, ℕ, List, IfOk, IfErr, OnOk, IsErrOf};
ghost use Rattle.edge_io.specs.Counts.{Rose};
ghost use Rattle.disk_calls.specs.Disks.{IsSameDisk};
ghost use Rattle.pool_model.specs.Network.{net_of};
ghost use Rattle.row_model.specs.Entries as entries;
ghost use Rattle.box_tree.specs.Views.{shown_entry};
ghost use Rattle.journal_format.specs.declared.fault.JournalFault.TheVariants as journal_faults;
ghost use Rattle.search_core.specs.Searches.{searched, IsAsked};
ghost use Rattle.search_core.specs.Cases.{IsRepairedAfter};
ghost use Rattle.search_run.specs.Orders.{options_of};
ghost use Rattle.search_run.specs.Runs.{IsRun};
ghost use Rattle.recorded_run.specs.Recorded.{IsRecorded, IsFreeFault};
ghost use Rattle.recorded_run.specs.Sessions.{IsOrdered, IsRecordedRun, LeavesOneOrBoth, Puts};

use crate::fault::RunFault;
use crate::recorder::Recorder;
use blend_network::Network;
use box_tree::Entry;
use node_journal::JournalFault;
use search_core::{Ended, Next, Search};
use search_run::{Orders, due};
use std::alloc::Global;

/// Takes step after step, to the end; each entry is recorded before the tree takes it.
pub(crate) fn drive<D, R: Recorder<D>>(
    alloc: Global,
    net: &Network,
    orders: Orders,
    search: &mut Search,
    recorder: &mut R,
    disk: &mut D,
) -> Result<Ended, RunFault>
    requires ordered { IsOrdered (net_of net.now) orders search.old }
    requires asked { IsAsked (options_of orders) }
    requires takes { R.takes (net_of net.now) recorder.old disk.old }
    ensures ordered { IfOk result (λ _. IsOrdered (net_of net.now) orders search.new) }
    ensures run { IfOk result (IsRun (net_of net.now) orders (searched search.old) (searched search.new)) }
    ensures recorded { (text : List ℕ) (first : List entries.Entry) →
        IsRecorded (net_of net.now) text first (R.next recorder.old) (searched search.old) (R.told disk.old) →
        IsRecordedRun (net_of net.now) text orders first (R.told disk.old) (R.told disk.new) (R.next recorder.new) (searched search.new) result }
    ensures free { IfErr result IsFreeFault }
    ensures failed { IsErrOf result (RunFault.Journal journal_faults.Disk) → Rose (R.told disk.old).faults (R.told disk.new).faults }
    ensures same_disk { IsSameDisk (R.told disk.old) (R.told disk.new) }
{
    let mut known = None;
    'steps: loop {
        let next = due(alloc, net, orders, search, &mut known)?;
        match next {
            Next::Do(entry) => take(net, orders, search, recorder, disk, entry)?,
            Next::End(ended) => return Ok(ended),
        }
    }
}

/// Records an entry that is in order, and takes it.
fn take<D, R: Recorder<D>>(
    net: &Network,
    orders: Orders,
    search: &mut Search,
    recorder: &mut R,
    disk: &mut D,
    entry: Entry,
) -> Result<(), RunFault>
    requires ordered { IsOrdered (net_of net.now) orders search.old }
    requires in_order { entries.IsEntryInOrder (net_of net.now) (searched search.old) (shown_entry entry) }
    requires takes { R.takes (net_of net.now) recorder.old disk.old }
    ensures ordered { OnOk result (IsOrdered (net_of net.now) orders search.new) }
    ensures takes { OnOk result (R.takes (net_of net.now) recorder.new disk.new) }
    ensures taken { OnOk result (searched search.new ≡ entries.after (searched search.old) (shown_entry entry)) }
    ensures repaired { OnOk result (IsRepairedAfter (net_of net.now) (searched search.old) (shown_entry entry) search.old.repaired search.new.repaired) }
    // The entry stands on the disk then; so it does where memory runs out behind it.
    ensures recorded { OnOk result (Puts (shown_entry entry) (R.next recorder.old) (R.told disk.old) (R.next recorder.new) (R.told disk.new)) }
    ensures kept { IsErrOf result (RunFault.Journal journal_faults.Memory) →
        Puts (shown_entry entry) (R.next recorder.old) (R.told disk.old) (R.next recorder.new) (R.told disk.new) }
    ensures any_moment { LeavesOneOrBoth (shown_entry entry) (R.next recorder.old) (R.told disk.old) (R.told disk.new) }
    ensures free { IfErr result IsFreeFault }
    ensures failed { IsErrOf result (RunFault.Journal journal_faults.Disk) → Rose (R.told disk.old).faults (R.told disk.new).faults }
    ensures same_disk { IsSameDisk (R.told disk.old) (R.told disk.new) }
{
    recorder.record(net, search, disk, &entry)?;
    match search.take(net, entry) {
        Ok(()) => Ok(()),
        Err(_) => Err(RunFault::Journal(JournalFault::Memory)),
    }
}
