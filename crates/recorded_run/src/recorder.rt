//! Where a run records its entries.

ghost use Rattle.std.specs.Prelude.{OnOk, OnErr};
ghost use Rattle.edge_io.specs.Counts.{Rose};
ghost use Rattle.disk_calls.specs.Disks.{DiskTold, IsSameDisk};
ghost use Rattle.pool_model.specs.Network.{Net, IsLimited, net_of};
ghost use Rattle.row_model.specs.Entries.{IsEntryInOrder};
ghost use Rattle.box_tree.specs.Views.{shown_entry};
ghost use Rattle.journal_format.specs.Records.{Place};
ghost use Rattle.search_core.specs.Searches.{searched};
ghost use Rattle.recorded_run.specs.Sessions.{LeavesOneOrBoth, Puts, TakesEach};

use crate::putting::put;
use blend_network::Network;
use box_tree::Entry;
use disk_calls::{Disk, DiskFailed};
use node_journal::Journal;
use search_core::Search;

/// Where a run records each entry before its tree takes it: a journal, or nothing. `D` is the disk that is written to.
pub(crate) trait Recorder<D> {
    /// What there is to know of the disk.
    ghost told: { D → DiskTold };
    /// Where the next record is to stand.
    ghost next: { Self → Place };
    /// It takes each entry that is in order on the network.
    ghost takes: { Net → Self → D → Type 0 };

    /// Records an entry that is in order on the tree of a search.
    fn record(
        &mut self,
        net: &Network,
        search: &Search,
        disk: &mut D,
        entry: &Entry,
    ) -> Result<(), DiskFailed>
        requires limited { IsLimited (net_of net.now) }
        requires in_order { IsEntryInOrder (net_of net.now) (searched search.now) (shown_entry entry.now) }
        requires takes { takes (net_of net.now) self.old disk.old }
        ensures takes { OnOk result (takes (net_of net.now) self.new disk.new) }
        ensures recorded { OnOk result (Puts (shown_entry entry.now) (next self.old) (told disk.old) (next self.new) (told disk.new)) }
        ensures any_moment { LeavesOneOrBoth (shown_entry entry.now) (next self.old) (told disk.old) (told disk.new) }
        ensures failed { OnErr result (Rose (told disk.old).faults (told disk.new).faults) }
        ensures same_disk { IsSameDisk (told disk.old) (told disk.new) };
}

/// In a journal, behind a Turn where one is needed.
impl<D: Disk> Recorder<D> for Journal {
    ghost told = { D.told };

    ghost next = { λ journal. journal.next };

    ghost takes = { λ n journal d. TakesEach n journal (D.told d) };

    fn record(
        &mut self,
        _net: &Network,
        _search: &Search,
        disk: &mut D,
        entry: &Entry,
    ) -> Result<(), DiskFailed> {
        put(self, disk, entry)
    }
}
