//! An entry that is put into a journal, behind a Turn where one is needed.

ghost use Rattle.std.specs.Prelude.{◌≡◌, ◌≤◌, ℕ, List, false, length, IsTrue, OnOk, OnErr};
ghost use Rattle.edge_io.specs.Counts.{Rose};
ghost use Rattle.disk_calls.specs.Disks.{LeavesOnly, IsSameDisk};
ghost use Rattle.row_model.specs.Entries as entries;
ghost use Rattle.box_tree.specs.Views.{shown_entry};
ghost use Rattle.journal_format.specs.Payload.{payload, IsNarrow};
ghost use Rattle.journal_format.specs.Files.{IsKept};
ghost use Rattle.journal_format.specs.Records.{IsKeptAt};
ghost use Rattle.journal_format.specs.declared.version.Version.TheVariants.{Two};
ghost use Rattle.node_journal.specs.Journals.{IsLeft};
ghost use Rattle.node_journal.specs.Settled.{IsOnDisk};
ghost use Rattle.recorded_run.specs.Sessions.{LeavesOneOrBoth, Puts};

use box_tree::Entry;
use disk_calls::{Disk, DiskFailed};
use node_journal::Journal;

/// Records an entry. Where the file has version 1 and no Turn yet, the Turn is recorded just before it.
pub fn put<D: Disk>(journal: &mut Journal, disk: &mut D, entry: &Entry) -> Result<(), DiskFailed>
    requires left { IsTrue (D.told disk.old).tells → IsLeft journal.old (D.told disk.old) }
    requires usable { journal.old.failed ≡ false }
    requires short { length (payload Two (shown_entry entry.now)) ≤ journal.old.largest }
    requires narrow { IsNarrow (shown_entry entry.now) }
    ensures acknowledged { OnOk result (Puts (shown_entry entry.now) journal.old.next (D.told disk.old) journal.new.next (D.told disk.new)) }
    ensures any_moment { LeavesOneOrBoth (shown_entry entry.now) journal.old.next (D.told disk.old) (D.told disk.new) }
    ensures usable { OnOk result (journal.new.failed ≡ false) }
    ensures same_largest { journal.new.largest ≡ journal.old.largest }
    ensures failed { OnErr result (Rose (D.told disk.old).faults (D.told disk.new).faults) }
    ensures same_disk { IsSameDisk (D.told disk.old) (D.told disk.new) }
{
    turn_where_due(journal, disk)?;
    journal.append(disk, entry)
}

/// Records the Turn where one is needed, and nothing else.
fn turn_where_due<D: Disk>(journal: &mut Journal, disk: &mut D) -> Result<(), DiskFailed>
    requires left { IsTrue (D.told disk.old).tells → IsLeft journal.old (D.told disk.old) }
    requires usable { journal.old.failed ≡ false }
    ensures turned { OnOk result (journal.new.next.version ≡ Two) }
    ensures acknowledged { OnOk result ((text file : List ℕ) (list : List entries.Entry) →
        IsOnDisk file (D.told disk.old) → IsKeptAt journal.old.next text list file →
        (after : List ℕ) × IsOnDisk after (D.told disk.new) × IsKeptAt journal.new.next text list after) }
    ensures any_moment { (text file : List ℕ) (list : List entries.Entry) →
        IsOnDisk file (D.told disk.old) → IsKeptAt journal.old.next text list file →
        LeavesOnly (D.told disk.old) (D.told disk.new) (IsKept text list) }
    ensures usable { OnOk result (journal.new.failed ≡ false) }
    ensures same_largest { journal.new.largest ≡ journal.old.largest }
    ensures failed { OnErr result (Rose (D.told disk.old).faults (D.told disk.new).faults) }
    ensures same_disk { IsSameDisk (D.told disk.old) (D.told disk.new) }
{
    if journal.needs_turn() {
        journal.turn(disk)
    } else {
        Ok(())
    }
}
