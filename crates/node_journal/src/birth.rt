//! The birth of a journal, in four steps, each of which is on the disk before the next.

ghost use Rattle.std.specs.Prelude.{◌≡◌, ◌≤◌, [], ◌∷◌, ℕ, List, Some, length, drop, IsTrue, OnOk, OnErr};
ghost use Rattle.edge_io.specs.Counts.{Rose};
ghost use Rattle.disk_calls.specs.Disks.{LeavesOnly, IsSameDisk};
ghost use Rattle.journal_format.specs.Files.{newborn, IsUnborn, SaysZeroed, IsOwn, IsOwnFor};
ghost use Rattle.node_journal.specs.Settled.{IsOnDisk, IsSettled};

use crate::synced::{cut_synced, write_synced};
use disk_calls::{Disk, DiskFailed};

/// Makes an unborn file a journal without entries. `zeroed` says whether byte 0 of a longer file is 0 already; `whole` is the file that it makes.
/// A crash at any moment leaves a file that is unborn, or born without entries.
pub(crate) fn give_birth<D: Disk>(
    disk: &mut D,
    zeroed: bool,
    whole: &[u8],
) -> Result<(), DiskFailed>
    requires settled { IsTrue (D.told disk.old).tells → IsSettled (D.told disk.old) }
    requires begins { 1 ≤ length whole.now }
    requires zeroed { (file : List ℕ) → (D.told disk.old).reads ≡ Some file → SaysZeroed zeroed file }
    ensures on_disk { OnOk result ((text file : List ℕ) → IsOnDisk file (D.told disk.old) → whole.now ≡ newborn text → IsOnDisk (newborn text) (D.told disk.new)) }
    ensures any_moment { (text file : List ℕ) → IsOnDisk file (D.told disk.old) → IsUnborn file → IsOwn text file →
        whole.now ≡ newborn text → LeavesOnly (D.told disk.old) (D.told disk.new) (IsOwnFor text []) }
    ensures same_disk { IsSameDisk (D.told disk.old) (D.told disk.new) }
    ensures failed { OnErr result (Rose (D.told disk.old).faults (D.told disk.new).faults) }
{
    clear(disk, zeroed)?;
    fill(disk, &whole[1..])
}

/// The first two steps: byte 0 is 0, and nothing stands behind it.
fn clear<D: Disk>(disk: &mut D, zeroed: bool) -> Result<(), DiskFailed>
    requires settled { IsTrue (D.told disk.old).tells → IsSettled (D.told disk.old) }
    requires zeroed { (file : List ℕ) → (D.told disk.old).reads ≡ Some file → SaysZeroed zeroed file }
    ensures on_disk { OnOk result ((file : List ℕ) → IsOnDisk file (D.told disk.old) → IsOnDisk (0 ∷ []) (D.told disk.new)) }
    ensures any_moment { (text file : List ℕ) → IsOnDisk file (D.told disk.old) → IsUnborn file → IsOwn text file →
        LeavesOnly (D.told disk.old) (D.told disk.new) (IsOwnFor text []) }
    ensures same_disk { IsSameDisk (D.told disk.old) (D.told disk.new) }
    ensures failed { OnErr result (Rose (D.told disk.old).faults (D.told disk.new).faults) }
{
    unmark(disk, zeroed)?;
    cut_synced(disk, 1)
}

/// The first step. It is left out where byte 0 is 0 already.
fn unmark<D: Disk>(disk: &mut D, zeroed: bool) -> Result<(), DiskFailed>
    requires settled { IsTrue (D.told disk.old).tells → IsSettled (D.told disk.old) }
    requires zeroed { (file : List ℕ) → (D.told disk.old).reads ≡ Some file → SaysZeroed zeroed file }
    ensures on_disk { OnOk result ((file : List ℕ) → IsOnDisk file (D.told disk.old) → IsOnDisk (0 ∷ drop 1 file) (D.told disk.new)) }
    ensures any_moment { (text file : List ℕ) → IsOnDisk file (D.told disk.old) → IsUnborn file → IsOwn text file →
        LeavesOnly (D.told disk.old) (D.told disk.new) (IsOwnFor text []) }
    ensures same_disk { IsSameDisk (D.told disk.old) (D.told disk.new) }
    ensures failed { OnErr result (Rose (D.told disk.old).faults (D.told disk.new).faults) }
{
    if zeroed {
        return Ok(());
    }
    write_synced(disk, 0, &[0])
}

/// The last two steps: all that stands behind byte 0, and then byte 0 is 1.
fn fill<D: Disk>(disk: &mut D, behind: &[u8]) -> Result<(), DiskFailed>
    requires { IsTrue (D.told disk.old).tells → IsOnDisk (0 ∷ []) (D.told disk.old) }
    ensures on_disk { OnOk result (IsOnDisk (0 ∷ []) (D.told disk.old) → IsOnDisk (1 ∷ behind.now) (D.told disk.new)) }
    ensures any_moment { (text : List ℕ) → IsOnDisk (0 ∷ []) (D.told disk.old) → 1 ∷ behind.now ≡ newborn text →
        LeavesOnly (D.told disk.old) (D.told disk.new) (IsOwnFor text []) }
    ensures same_disk { IsSameDisk (D.told disk.old) (D.told disk.new) }
    ensures failed { OnErr result (Rose (D.told disk.old).faults (D.told disk.new).faults) }
{
    write_synced(disk, 1, behind)?;
    write_synced(disk, 0, &[1])
}
