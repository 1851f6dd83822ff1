//! Calls of a disk, two at most in each function, in the words of files that are on the disk.

ghost use Rattle.std.specs.Prelude.{◌≡◌, ◌+◌, ◌^◌, ◌≤◌, ℕ, List, Some, length, take, drop, IfOk, IfSome, OnOk, OnErr};
ghost use Rattle.edge_io.specs.Counts.{Rose};
ghost use Rattle.disk_calls.specs.Disks.{written, Torn, Shortened, Only, Reaches, LeavesOnly, IsSameDisk};
ghost use Rattle.node_journal.specs.Settled.{IsOnDisk, IsQuiet};

use disk_calls::{Disk, DiskFailed};

/// Writes the bytes from that place on, and puts the file on the disk. A crash at any moment leaves the file with that write torn.
pub(crate) fn write_synced<D: Disk>(disk: &mut D, at: u64, bytes: &[u8]) -> Result<(), DiskFailed>
    requires { Reaches (D.told disk.old) at }
    ensures on_disk { OnOk result ((file : List ℕ) → (D.told disk.old).reads ≡ Some file → IsOnDisk (written file at bytes.now) (D.told disk.new)) }
    ensures any_moment { (file : List ℕ) → Only file (D.told disk.old).may_leave → LeavesOnly (D.told disk.old) (D.told disk.new) (Torn at (length bytes.now) file) }
    ensures short { OnOk result (at + length bytes.now ≤ 2 ^ 62) }
    ensures same_disk { IsSameDisk (D.told disk.old) (D.told disk.new) }
    ensures failed { OnErr result (Rose (D.told disk.old).faults (D.told disk.new).faults) }
{
    disk.write_at(at, bytes)?;
    disk.sync()
}

/// Cuts the file to a length, and puts it on the disk. A crash at any moment leaves a front of the file that is no shorter.
pub(crate) fn cut_synced<D: Disk>(disk: &mut D, to: u64) -> Result<(), DiskFailed>
    requires { Reaches (D.told disk.old) to }
    ensures on_disk { OnOk result ((file : List ℕ) → (D.told disk.old).reads ≡ Some file → IsOnDisk (take to file) (D.told disk.new)) }
    ensures any_moment { (file : List ℕ) → Only file (D.told disk.old).may_leave → LeavesOnly (D.told disk.old) (D.told disk.new) (Shortened to file) }
    ensures same_disk { IsSameDisk (D.told disk.old) (D.told disk.new) }
    ensures failed { OnErr result (Rose (D.told disk.old).faults (D.told disk.new).faults) }
{
    disk.cut(to)?;
    disk.sync()
}

/// Puts the file on the disk, and measures it.
pub(crate) fn measure<D: Disk>(disk: &mut D) -> Result<u64, DiskFailed>
    ensures length { IfOk result (λ n. IfSome (D.told disk.old).reads (λ file. n ≡ length file)) }
    ensures short { IfOk result (λ n. n ≤ 2 ^ 62) }
    ensures on_disk { OnOk result ((file : List ℕ) → (D.told disk.old).reads ≡ Some file → IsOnDisk file (D.told disk.new)) }
    ensures same { OnOk result ((D.told disk.new).reads ≡ (D.told disk.old).reads) }
    ensures quiet { IsQuiet (D.told disk.old) (D.told disk.new) }
    ensures same_disk { IsSameDisk (D.told disk.old) (D.told disk.new) }
    ensures failed { OnErr result (Rose (D.told disk.old).faults (D.told disk.new).faults) }
{
    disk.sync()?;
    disk.len()
}

/// Reads the bytes from that place on, as many as there is room for; where there is no room the disk is not called. No crash
/// leaves anything new.
pub(crate) fn read_back<D: Disk>(disk: &mut D, at: u64, into: &mut [u8]) -> Result<(), DiskFailed>
    requires { Reaches (D.told disk.old) (at + length into.old) }
    ensures bytes { OnOk result (IfSome (D.told disk.old).reads (λ file. into.new ≡ take (length into.old) (drop at file))) }
    ensures same { OnOk result ((D.told disk.new).reads ≡ (D.told disk.old).reads) }
    ensures quiet { IsQuiet (D.told disk.old) (D.told disk.new) }
    ensures same_disk { IsSameDisk (D.told disk.old) (D.told disk.new) }
    ensures failed { OnErr result (Rose (D.told disk.old).faults (D.told disk.new).faults) }
{
    if into.is_empty() {
        return Ok(());
    }
    disk.read_at(at, into)
}
