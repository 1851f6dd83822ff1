//! A byte put behind a file.

ghost use Rattle.std.specs.Prelude.{◌≡◌, [], ◌∷◌, ◌++◌, List, ℕ, Some, OnOk, OnErr};
ghost use Rattle.edge_io.specs.Counts.{Rose};
ghost use Rattle.disk_calls.specs.Disks.{Only, Reaches, IsSameDisk, LeavesOnly, IsSameOrLonger};

use crate::disk::{Disk, DiskFailed};

/// Puts a byte behind the file that is attached, and syncs. A crash at any moment leaves the file as it was, or with one
/// byte more, which is this one once the call has returned.
pub fn append_byte<D: Disk>(disk: &mut D, byte: u8) -> Result<(), DiskFailed>
    requires { Reaches (D.told disk.old) 0 }
    ensures added { OnOk result ((file : List ℕ) → (D.told disk.old).reads ≡ Some file →
        (D.told disk.new).reads ≡ Some (file ++ byte ∷ [])) }
    // Promise: After a byte is appended and synced, the file with it is all that a crash can leave
    ensures durable { OnOk result ((file : List ℕ) → (D.told disk.old).reads ≡ Some file →
        Only (file ++ byte ∷ []) (D.told disk.new).may_leave) }

    // Promise: A crash on the way leaves the file, or the file with one byte more
    ensures any_moment { (file : List ℕ) → (D.told disk.old).reads ≡ Some file → Only file (D.told disk.old).may_leave →
        LeavesOnly (D.told disk.old) (D.told disk.new) (IsSameOrLonger file) }

    ensures failed { OnErr result (Rose (D.told disk.old).faults (D.told disk.new).faults) }
    ensures same_disk { IsSameDisk (D.told disk.old) (D.told disk.new) }
{
    let end = disk.len()?;
    disk.write_at(end, &[byte])?;
    disk.sync()
}
