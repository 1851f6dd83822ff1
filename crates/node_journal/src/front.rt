//! The state of a file that is on the disk, by what stands before its records.

ghost use Rattle.std.specs.Prelude.{◌≡◌, ◌+◌, ◌^◌, ◌≤◌, ◌⊎◌, ℕ, List, Some, length, take, IfOk, IfErr, OnOk, MatchResult, IsErrOf};
ghost use Rattle.edge_io.specs.Counts.{Rose};
ghost use Rattle.disk_calls.specs.Disks.{Reaches, IsSameDisk};
ghost use Rattle.journal_format.specs.Files.{text_bytes};
ghost use Rattle.journal_format.specs.Faults.{Has, IsFree};
ghost use Rattle.journal_format.specs.States.{IsIn};
ghost use Rattle.journal_format.specs.declared.version.Version.{Version};
ghost use Rattle.node_journal.specs.Settled.{IsQuiet};

use crate::synced::read_back;
use disk_calls::Disk;
use journal_format::{FRONT, JournalFault, State, state_of};
use std::alloc::Global;

/// The state of the file, whose length is `end`; `tail` is what stands behind the version in a born file of the text, before its records.
pub(crate) fn find_state<D: Disk>(
    alloc: Global,
    disk: &mut D,
    end: u64,
    tail: &[u8],
) -> Result<State, JournalFault>
    requires short { length tail.now ≤ 2 ^ 21 }
    requires known { Reaches (D.told disk.old) end }
    ensures state { (text file : List ℕ) → (D.told disk.old).reads ≡ Some file → end ≡ length file → tail.now ≡ text_bytes text →
        MatchResult result (IsIn text file) (λ e. IsFree e ⊎ ((largest : ℕ) → Has text largest file e)) }
    ensures long { IfOk result (λ state. (v : Version) → state ≡ State.Born v → FRONT + length tail.now ≤ end) }
    ensures same { OnOk result ((D.told disk.new).reads ≡ (D.told disk.old).reads) }
    ensures kept { IsErrOf result JournalFault.Memory → (D.told disk.new).reads ≡ (D.told disk.old).reads }
    ensures quiet { IsQuiet (D.told disk.old) (D.told disk.new) }
    ensures same_disk { IsSameDisk (D.told disk.old) (D.told disk.new) }
    ensures failed { IsErrOf result JournalFault.Disk → Rose (D.told disk.old).faults (D.told disk.new).faults }
{
    let front = read_front(alloc, disk, end, FRONT + tail.len())?;
    state_of(&front, tail)
}

/// The first bytes of the file, as many as are asked for, or all that there are.
fn read_front<D: Disk>(
    alloc: Global,
    disk: &mut D,
    end: u64,
    most: usize,
) -> Result<Vec<u8>, JournalFault>
    requires { Reaches (D.told disk.old) end }
    ensures front { IfOk result (λ v. (file : List ℕ) → (D.told disk.old).reads ≡ Some file → end ≡ length file → v.items ≡ take most file) }
    ensures size { IfOk result (λ v. length v.items ≤ end) }
    ensures free { IfErr result IsFree }
    ensures same { OnOk result ((D.told disk.new).reads ≡ (D.told disk.old).reads) }
    ensures kept { IsErrOf result JournalFault.Memory → (D.told disk.new).reads ≡ (D.told disk.old).reads }
    ensures quiet { IsQuiet (D.told disk.old) (D.told disk.new) }
    ensures same_disk { IsSameDisk (D.told disk.old) (D.told disk.new) }
    ensures failed { IsErrOf result JournalFault.Disk → Rose (D.told disk.old).faults (D.told disk.new).faults }
{
    let size = end.min(most as u64) as usize;
    let mut front = vec![in alloc; 0_u8; size]?;
    read_back(disk, 0, front.as_mut_slice())?;
    Ok(front)
}
