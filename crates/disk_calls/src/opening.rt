//! A file that is opened, and its length.

ghost use Rattle.std.specs.Prelude.{◌≡◌, ◌^◌, ◌≤◌, IsTrue, IfOk, IfSome, OnOk, OnErr, length};
ghost use Rattle.disk_calls.specs.Disks.{LeavesNothingNew, Elapses, IsSameDevice, GoesOn, Finds};

use crate::calls::FileCalls;
use crate::disk::MAX_LENGTH;
use edge_io::CallFault;

/// Opens a file, makes it where there is none, and puts its name on the disk. It is no longer than the longest.
pub(crate) fn open_durably<S: FileCalls>(system: &mut S, name: &str) -> Result<(), CallFault>
    requires { IsTrue ((S.told system.old).admits name.now) }
    // A disk over the system's calls opens one of the images of before, and acknowledges it once its name is on the disk too
    ensures finds { OnOk result (IsTrue (S.told system.old).tells → Finds (S.told system.old) (S.told system.new)) }
    ensures names { OnOk result (IsTrue (S.named system.new)) }
    ensures not_noted { OnErr result ((S.told system.new).attached ≡ (S.told system.old).attached) }
    ensures crash { LeavesNothingNew (S.told system.old) (S.told system.new) }
    ensures time { Elapses (S.told system.old) (S.told system.new) }
    ensures same_device { IsSameDevice (S.told system.old) (S.told system.new) }
{
    system.open(name)?;
    length_of(system)?;
    system.sync_folder(name)
}

/// The length of the open file, which is at most the longest.
pub(crate) fn length_of<S: FileCalls>(system: &mut S) -> Result<u64, CallFault>
    ensures length { IfOk result (λ n. IfSome (S.told system.old).reads (λ file. n ≡ length file)) }
    ensures short { IfOk result (λ n. n ≤ 2 ^ 62) }
    ensures same { OnOk result ((S.told system.new).reads ≡ (S.told system.old).reads) }
    ensures same_name { S.named system.new ≡ S.named system.old }
    ensures crash { LeavesNothingNew (S.told system.old) (S.told system.new) }
    ensures goes_on { GoesOn (S.told system.old) (S.told system.new) }
{
    let length = system.fstat()?;
    if length > MAX_LENGTH {
        return Err(CallFault::Failed);
    }
    Ok(length)
}
