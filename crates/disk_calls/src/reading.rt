//! A whole range of a file, read by calls that may take a part.

ghost use Rattle.std.specs.Prelude.{◌≡◌, ◌+◌, IfSome, OnOk, length, take, drop};
ghost use Rattle.disk_calls.specs.Disks.{LeavesNothingNew, GoesOn};

use crate::calls::FileCalls;
use crate::disk::MAX_LENGTH;
use edge_io::CallFault;

/// Reads the bytes from that place on, as many as there is room for. A call that a signal broke off is tried again.
pub(crate) fn read_whole<S: FileCalls>(
    system: &mut S,
    at: u64,
    into: &mut [u8],
) -> Result<(), CallFault>
    // A read of a disk over the system's calls is whole, whatever part each call gives and whichever a signal breaks off; where one
    // fails, or none is left, it fails
    ensures bytes { OnOk result (IfSome (S.told system.old).reads (λ file. into.new ≡ take (length into.old) (drop at file))) }
    ensures same { OnOk result ((S.told system.new).reads ≡ (S.told system.old).reads) }
    ensures same_name { S.named system.new ≡ S.named system.old }
    ensures crash { LeavesNothingNew (S.told system.old) (S.told system.new) }
    ensures goes_on { GoesOn (S.told system.old) (S.told system.new) }
{
    if at.saturating_add(into.len() as u64) > MAX_LENGTH {
        return Err(CallFault::Failed);
    }
    let mut done = 0;
    for _ in 0..u64::MAX {
        if done == into.len() {
            return Ok(());
        }
        match system.pread(at + done as u64, &mut into[done..]) {
            Ok(0) => return Err(CallFault::Failed),
            Ok(n) => done += n,
            Err(CallFault::Interrupted) => {}
            Err(fault) => return Err(fault),
        }
    }
    Err(CallFault::Interrupted)
}
