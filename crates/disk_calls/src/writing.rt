//! A whole range of a file, written by calls that may take a part.

ghost use Rattle.std.specs.Prelude.{◌≡◌, ◌+◌, ◌^◌, ◌≤◌, OnOk, length, option_map};
ghost use Rattle.disk_calls.specs.Disks.{written, Torn, Reaches, LeavesBy, GoesOn};

use crate::calls::FileCalls;
use crate::disk::MAX_LENGTH;
use edge_io::CallFault;

/// Writes the bytes from that place on, no further than the longest file reaches. A call that a signal broke off is tried again.
pub(crate) fn write_whole<S: FileCalls>(
    system: &mut S,
    at: u64,
    bytes: &[u8],
) -> Result<(), CallFault>
    requires { Reaches (S.told system.old) at }
    // A write of a disk over the system's calls is whole, whatever part each call takes and whichever a signal breaks off; a crash
    // on the way leaves no more than one write may
    ensures written { OnOk result ((S.told system.new).reads ≡ option_map (λ file. written file at bytes.now) (S.told system.old).reads) }
    ensures short { OnOk result (at + length bytes.now ≤ 2 ^ 62) }
    ensures same_name { S.named system.new ≡ S.named system.old }
    ensures crash { LeavesBy (Torn at (length bytes.now)) (S.told system.old) (S.told system.new) }
    ensures goes_on { GoesOn (S.told system.old) (S.told system.new) }
{
    if at.saturating_add(bytes.len() as u64) > MAX_LENGTH {
        return Err(CallFault::Failed);
    }
    let mut done = 0;
    for _ in 0..u64::MAX {
        if done == bytes.len() {
            return Ok(());
        }
        match system.pwrite(at + done as u64, &bytes[done..]) {
            Ok(0) => return Err(CallFault::Failed),
            Ok(n) => done += n,
            Err(CallFault::Interrupted) => {}
            Err(fault) => return Err(fault),
        }
    }
    Err(CallFault::Interrupted)
}
