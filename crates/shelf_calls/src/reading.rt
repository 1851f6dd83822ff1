//! Files read by calls that may give a part.

ghost use Rattle.std.specs.Prelude.{◌≡◌, ◌≤◌, ◌⊎◌, ◌++◌, [], IsTrue, IfOk, OnOk, OnErr, length, take, vec_len};

use crate::calls::ReadCalls;
use edge_io::CallFault;

/// How many bytes of a file that is read whole are asked for at once.
const ROOM: usize = 16_384;

/// One read of a file, and how many bytes it gave; one that a signal broke off is tried again. A read that fails has taken nothing.
pub fn read_once<F: ReadCalls>(file: &mut F, into: &mut [u8]) -> Result<usize, CallFault>
    ensures part { IfOk result (λ n. n ≤ length into.new) }
    // Promise: A read that a signal broke off and that is tried again gives the next bytes, where they are known; one that fails has taken
    //   nothing
    ensures bytes { IfOk result (λ n. IsTrue F.tells → F.rest file.old ≡ take n into.new ++ F.rest file.new) }
    ensures some { IfOk result (λ n. IsTrue F.tells → n ≡ 0 → (length into.new ≡ 0) ⊎ (F.rest file.old ≡ [])) }
    ensures unread { OnErr result (F.rest file.new ≡ F.rest file.old) }
{
    for _ in 0..u64::MAX {
        match file.read(into) {
            Err(CallFault::Interrupted) => {}
            outcome => return outcome,
        }
    }
    Err(CallFault::Interrupted)
}

/// Puts the rest of a file behind the bytes, or so much of it that there are more bytes than `most`.
pub(crate) fn read_front<F: ReadCalls>(
    file: &mut F,
    most: usize,
    bytes: &mut Vec<u8>,
) -> Result<(), CallFault>
    // A file is read to its end, or past the most bytes that are asked for, whatever part each call gives
    ensures front { OnOk result (IsTrue F.tells → bytes.old.items ++ F.rest file.old ≡ bytes.new.items ++ F.rest file.new) }
    ensures whole { OnOk result (vec_len bytes.new ≤ most → IsTrue F.tells → F.rest file.new ≡ []) }
{
    let mut room = [0; ROOM];
    for _ in 0..u64::MAX {
        if bytes.len() > most {
            return Ok(());
        }
        let asked = (most - bytes.len()).saturating_add(1).min(ROOM);
        let count = read_once(file, &mut room[..asked])?;
        if count == 0 {
            return Ok(());
        }
        bytes.extend_from_slice(&room[..count])?;
    }
    Err(CallFault::Failed)
}
