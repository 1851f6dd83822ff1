//! A disk of which nothing is known.

ghost use Rattle.std.specs.Prelude.{◌≡◌, ◌+◌, ◌^◌, ◌<◌, ◌≤◌, Ok, length, OnOk, OnErr, IsOk, IsErr};
ghost use Rattle.disk_calls.specs.Disks.{Torn, Shortened, LeavesBy, GoesOn, Fails};
ghost use Rattle.drawn_numbers.specs.Draws.{draws, state_after};

use disk_calls::{Disk, DiskFailed, MAX_LENGTH};
use drawn_numbers::Draws;

/// How long the file is, in bytes, whatever is written or cut.
const LENGTH: u64 = 300;

/// A disk that tells nothing and keeps nothing, for callers that have to stand on the clauses of the trait alone. Its file is always
/// 300 bytes long, and each byte that is read is the next of those that a number gives.
///
/// A call fails only where every disk of its kind does: a read past the end of the file, and a write or a cut past the longest length.
#[derive(Drop)]
pub struct WildDisk {
    draws: Draws,
    faults: u64,
}

impl WildDisk {
    ghost use Rattle.disk_model.specs.WildDisks.{told_of, state_of};

    /// The disk of a number.
    pub fn new(number: u64) -> WildDisk
        ensures number { state_of result ≡ number }
        ensures sound { (told_of result).faults ≡ 0 }
    {
        WildDisk {
            draws: Draws { state: number },
            faults: 0,
        }
    }

    /// Counts a failure.
    fn fail(&mut self) -> DiskFailed
        ensures failed { Fails (told_of self.old) (told_of self.new) }
        ensures goes_on { GoesOn (told_of self.old) (told_of self.new) }
        ensures same { state_of self.new ≡ state_of self.old }
    {
        self.faults = self.faults.saturating_add(1);
        DiskFailed
    }

    /// Fails where the file would be longer than the longest.
    fn reach(&mut self, end: u64) -> Result<(), DiskFailed>
        // Promise: A disk that tells nothing and keeps nothing has 300 bytes, which read as those that its number gives; it fails only past
        //   its end, or past the longest length
        ensures within { end ≤ 2 ^ 62 → IsOk result }
        ensures short { OnOk result (end ≤ 2 ^ 62) }
        ensures failed { OnErr result (Fails (told_of self.old) (told_of self.new)) }
        ensures goes_on { GoesOn (told_of self.old) (told_of self.new) }
        ensures same { state_of self.new ≡ state_of self.old }
    {
        if end > MAX_LENGTH {
            return Err(self.fail());
        }
        Ok(())
    }
}

impl Disk for WildDisk {
    ghost use Rattle.disk_model.specs.WildDisks.{told_of, state_of};

    ghost told = { told_of };

    fn attach(&mut self, _name: &str) -> Result<(), DiskFailed>
        ensures works { IsOk result }
        ensures same { self.new ≡ self.old }
    {
        Ok(())
    }

    fn len(&mut self) -> Result<u64, DiskFailed>
        // Promise: A disk that tells nothing and keeps nothing has 300 bytes, which read as those that its number gives; it fails only past
        //   its end, or past the longest length
        ensures length { result ≡ Ok 300 }
        ensures same { self.new ≡ self.old }
    {
        Ok(LENGTH)
    }

    fn read_at(&mut self, at: u64, into: &mut [u8]) -> Result<(), DiskFailed>
        // What every disk does.
        ensures failed { OnErr result (Fails (told_of self.old) (told_of self.new)) }
        ensures goes_on { GoesOn (told_of self.old) (told_of self.new) }

        // What this one gives, and when it fails.
        // Promise: A disk that tells nothing and keeps nothing has 300 bytes, which read as those that its number gives; it fails only past
        //   its end, or past the longest length
        ensures bytes { OnOk result (into.new ≡ draws (state_of self.old) 256 (length into.old)) }
        ensures next { OnOk result (state_of self.new ≡ state_after (state_of self.old) (length into.old)) }
        // Promise: A disk that tells nothing and keeps nothing has 300 bytes, which read as those that its number gives; it fails only past
        //   its end, or past the longest length
        ensures within { at + length into.old ≤ 300 → IsOk result }
        // Promise: A disk that tells nothing and keeps nothing has 300 bytes, which read as those that its number gives; it fails only past
        //   its end, or past the longest length
        ensures past { 300 < at + length into.old → IsErr result }
    {
        if at.saturating_add(into.len() as u64) > LENGTH {
            return Err(self.fail());
        }
        self.draws.fill(into);
        Ok(())
    }

    fn write_at(&mut self, at: u64, bytes: &[u8]) -> Result<(), DiskFailed>
        // What every disk does.
        ensures short { OnOk result (at + length bytes.now ≤ 2 ^ 62) }
        ensures crash { LeavesBy (Torn at (length bytes.now)) (told_of self.old) (told_of self.new) }
        ensures failed { OnErr result (Fails (told_of self.old) (told_of self.new)) }
        ensures goes_on { GoesOn (told_of self.old) (told_of self.new) }

        // When this one fails, and what stays.
        // Promise: A disk that tells nothing and keeps nothing has 300 bytes, which read as those that its number gives; it fails only past
        //   its end, or past the longest length
        ensures within { at + length bytes.now ≤ 2 ^ 62 → IsOk result }
        ensures same { state_of self.new ≡ state_of self.old }
    {
        self.reach(at.saturating_add(bytes.len() as u64))
    }

    fn cut(&mut self, to: u64) -> Result<(), DiskFailed>
        // What every disk does.
        ensures crash { LeavesBy (Shortened to) (told_of self.old) (told_of self.new) }
        ensures failed { OnErr result (Fails (told_of self.old) (told_of self.new)) }
        ensures goes_on { GoesOn (told_of self.old) (told_of self.new) }

        // When this one fails, and what stays.
        // Promise: A disk that tells nothing and keeps nothing has 300 bytes, which read as those that its number gives; it fails only past
        //   its end, or past the longest length
        ensures within { to ≤ 2 ^ 62 → IsOk result }
        // Promise: A disk that tells nothing and keeps nothing has 300 bytes, which read as those that its number gives; it fails only past
        //   its end, or past the longest length
        ensures past { 2 ^ 62 < to → IsErr result }
        ensures same { state_of self.new ≡ state_of self.old }
    {
        self.reach(to)
    }

    fn sync(&mut self) -> Result<(), DiskFailed>
        ensures works { IsOk result }
        ensures same { self.new ≡ self.old }
    {
        Ok(())
    }
}
