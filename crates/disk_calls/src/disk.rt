//! A disk that may crash at any moment.

ghost use Rattle.std.specs.Prelude.{◌≡◌, ◌+◌, ◌^◌, ◌≤◌, IsTrue, IfOk, IfSome, OnOk, OnErr, length, take, drop, option_map};
ghost use Rattle.disk_calls.specs.Disks.{DiskTold, written, Torn, Shortened, Only, Reaches, LeavesBy, LeavesNothingNew, Elapses, IsSameDevice, GoesOn, Finds, Fails};

/// The longest file, in bytes.
pub const MAX_LENGTH: u64 = 1 << 62;

/// A call of a disk failed: its count of faults rose. Nothing is known of what reads give until a file is attached again.
#[derive(Clone, Copy, Debug, PartialEq, Eq)]
pub struct DiskFailed;

/// One file, of which a crash at any moment leaves an image.
///
/// Between two syncs each written range, and the part past the old end, may hold any bytes; bytes outside it stay. A cut
/// that is pending leaves a length between the two, and the kept bytes are unchanged.
///
/// A disk may tell nothing: what its reads give is not known then, and each list of bytes may be an image. Whether it
/// tells and which names it admits is changed by no call. Its count of faults never falls, and stands still at its last
/// value, `2^64 - 1`.
pub trait Disk {
    /// What there is to know of it: what its calls give, and which images a crash leaves.
    ghost told: { Self → DiskTold };

    /// Opens the file of that name, and makes it, empty, where there is none.
    fn attach(&mut self, name: &str) -> Result<(), DiskFailed>
        requires { IsTrue ((told self.old).admits name.now) }
        // Promise: An attach that is done finds one of the images of before: a read gives that file, and it is noted as the file that was
        //   attached; no other call notes one
        ensures open { OnOk result (IsTrue (told self.old).tells → Finds (told self.old) (told self.new)) }
        ensures crash { LeavesNothingNew (told self.old) (told self.new) }
        ensures time { Elapses (told self.old) (told self.new) }
        ensures same_device { IsSameDevice (told self.old) (told self.new) }
        ensures failed { OnErr result (Fails (told self.old) (told self.new)) }
        ensures not_attached { OnErr result ((told self.new).attached ≡ (told self.old).attached) };

    /// The length of the file, which is at most `2^62`.
    fn len(&mut self) -> Result<u64, DiskFailed>
        ensures length { IfOk result (λ n. IfSome (told self.old).reads (λ file. n ≡ length file)) }
        ensures short { IfOk result (λ n. n ≤ 2 ^ 62) }
        ensures same { OnOk result ((told self.new).reads ≡ (told self.old).reads) }
        ensures crash { LeavesNothingNew (told self.old) (told self.new) }
        ensures goes_on { GoesOn (told self.old) (told self.new) }
        ensures failed { OnErr result (Fails (told self.old) (told self.new)) };

    /// Reads the bytes from that place on, as many as there is room for.
    fn read_at(&mut self, at: u64, into: &mut [u8]) -> Result<(), DiskFailed>
        requires { Reaches (told self.old) (at + length into.old) }
        // Promise: What a read gives and which images a crash may leave, now or since an earlier moment
        ensures bytes { OnOk result (IfSome (told self.old).reads (λ file. into.new ≡ take (length into.old) (drop at file))) }
        ensures same { OnOk result ((told self.new).reads ≡ (told self.old).reads) }
        ensures crash { LeavesNothingNew (told self.old) (told self.new) }
        ensures goes_on { GoesOn (told self.old) (told self.new) }
        ensures failed { OnErr result (Fails (told self.old) (told self.new)) };

    /// Writes the bytes from that place on, over what is there and past the end. Their end is at most `2^62`.
    fn write_at(&mut self, at: u64, bytes: &[u8]) -> Result<(), DiskFailed>
        requires { Reaches (told self.old) at }
        // Promise: What a read gives and which images a crash may leave, now or since an earlier moment
        ensures written { OnOk result ((told self.new).reads ≡ option_map (λ file. written file at bytes.now) (told self.old).reads) }
        ensures short { OnOk result (at + length bytes.now ≤ 2 ^ 62) }
        ensures crash { LeavesBy (Torn at (length bytes.now)) (told self.old) (told self.new) }
        ensures goes_on { GoesOn (told self.old) (told self.new) }
        ensures failed { OnErr result (Fails (told self.old) (told self.new)) };

    /// Cuts the file to a length.
    fn cut(&mut self, to: u64) -> Result<(), DiskFailed>
        requires { Reaches (told self.old) to }
        // Promise: What a read gives and which images a crash may leave, now or since an earlier moment
        ensures cut { OnOk result ((told self.new).reads ≡ option_map (λ file. take to file) (told self.old).reads) }
        ensures crash { LeavesBy (Shortened to) (told self.old) (told self.new) }
        ensures goes_on { GoesOn (told self.old) (told self.new) }
        ensures failed { OnErr result (Fails (told self.old) (told self.new)) };

    /// Puts the file on the disk: a crash now leaves what a read gives.
    fn sync(&mut self) -> Result<(), DiskFailed>
        // Promise: What a read gives and which images a crash may leave, now or since an earlier moment
        ensures durable { OnOk result (IfSome (told self.old).reads (λ file. Only file (told self.new).may_leave)) }
        ensures same { OnOk result ((told self.new).reads ≡ (told self.old).reads) }
        ensures crash { LeavesNothingNew (told self.old) (told self.new) }
        ensures goes_on { GoesOn (told self.old) (told self.new) }
        ensures failed { OnErr result (Fails (told self.old) (told self.new)) };
}
