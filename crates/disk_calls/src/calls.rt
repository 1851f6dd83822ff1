//! The system's calls on the file of a disk.

ghost use Rattle.std.specs.Prelude.{◌≡◌, ◌≤◌, Bool, None, Err, IsTrue, IfOk, IfSome, OnOk, OnErr, length, take, option_map};
ghost use Rattle.disk_calls.specs.Disks.{DiskTold, written, Torn, Shortened, Only, Reaches, LeavesBy, LeavesNothingNew, Elapses, IsSameDevice, GoesOn};
ghost use Rattle.disk_calls.specs.Calls.{Opens, Notes, Gives};

use edge_io::CallFault;

/// The system's calls on the file of a disk, each as POSIX has it: a read or a write may take a part, a signal may break a call off, and
/// any call may fail.
///
/// What is open is one file at the most. Its bytes and what a crash leaves of it are told as a disk tells them. What is written, and the
/// name of a file that is new, is on the disk only after a sync: of the file, and of its folder.
pub trait FileCalls {
    /// What there is to know of the file: what reads give, and which images a crash leaves.
    ghost told: { Self → DiskTold };

    /// Whether the name of the open file outlives a crash.
    ghost named: { Self → Bool };

    /// Opens the file of that name for reading and writing, and makes it, empty, where there is none.
    fn open(&mut self, name: &str) -> Result<(), CallFault>
        requires { IsTrue ((told self.old).admits name.now) }
        ensures opened { OnOk result (IsTrue (told self.old).tells → Opens (told self.old) (told self.new)) }
        ensures crash { LeavesNothingNew (told self.old) (told self.new) }
        ensures goes_on { GoesOn (told self.old) (told self.new) };

    /// Lets the open file go.
    fn close(&mut self)
        ensures closed { (told self.new).reads ≡ None }
        ensures crash { LeavesNothingNew (told self.old) (told self.new) }
        ensures goes_on { GoesOn (told self.old) (told self.new) };

    /// Puts the folder of that name on the disk, and so the name of the open file; the file that a read gives is noted as found.
    fn sync_folder(&mut self, name: &str) -> Result<(), CallFault>
        requires { IsTrue ((told self.old).admits name.now) }
        ensures names { OnOk result (IsTrue (named self.new)) }
        ensures notes { OnOk result (Notes (told self.old) (told self.new)) }
        ensures same { OnOk result ((told self.new).reads ≡ (told self.old).reads) }
        ensures not_noted { OnErr result ((told self.new).attached ≡ (told self.old).attached) }
        ensures crash { LeavesNothingNew (told self.old) (told self.new) }
        ensures time { Elapses (told self.old) (told self.new) }
        ensures same_device { IsSameDevice (told self.old) (told self.new) };

    /// The length of the open file.
    fn fstat(&mut self) -> Result<u64, CallFault>
        ensures length { IfOk result (λ n. IfSome (told self.old).reads (λ file. n ≡ length file)) }
        ensures same { OnOk result ((told self.new).reads ≡ (told self.old).reads) }
        ensures same_name { named self.new ≡ named self.old }
        ensures crash { LeavesNothingNew (told self.old) (told self.new) }
        ensures goes_on { GoesOn (told self.old) (told self.new) };

    /// Reads some of the bytes from that place on, the first ones, and says how many.
    fn pread(&mut self, at: u64, into: &mut [u8]) -> Result<usize, CallFault>
        ensures part { IfOk result (λ n. n ≤ length into.new) }
        ensures bytes { IfOk result (λ n. IfSome (told self.old).reads (λ file. Gives file at n into.new)) }
        ensures same { OnOk result ((told self.new).reads ≡ (told self.old).reads) }
        ensures broken_off { result ≡ Err CallFault.Interrupted → (told self.new).reads ≡ (told self.old).reads }
        ensures same_name { named self.new ≡ named self.old }
        ensures crash { LeavesNothingNew (told self.old) (told self.new) }
        ensures goes_on { GoesOn (told self.old) (told self.new) };

    /// Writes some of the bytes from that place on, the first ones, over what is there and past the end, and says how many. Of a write that
    /// fails any part may have come.
    fn pwrite(&mut self, at: u64, bytes: &[u8]) -> Result<usize, CallFault>
        requires { Reaches (told self.old) at }
        ensures part { IfOk result (λ n. n ≤ length bytes.now) }
        ensures written { IfOk result (λ n.
            (told self.new).reads ≡ option_map (λ file. written file at (take n bytes.now)) (told self.old).reads) }
        ensures broken_off { result ≡ Err CallFault.Interrupted → (told self.new).reads ≡ (told self.old).reads }
        ensures same_name { named self.new ≡ named self.old }
        ensures crash { LeavesBy (Torn at (length bytes.now)) (told self.old) (told self.new) }
        ensures goes_on { GoesOn (told self.old) (told self.new) };

    /// Cuts the open file to a length.
    fn ftruncate(&mut self, to: u64) -> Result<(), CallFault>
        requires { Reaches (told self.old) to }
        ensures cut { OnOk result ((told self.new).reads ≡ option_map (λ file. take to file) (told self.old).reads) }
        ensures same_name { named self.new ≡ named self.old }
        ensures crash { LeavesBy (Shortened to) (told self.old) (told self.new) }
        ensures goes_on { GoesOn (told self.old) (told self.new) };

    /// Puts the bytes and the length of the open file on the disk: where its name is there too, a crash now leaves what a read gives.
    fn fsync(&mut self) -> Result<(), CallFault>
        ensures durable { OnOk result (IsTrue (named self.old) →
            IfSome (told self.old).reads (λ file. Only file (told self.new).may_leave)) }
        ensures same { OnOk result ((told self.new).reads ≡ (told self.old).reads) }
        ensures same_name { named self.new ≡ named self.old }
        ensures crash { LeavesNothingNew (told self.old) (told self.new) }
        ensures goes_on { GoesOn (told self.old) (told self.new) };
}
