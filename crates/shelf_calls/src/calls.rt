//! The system's calls on files that are read.

ghost use Rattle.std.specs.Prelude.{◌≡◌, ◌≤◌, ◌⊎◌, ◌++◌, ℕ, Bool, List, [], Some, IsTrue, IfOk, OnErr, length, take};
ghost use Rattle.shelf_calls.specs.Files.{file_of};

use edge_io::CallFault;

/// A file of the system that is open to be read, by calls as POSIX has them: a read may give a part of what is left, a signal may break it
/// off, and it may fail.
pub trait ReadCalls {
    /// Whether the system tells what its files hold.
    ghost tells: { Bool };

    /// What of the file is not read yet, where the system tells it.
    ghost rest: { Self → List ℕ };

    /// Reads the next bytes into the front of a room, and says how many; it reads none only where there is no room, or nothing is left.
    fn read(&mut self, into: &mut [u8]) -> Result<usize, CallFault>
        ensures part { IfOk result (λ n. n ≤ length into.new) }
        ensures bytes { IfOk result (λ n. IsTrue tells → rest self.old ≡ take n into.new ++ rest self.new) }
        ensures some { IfOk result (λ n. IsTrue tells → n ≡ 0 → (length into.new ≡ 0) ⊎ (rest self.old ≡ [])) }
        ensures unread { OnErr result (rest self.new ≡ rest self.old) };
}

/// The files of the system, by their names.
pub trait FilesCalls {
    /// A file that is open.
    type File: ReadCalls + Drop;

    /// Its files, names with bytes, where it tells them.
    ghost files: { Self → List (List ℕ × List ℕ) };

    /// Which names it admits.
    ghost admits: { Self → List ℕ → Bool };

    /// Opens the file of that name, to be read from its first byte on.
    fn open(&self, name: &str) -> Result<Self::File, CallFault>
        requires { IsTrue (admits self.now name.now) }
        ensures { IfOk result (λ f. IsTrue Self.File.tells → file_of (files self.now) name.now ≡ Some (Self.File.rest f)) };
}
