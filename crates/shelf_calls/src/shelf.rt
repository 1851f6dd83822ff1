//! What files are read from.

ghost use Rattle.std.specs.Prelude.{◌≡◌, ◌≤◌, ◌⊎◌, IsTrue, IfOk, OnOk, OnErr, length, take, vec_len};
ghost use Rattle.edge_io.specs.Counts.{Rose, RoseBy};
ghost use Rattle.shelf_calls.specs.Files.{HasFile, IsTooLong};
ghost use Rattle.shelf_calls.specs.Opened.{IsOpened, IsUsedUp, ahead};
ghost use Rattle.shelf_calls.specs.Told.{ShelfTold, Keeps};

use crate::fault::{OpenFault, ReadFailed, ShelfFault};
use std::alloc::Global;

/// What files are read from.
///
/// A file is read whole by its name, or it is opened and then read piece by piece.
///
/// Its counts of bytes and of faults never fall, and stand still at their last value, `2^64 - 1`. Whether it tells its
/// files, which files they are, which names it admits and whether it tells the rest of the opened file is changed by no
/// call.
pub trait Shelf {
    /// What it tells of itself: its files and which names it admits, what is left of the opened file, and its two counts.
    ghost told: { Self → ShelfTold };

    /// The whole of the file of that name, which has at most `most` bytes.
    ///
    /// `Failed` comes only where the count of faults rose, `TooLong` where the file has more than `most` bytes.
    fn read_all(&mut self, alloc: Global, name: &str, most: usize) -> Result<Vec<u8>, ShelfFault>
        requires { IsTrue ((told self.old).admits name.now) }
        // Promise: What a shelf reads is the bytes under the name
        ensures found { IfOk result (λ v. HasFile (told self.old).files name.now v.items) }
        ensures short { IfOk result (λ v. vec_len v ≤ most) }

        // Promise: A fault comes only where a count rose, for real files and streams too
        ensures failed { result ≡ Err ShelfFault.Failed → Rose (told self.old).faults (told self.new).faults }
        ensures too_long { result ≡ Err ShelfFault.TooLong →
            IsTooLong (told self.old).files name.now most (told self.old).taken (told self.new).taken }
        // Promise: A call of a shelf that does not say that it failed leaves the count of faults as it was
        ensures quiet { (result ≡ Err ShelfFault.Failed) ⊎ ((told self.new).faults ≡ (told self.old).faults) }

        ensures kept { Keeps (told self.old) (told self.new) }
        ensures same_rest { (told self.new).rest ≡ (told self.old).rest };

    /// Opens the file of that name, to be read from its first byte on. A file that was opened before is let go.
    ///
    /// `Failed` comes only where the count of faults rose.
    fn open_read(&mut self, alloc: Global, name: &str) -> Result<(), OpenFault>
        requires { IsTrue ((told self.old).admits name.now) }
        // Promise: A piece of an opened file is the next bytes of it, and what is left is the rest behind them
        ensures opened { OnOk result (IsOpened (told self.old).files name.now (told self.new).rest) }

        ensures failed { result ≡ Err OpenFault.Failed → Rose (told self.old).faults (told self.new).faults }
        // Promise: A call of a shelf that does not say that it failed leaves the count of faults as it was
        ensures quiet { (result ≡ Err OpenFault.Failed) ⊎ ((told self.new).faults ≡ (told self.old).faults) }

        ensures kept { Keeps (told self.old) (told self.new) };

    /// Puts the next bytes of the opened file at the front of `into`, and says how many; it puts none there only where
    /// `into` has no room or nothing is left.
    ///
    /// `ReadFailed` comes only where the count of faults rose.
    fn read_some(&mut self, into: &mut [u8]) -> Result<usize, ReadFailed>
        ensures part { IfOk result (λ n. n ≤ length into.new) }
        // Promise: A piece of an opened file is the next bytes of it, and what is left is the rest behind them
        ensures handed { IfOk result (λ n. (told self.old).rest ≡ ahead (take n into.new) (told self.new).rest) }
        // Promise: A read gives none only where there is no room, or nothing is left
        ensures some { IfOk result (λ n. n ≡ 0 → (length into.new ≡ 0) ⊎ IsUsedUp (told self.old).rest) }
        ensures counted { IfOk result (λ n. RoseBy n (told self.old).taken (told self.new).taken) }

        ensures failed { OnErr result (Rose (told self.old).faults (told self.new).faults) }
        // Promise: A call of a shelf that does not say that it failed leaves the count of faults as it was
        ensures quiet { OnOk result ((told self.new).faults ≡ (told self.old).faults) }

        ensures kept { Keeps (told self.old) (told self.new) };
}
