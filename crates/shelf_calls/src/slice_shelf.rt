//! A shelf of one file, which lies in memory and is open.

ghost use Rattle.std.specs.Prelude.{◌≡◌, ◌+◌, ◌-◌, ◌^◌, ◌≤◌, [], ◌∷◌, ◌++◌, Some, Err, ◌⊎◌, length, vec_len, take, min, bytes_eq, IfOk, OnOk, OnErr, IsOk, IsTrue};
ghost use Rattle.edge_io.specs.Counts.{Grows, Rose};
ghost use Rattle.shelf_calls.specs.Files.{HasFile, IsTooLong, file_of, HasMore};
ghost use Rattle.shelf_calls.specs.Opened.{IsAllOf};
ghost use Rattle.shelf_calls.specs.SliceShelves.{bytes_of, rest_of, taken_of, told_of};
ghost use Rattle.shelf_calls.specs.Told.{Keeps};

use crate::fault::{OpenFault, ReadFailed, ShelfFault};
use crate::opened::copy_front;
use crate::shelf::Shelf;
use std::alloc::Global;

/// A shelf of one file, whose bytes lie in memory and whose name is empty. It admits that name alone, and never fails.
#[derive(Drop)]
pub struct SliceShelf<'a> {
    bytes: &'a [u8],
    rest: &'a [u8],
    taken: u64,
}

impl<'a> SliceShelf<'a> {
    /// Over these bytes, as a file that is open.
    pub fn new(bytes: &'a [u8]) -> SliceShelf<'a>
        ensures bytes { bytes_of result ≡ bytes.now }
        ensures rest { rest_of result ≡ bytes.now }
        ensures unread { taken_of result ≡ 0 }
    {
        SliceShelf {
            bytes,
            rest: bytes,
            taken: 0,
        }
    }
}

impl<'a> Shelf for SliceShelf<'a> {
    ghost told = { told_of };

    fn read_all(&mut self, alloc: Global, _name: &str, most: usize) -> Result<Vec<u8>, ShelfFault>
        // What every shelf does; of failures the count stands at 0.
        requires admits { IsTrue (bytes_eq [] _name.now) }
        ensures found { IfOk result (λ v. HasFile (told_of self.old).files _name.now v.items) }
        ensures short { IfOk result (λ v. vec_len v ≤ most) }
        ensures failed { result ≡ Err ShelfFault.Failed → Rose 0 0 }
        ensures too_long { result ≡ Err ShelfFault.TooLong →
            IsTooLong (told_of self.old).files _name.now most (taken_of self.old) (taken_of self.new) }
        ensures quiet { (result ≡ Err ShelfFault.Failed) ⊎ ((told_of self.new).faults ≡ (told_of self.old).faults) }
        ensures kept { Keeps (told_of self.old) (told_of self.new) }
        ensures same_rest { rest_of self.new ≡ rest_of self.old }

        // The bytes of a file that is given are counted.
        ensures counted { IfOk result (λ v. taken_of self.new ≡ min (taken_of self.old + vec_len v) (2 ^ 64 - 1)) }
        ensures uncounted { OnErr result (taken_of self.new ≡ taken_of self.old) }
    {
        if self.bytes.len() > most {
            return Err(ShelfFault::TooLong);
        }
        let bytes = Vec::from_slice(alloc, self.bytes)?;
        self.taken = self.taken.saturating_add(bytes.len() as u64);
        Ok(bytes)
    }

    fn open_read(&mut self, _alloc: Global, _name: &str) -> Result<(), OpenFault> {
        self.rest = self.bytes;
        Ok(())
    }

    fn read_some(&mut self, into: &mut [u8]) -> Result<usize, ReadFailed> {
        let count = copy_front(self.rest, into, usize::MAX);
        self.rest = &self.rest[count..];
        self.taken = self.taken.saturating_add(count as u64);
        Ok(count)
    }
}
