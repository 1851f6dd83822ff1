//! A shelf over the files of the system.

ghost use Rattle.std.specs.Prelude.{◌≡◌, ◌+◌, ◌-◌, ◌^◌, ◌≤◌, [], min, OnOk, IsTrue};
ghost use Rattle.edge_io.specs.Counts.{Grows, Rose};
ghost use Rattle.shelf_calls.specs.Calls.{when_told, left_of, IsFront};

use crate::calls::{FilesCalls, ReadCalls};
use crate::fault::{OpenFault, ReadFailed, ShelfFault};
use crate::reading::{read_front, read_once};
use crate::shelf::Shelf;
use edge_io::CallFault;
use std::alloc::Global;

/// A shelf over the files of a system. It tells what they tell.
#[derive(Drop)]
pub struct FileShelf<S: FilesCalls> {
    files: S,
    opened: Option<S::File>,
    taken: u64,
    faults: u64,
}

impl<S: FilesCalls> FileShelf<S> {
    /// Over the calls of a system.
    pub fn new(files: S) -> FileShelf<S>
        ensures unread { (⟦<FileShelf<S> as Shelf>⟧.told result).taken ≡ 0 }
        ensures sound { (⟦<FileShelf<S> as Shelf>⟧.told result).faults ≡ 0 }
        ensures names { (⟦<FileShelf<S> as Shelf>⟧.told result).admits ≡ S.admits files }
        ensures files { (⟦<FileShelf<S> as Shelf>⟧.told result).files ≡ when_told S.File.tells (S.files files) }
    {
        FileShelf {
            files,
            opened: None,
            taken: 0,
            faults: 0,
        }
    }

    /// Reads a file into `bytes`, no further than one byte past `most`.
    fn read(&self, name: &str, most: usize, bytes: &mut Vec<u8>) -> Result<(), CallFault>
        requires admits { IsTrue (S.admits self.now.files name.now) }
        requires empty { bytes.old.items ≡ [] }
        ensures { OnOk result (IsTrue S.File.tells → IsFront (S.files self.now.files) name.now most bytes.new.items) }
    {
        let mut file = self.files.open(name)?;
        read_front(&mut file, most, bytes)
    }

    /// Counts that many bytes, which a call has taken.
    fn count(&mut self, n: usize)
        ensures counted { self.new.taken ≡ min (self.old.taken + n) (2 ^ 64 - 1) }
        ensures grows { Grows self.old.taken self.new.taken }
        ensures rest { self.new ≡ record self.old { taken = self.new.taken } }
    {
        self.taken = self.taken.saturating_add(n as u64);
    }

    /// Counts a failure.
    fn fail(&mut self)
        ensures counted { Rose self.old.faults self.new.faults }
        ensures grows { Grows self.old.faults self.new.faults }
        ensures rest { self.new ≡ record self.old { faults = self.new.faults } }
    {
        self.faults = self.faults.saturating_add(1);
    }
}

impl<S: FilesCalls> Shelf for FileShelf<S> {
    ghost told = { λ s. record {
      files = when_told S.File.tells (S.files s.files);
      admits = S.admits s.files;
      rest = when_told S.File.tells (left_of S.File.rest s.opened);
      taken = s.taken;
      faults = s.faults;
    } };

    /// Reads at most one byte more than `most`, so a file that is too long, or has no end, is never read whole.
    fn read_all(&mut self, alloc: Global, name: &str, most: usize) -> Result<Vec<u8>, ShelfFault> {
        let mut bytes = Vec::new(alloc);
        let outcome = self.read(name, most, &mut bytes);
        self.count(bytes.len());
        match outcome {
            Ok(()) if bytes.len() > most => Err(ShelfFault::TooLong),
            Ok(()) => Ok(bytes),
            Err(CallFault::Memory) => Err(ShelfFault::Memory),
            Err(_) => {
                self.fail();
                Err(ShelfFault::Failed)
            }
        }
    }

    fn open_read(&mut self, _alloc: Global, name: &str) -> Result<(), OpenFault> {
        self.opened = None;
        match self.files.open(name) {
            Ok(file) => {
                self.opened = Some(file);
                Ok(())
            }
            Err(CallFault::Memory) => Err(OpenFault::Memory),
            Err(_) => {
                self.fail();
                Err(OpenFault::Failed)
            }
        }
    }

    /// Fails where no file is open.
    fn read_some(&mut self, into: &mut [u8]) -> Result<usize, ReadFailed> {
        let outcome = match &mut self.opened {
            Some(file) => read_once(file, into),
            None => Err(CallFault::Failed),
        };
        match outcome {
            Ok(n) => {
                self.count(n);
                Ok(n)
            }
            Err(_) => {
                self.fail();
                Err(ReadFailed)
            }
        }
    }
}
