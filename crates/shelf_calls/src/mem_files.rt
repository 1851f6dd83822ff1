//! Files in memory, by the system's calls.

ghost use Rattle.std.specs.Prelude.{◌≡◌, ◌<◌, true};
ghost use Rattle.shelf_calls.specs.MemFiles.{files_of, rest_in};

use crate::calls::{FilesCalls, ReadCalls};
use crate::mem_shelf::find_file;
use crate::opened::Opened;
use edge_io::CallFault;
use std::alloc::Global;

/// The system's calls over files in memory, which tell all and admit every name. A read gives so many bytes at the most; of each file that is
/// opened the first reads are broken off, and the read of some number fails.
#[derive(Drop)]
pub struct MemFiles {
    alloc: Global,
    files: Vec<(String, Vec<u8>)>,
    piece: usize,
    broken_off: u64,
    failing: u64,
    ghost has_pieces: { 0 < piece },
}

impl MemFiles {
    /// Over these files, names with bytes; of two files of one name the first counts. A read gives at most `piece` bytes. Of each file the
    /// first `broken_off` reads are broken off, and the read of the number `failing`, from 0, fails.
    pub fn new(
        alloc: Global,
        files: Vec<(String, Vec<u8>)>,
        piece: usize,
        broken_off: u64,
        failing: u64,
    ) -> MemFiles
        requires { 0 < piece }
        ensures { ⟦<MemFiles as FilesCalls>⟧.files result ≡ files_of files.items }
    {
        MemFiles {
            alloc,
            files,
            piece,
            broken_off,
            failing,
        }
    }
}

/// A file in memory that is open.
#[derive(Drop)]
pub struct MemReading {
    opened: Opened,
    piece: usize,
    broken_off: u64,
    failing: u64,
    reads: u64,
    ghost has_pieces: { 0 < piece },
}

impl ReadCalls for MemReading {
    ghost tells = { true };

    ghost rest = { λ f. rest_in f.opened };

    fn read(&mut self, into: &mut [u8]) -> Result<usize, CallFault> {
        let read = self.reads;
        self.reads = read.saturating_add(1);
        if read < self.broken_off {
            return Err(CallFault::Interrupted);
        }
        if read == self.failing {
            return Err(CallFault::Failed);
        }
        Ok(self.opened.hand_out(into, self.piece))
    }
}

impl FilesCalls for MemFiles {
    type File = MemReading;

    ghost files = { λ s. files_of s.files.items };

    ghost admits = { λ _ _. true };

    fn open(&self, name: &str) -> Result<MemReading, CallFault> {
        let Some(bytes) = find_file(&self.files, name) else {
            return Err(CallFault::Failed);
        };
        let bytes = Vec::from_slice(self.alloc, bytes)?;
        Ok(MemReading {
            opened: Opened::new(bytes),
            piece: self.piece,
            broken_off: self.broken_off,
            failing: self.failing,
            reads: 0,
        })
    }
}
