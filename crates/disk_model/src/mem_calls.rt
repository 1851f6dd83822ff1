//! The system's calls, over a file in memory.

ghost use Rattle.std.specs.Prelude.{◌≡◌, ◌<◌, false};

use crate::mem_disk::MemDisk;
use disk_calls::{Disk, FileCalls};
use edge_io::{Breaks, CallFault};

/// The system's calls over a disk in memory, which tell all: a read or a write takes so many bytes at the most, the calls of some numbers
/// are broken off, and those that the disk is told to fail fail. Every name is that of its file; what is synced before the file's folder
/// is stays off the disk.
#[derive(Drop)]
pub struct MemCalls {
    disk: MemDisk,
    named: bool,
    piece: usize,
    breaks: Breaks,
    ghost has_pieces: { 0 < piece },
}

impl MemCalls {
    ghost use Rattle.disk_model.specs.MemCalls.{disk_of, is_named};

    /// Over a disk. Each call takes at most `piece` bytes. Those that are broken off do not reach the disk, and it does not count them.
    pub fn new(disk: MemDisk, piece: usize, breaks: Breaks) -> MemCalls
        requires { 0 < piece }
        ensures disk { disk_of result ≡ disk }
        ensures unnamed { is_named result ≡ false }
    {
        MemCalls {
            disk,
            named: false,
            piece,
            breaks,
        }
    }

    /// The disk below.
    pub fn disk(&self) -> &MemDisk
        ensures { result.now ≡ disk_of self.now }
    {
        &self.disk
    }
}

impl FileCalls for MemCalls {
    ghost use Rattle.disk_model.specs.MemDisks.{told_of};
    ghost use Rattle.disk_model.specs.MemCalls.{disk_of, is_named};

    ghost told = { λ s. told_of (disk_of s) };

    ghost named = { is_named };

    fn open(&mut self, _name: &str) -> Result<(), CallFault> {
        self.breaks.pass()?;
        self.named = false;
        match self.disk.hold() {
            Ok(()) => Ok(()),
            Err(_) => Err(CallFault::Failed),
        }
    }

    fn close(&mut self) {
        self.disk.let_go();
    }

    fn sync_folder(&mut self, _name: &str) -> Result<(), CallFault> {
        self.breaks.pass()?;
        match self.disk.find() {
            Ok(()) => {
                self.named = true;
                Ok(())
            }
            Err(_) => Err(CallFault::Failed),
        }
    }

    fn fstat(&mut self) -> Result<u64, CallFault> {
        self.breaks.pass()?;
        match self.disk.len() {
            Ok(length) => Ok(length),
            Err(_) => Err(CallFault::Failed),
        }
    }

    fn pread(&mut self, at: u64, into: &mut [u8]) -> Result<usize, CallFault> {
        self.breaks.pass()?;
        let Some(length) = self.disk.reach() else {
            return Err(CallFault::Failed);
        };
        let start = at as usize;
        if start > length {
            return Ok(0);
        }
        let count = into.len().min(self.piece).min(length - start);
        match self.disk.read_at(at, &mut into[..count]) {
            Ok(()) => Ok(count),
            Err(_) => Err(CallFault::Failed),
        }
    }

    fn pwrite(&mut self, at: u64, bytes: &[u8]) -> Result<usize, CallFault> {
        self.breaks.pass()?;
        let count = bytes.len().min(self.piece);
        match self.disk.write_at(at, &bytes[..count]) {
            Ok(()) => Ok(count),
            Err(_) => Err(CallFault::Failed),
        }
    }

    fn ftruncate(&mut self, to: u64) -> Result<(), CallFault> {
        self.breaks.pass()?;
        match self.disk.cut(to) {
            Ok(()) => Ok(()),
            Err(_) => Err(CallFault::Failed),
        }
    }

    fn fsync(&mut self) -> Result<(), CallFault> {
        self.breaks.pass()?;
        let outcome = if self.named {
            self.disk.sync()
        } else {
            self.disk.len().map(|_| ())
        };
        match outcome {
            Ok(()) => Ok(()),
            Err(_) => Err(CallFault::Failed),
        }
    }
}
