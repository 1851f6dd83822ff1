//! Disks over the system's calls in memory, whose files are put together part by part.

use disk_calls::FileDisk;
use disk_model::{MemCalls, MemDisk};
use edge_io::Breaks;
use std::alloc::{AllocError, Global};

/// The code that serves a real file, over the system's calls in memory.
pub type TestDisk = FileDisk<MemCalls>;

/// How many bytes a call of such a disk takes at the most: more than the writes have that most tests make, so that each is one step of the file.
const PIECE: usize = 1_000;

/// A disk whose file is empty, where no call fails or is broken off.
pub fn empty_disk(alloc: Global) -> TestDisk {
    let disk = MemDisk::new(alloc, Vec::new(alloc));
    FileDisk::new(MemCalls::new(disk, PIECE, Breaks::new(Vec::new(alloc))))
}

/// A disk whose file is these parts, one behind another. Of the calls that reach the file that of the number `failing` fails. The first read
/// or write behind an attach, a sync and a length is broken off by a signal: of the first attach, or where it fails before, of the next.
pub fn disk_of(alloc: Global, parts: &[&[u8]], failing: u64) -> Result<TestDisk, AllocError> {
    short_disk_of(alloc, parts, failing, PIECE)
}

/// The same, where each call takes so many bytes at the most, and one at the least.
pub fn short_disk_of(
    alloc: Global,
    parts: &[&[u8]],
    failing: u64,
    piece: usize,
) -> Result<TestDisk, AllocError> {
    let mut bytes = Vec::new(alloc);
    for part in parts {
        bytes.extend_from_slice(part)?;
    }
    let disk = MemDisk::failing(alloc, bytes, vec![in alloc; failing]?);
    let broken_off = if failing < 6 { failing + 6 } else { 5 };
    let breaks = Breaks::new(vec![in alloc; broken_off]?);
    Ok(FileDisk::new(MemCalls::new(disk, piece.max(1), breaks)))
}

/// The file below such a disk, with its images.
pub fn file_of(disk: &TestDisk) -> &MemDisk {
    disk.system().disk()
}
