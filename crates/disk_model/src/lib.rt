//! Disks in memory, for tests of what stands on a disk.
//!
//! `MemDisk` keeps each step that its file has gone and shows images of every moment; it fails where it was told to. `WildDisk` tells
//! nothing, and reads as anything: over it a caller shows that it stands on the clauses alone.
//!
//! `MemCalls` are the system's calls over a `MemDisk`: short, broken off and failing where told, for a `FileDisk` to go over.
//!
//! The first two are a `Disk` of `disk_calls`, which has the clauses and the lemmas on them. The layers above stand on those alone.
#![tactic(auto)]

mod mem_calls;
mod mem_disk;
mod step;
mod wild_disk;

pub use mem_calls::MemCalls;
pub use mem_disk::MemDisk;
pub use wild_disk::WildDisk;
