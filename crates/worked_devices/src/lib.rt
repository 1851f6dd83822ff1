//! Shelves, sinks and disks in memory, of the system, and failing where they were told to: what they answer, call after call.
//!
//! Answers are gathered and compared once: a test that leaves in many places while a shelf lives is dear to prove. The layer above may
//! use [`disk_of`] and its like in tests: disks over the code that serves a real file.
#![tactic(auto)]

mod parts;

pub use parts::{TestDisk, disk_of, empty_disk, file_of, short_disk_of};

#[cfg(test)]
mod buffers;
#[cfg(test)]
mod calls;
#[cfg(test)]
mod disks;
#[cfg(test)]
mod files;
#[cfg(test)]
mod shelves;
#[cfg(test)]
mod sinks;
