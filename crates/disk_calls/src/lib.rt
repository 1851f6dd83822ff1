//! The calls of a disk that may crash at any moment.
//!
//! A `Disk` is one file: attach it, read and write at places, cut it, sync it. The clauses of the trait say what a read
//! gives and which images of the file a crash leaves, now or at some moment since an earlier one: between two syncs each
//! written range, and the part past the old end, may hold any bytes, and a cut leaves some length between the two. After
//! a failure nothing is known of reads until the file is attached again, and each failure is counted.
//!
//! `FileDisk` is a disk over the system's calls on a file (`FileCalls`), and tells what they tell. Those of the runtime (`SystemFile`) tell
//! nothing; that they keep the clauses of `FileCalls` is left to the system. Disks and calls in memory, which tell, are left to the layer
//! above.
//!
//! The layer above stands on the clauses of the trait alone. `specs/Disks.antt` has their words: `DiskTold` is what there is to know of a
//! disk, `Finds` what an attach does, `GoesOn` what every other call keeps, `Fails` what every failure means. The lemmas of
//! `proofs/Moments.antt` go from "this holds of each image since a moment" over one call more to the same after it; those of
//! `proofs/Calling.antt` say what one torn write or cut leaves. `specs/Calls.antt` has the words of `FileCalls`. `append_byte` is a small call that is proved by them.
#![tactic(auto)]

mod append;
mod calls;
mod disk;
mod file_disk;
mod opening;
mod reading;
mod system_file;
mod writing;

pub use append::append_byte;
pub use calls::FileCalls;
pub use disk::{Disk, DiskFailed, MAX_LENGTH};
pub use file_disk::FileDisk;
pub use system_file::SystemFile;
