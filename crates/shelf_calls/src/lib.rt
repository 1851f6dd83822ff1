//! Where files are read from.
//!
//! A `Shelf` is what files are read from. Code that reads takes one by this trait alone. Over a shelf in memory (`MemShelf`,
//! `SliceShelf`) the contracts say which bytes were read, and what happened at a failure; `FileShelf` is one over the system's
//! calls (`FilesCalls`), and tells what they tell. Those of the runtime (`SystemFiles`) tell nothing, those in memory (`MemFiles`) all.
//!
//! What a shelf tells of itself is one record, `ShelfTold`, and what each call keeps of it another, `Keeps`.
//!
//! The layer above may use the clauses of the trait: a read gives the bytes under a name, and a failure comes only where a
//! count of faults rose in that call. Proofs above may cite, of `proofs/`, `Keeping` (what calls keep, one after another).
//!
//! That the runtime's calls keep the clauses of `FilesCalls` and `ReadCalls` is left to the system.
#![tactic(auto)]

mod calls;
mod fault;
mod file_shelf;
mod mem_files;
mod mem_shelf;
mod opened;
mod reading;
mod shelf;
mod slice_shelf;
mod system_files;

pub use calls::{FilesCalls, ReadCalls};
pub use fault::{OpenFault, ReadFailed, ShelfFault};
pub use file_shelf::FileShelf;
pub use mem_files::{MemFiles, MemReading};
pub use mem_shelf::MemShelf;
pub use reading::read_once;
pub use shelf::Shelf;
pub use slice_shelf::SliceShelf;
pub use system_files::{SystemFiles, SystemReading};
