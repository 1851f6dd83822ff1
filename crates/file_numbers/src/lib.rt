//! The numbers that a system gives to open files, and those of the standard streams held.
//!
//! A file that is opened gets the lowest number that is free. Where a caller closed a standard stream, that is the stream's, and what is
//! printed would go into the file. `hold_streams` sees to it that each of the numbers 0, 1 and 2 is in use before a file is opened.
//!
//! It goes over the system's call (`NumberCalls`): that of the runtime (`SystemNumbers`) tells nothing, that in memory (`MemNumbers`) all.
//! That the runtime's call keeps the clauses of `NumberCalls` is left to the system.
#![tactic(auto)]

mod mem_numbers;
mod numbers;
mod system_numbers;

pub use mem_numbers::MemNumbers;
pub use numbers::{NumberCalls, hold_streams};
pub use system_numbers::SystemNumbers;
