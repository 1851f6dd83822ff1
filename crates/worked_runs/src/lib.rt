//! Runs of the whole program over shelves, sinks and disks in memory, for tests; what words ask; and `check` over a shelf that fails.
//!
//! What a run answers is proved in `pool_cli`, over every shelf, sink and disk. The runs here serve `worked_faults` too; what runs on real
//! files answer is tried in `tests/worked_cases.py`. `served` has the whole program, down to the code of its process; `words` has each command with each option.
#![tactic(auto)]

mod runs;

pub use runs::{answer, answered, ended_on, explained, told};

#[cfg(test)]
mod reads;
#[cfg(test)]
mod served;
#[cfg(test)]
mod words;
