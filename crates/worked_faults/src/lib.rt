//! Runs of the whole program where something fails at each call in turn.
//!
//! What a run answers then is proved in `pool_cli`, over every shelf, sink and disk. These tests show that a run gets there: that a
//! fault is told as what it is, and that the next run goes on.
#![tactic(auto)]

#[cfg(test)]
mod disks;
#[cfg(test)]
mod memory;
#[cfg(test)]
mod searches;
#[cfg(test)]
mod sinks;
