//! Numbers that are drawn from a seed: the same seed gives the same numbers on every machine.
//!
//! [`Draws`] gives them one after another, each below a number that the caller says, or as bytes. `specs/Draws.antt` says which they
//! are. They make networks for trials, and disks that read as anything; they are no secret, and no good for statistics.
//!
//! Proofs above may cite `proofs/Steps.antt`: the state and the numbers after some draws, and after one more.
#![tactic(auto)]

mod draws;

pub use draws::Draws;
