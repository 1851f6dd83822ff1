//! Least common multiples of denominators below 2^64, and fractions over them.
//!
//! [`common_denominator`] gives the least number over which each of some fractions is whole, [`joined`] that of a number and one fraction
//! more. [`times`] and [`short_times`] give so many times a fraction as a whole number, of 128 and of 64 bits. Where a number would pass
//! these sizes, [`Coarse`] names the number and the fraction.
//!
//! `specs/Multiples.antt` says what a least common multiple is, by what it divides, and when a number and a fraction are too coarse. No
//! call takes memory.
//!
//! Proofs above may cite `proofs/Least.antt` (least common multiples of a number and a denominator, and what is outside so many bits).
#![tactic(auto)]

mod common;
mod multiples;

pub use common::common_denominator;
pub use multiples::{Coarse, joined, short_times, times};
