//! Exact numbers in 128 bits: fractions, the order of ratios, and sums of products below a limit.
//!
//! The layer above may use:
//!
//! - `Frac`: a fraction in lowest terms, with exact `add`, `sub`, `mul`, `div`, `compare` and `floor`. A result that does not fit
//!   is refused, never rounded. No call takes memory.
//! - `compare_ratio`: the order of two ratios of any size.
//! - `Weight`: a sum of products that is kept exactly up to 2^126.
//!
//! What it means that two fractions are the same, or that one is a sum or a product, is defined in `specs/Fraction.antt`.
//! Parsing and printing are left to the layers above.
//!
//! Files of lemmas that crates above may cite: `proofs/Laws.antt` (when two fractions are the same, lowest terms and the range),
//! `proofs/Signs.antt` (signed numbers by sign and size) and `proofs/Cancelling.antt` (products of fractions that are freed of common factors).
#![tactic(auto)]

mod frac;
mod gcd;
mod ratio;
mod weight;

pub use frac::{Frac, FracFault};
pub use ratio::compare_ratio;
pub use weight::{Weight, Wide};
