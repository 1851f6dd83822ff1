//! Numbers worked out by hand or by a script: fractions, ratios and weights at the ends of their ranges, texts of quantities, numbers
//! drawn from a seed, numbers in groups; and the law of first faults at one type.
//!
//! Where there are many cases they are a table of text, a case a line.
#![tactic(auto)]

#[cfg(test)]
mod first_faults;
#[cfg(test)]
mod fractions;
#[cfg(test)]
mod numbers;
