//! Small linear programs solved by hand, on which the simplex method is tried; and proofs that are rounded of advice without a word.
//!
//! No clause says that an advice is good, so these tests do: each compares with an optimum or a ray found by hand.
#![tactic(auto)]

#[cfg(test)]
mod roundings;
#[cfg(test)]
mod tests;
