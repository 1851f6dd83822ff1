//! Every row of worked networks, the halves of a box, what multipliers on rows show, and which points are witnesses for a bound,
//! against figures and rows that were written by hand.
//!
//! The texts of exact programs are tried in `tests/worked_cases.py`.
#![tactic(auto)]

#[cfg(test)]
mod expected_rows;
#[cfg(test)]
mod halves;
#[cfg(test)]
mod rows;
#[cfg(test)]
mod treatment;
#[cfg(test)]
mod values;
#[cfg(test)]
mod witnesses;
