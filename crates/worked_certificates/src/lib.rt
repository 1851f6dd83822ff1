//! Worked certificates: read and written again, item by item, what comes before every refusal, and the certificate of a tree. What
//! `check` and `report` say of them as they are and with a line changed is in `tests/worked_cases.py`.
//!
//! The layer above may use the certificates in tests, and nothing of them elsewhere.
#![tactic(auto)]

mod certificates;

pub use certificates::{FULL, NO_PLAN, TREE, TREE_BOUND};

#[cfg(test)]
mod answers;
#[cfg(test)]
mod items;
#[cfg(test)]
mod texts;
#[cfg(test)]
mod trees;
