//! What searches are made of, on small networks: trees of boxes that are cut entry by entry, a leaf that is squeezed, the order of their
//! leaves, what the cut rules pick, looks at a leaf before it is cut, and plans near points from which the best plan is known, against
//! answers worked out by hand or found by another program.
//!
//! That a look or a repair comes near what is known is no clause, so these tests show it. Whole searches are tried in `tests/worked_cases.py`.
#![tactic(auto)]

#[cfg(test)]
mod looks;
#[cfg(test)]
mod orders;
#[cfg(test)]
mod repairs;
#[cfg(test)]
mod rules;
#[cfg(test)]
mod squeezes;
#[cfg(test)]
mod trees;
