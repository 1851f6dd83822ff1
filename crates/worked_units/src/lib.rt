//! Jobs on the leaves of trees over a small network: a desk's judgements of answers that fit and of those that it has no use for; and the texts of
//! jobs and answers. All are worked out and written by hand.
#![tactic(auto)]

#[cfg(test)]
mod desks;
#[cfg(test)]
mod texts;
