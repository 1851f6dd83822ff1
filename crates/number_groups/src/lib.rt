//! Numbers in groups: which of the first numbers have a key, for each key.
//!
//! [`Groups::by`] makes the groups from a list of keys, in one pass over it; [`Groups::of`] answers the numbers of a key, in
//! rising order, without a search. Contracts see a `Groups` as the list of its groups, by key (`groups_of`), whose elements are
//! `numbers_at` of `integers`.
//!
//! What the numbers and the keys stand for is left to the layer above.
//! Its proofs may cite `proofs/Grouped.antt`: numbers that have a key are below the count, and no more than that.
#![tactic(auto)]

mod groups;

pub use groups::Groups;
