//! Versions of a map from small keys to numbers, which share what they have in common.
//!
//! Version 0 has the number 0 at each key. [`MapVersions::change`] adds a version: an earlier one with another number at one key;
//! [`MapVersions::number`] answers what a version has at a key. Both take a few steps, however many versions there are, and a version
//! takes 100 bytes, where a map of its own would take a number for each key. `specs/Versions.antt` says what a change is.
//!
//! A version is a tree of three levels of blocks of eight numbers, whose last level has the numbers of the map: a change makes three
//! blocks anew, and all the others are those of the earlier version (Driscoll, Sarnak, Sleator and Tarjan, 1989: path copying).
#![tactic(auto)]

mod versions;

pub use versions::{MOST_KEYS, MapVersions};
