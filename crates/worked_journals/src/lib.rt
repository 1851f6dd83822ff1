//! Worked journals: the bytes of one, the files that are refused, and stops in each call of the disk, of a journal alone and of a run
//! of splits that goes on from it, also from a file of version 1; and the first steps of a search, a call at a time.
#![tactic(auto)]

#[cfg(test)]
mod files;
#[cfg(test)]
mod sessions;
#[cfg(test)]
mod steps;
#[cfg(test)]
mod turns;
