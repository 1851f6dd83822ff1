//! What is found in the records of a file.

use box_tree::Entry;
use journal_format::Version;

/// What one record holds.
#[derive(Drop)]
pub(crate) enum Record {
    /// An entry.
    Entry(Entry),
    /// The Turn: what follows has version 2.
    Turn,
}

/// Where a record stands, or is to stand.
#[derive(Clone, Copy)]
pub(crate) struct Spot {
    /// The place of its gate.
    pub(crate) at: u64,
    /// The version of its payload.
    pub(crate) version: Version,
    /// Its number, from 0 and with the Turn.
    pub(crate) number: u64,
}

/// What all records of a file hold.
#[derive(Drop)]
pub(crate) struct Found {
    /// The entries, in order.
    pub(crate) entries: Vec<Entry>,
    /// The number of the Turn's record, where there is one.
    pub(crate) turn_at: Option<u64>,
    /// Where the next record is to stand.
    pub(crate) spot: Spot,
}
