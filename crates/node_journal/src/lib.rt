//! The journal of a search: a file that keeps each entry, on a disk that may crash at any moment.
//!
//! [`Journal::open`] opens the journal of a text (the canonical text of a network) on the file that is attached, and answers
//! the entries that the file stands for; a file in which no journal has come to be yet is made one. [`Journal::append`]
//! records an entry, in version 2 of the bytes; a file of version 1 has a Turn before that, once ([`Journal::turn`], where
//! [`Journal::needs_turn`] says so). Once it has answered `Ok`, every crash leaves a file that has that entry; a crash before leaves the
//! entries that were there, with the new one or without, and never a part of one.
//!
//! What the bytes of a file are, what it stands for and why it is refused is said in `journal_format`. `specs/Settled.antt` says what the
//! disk gives and keeps between two calls, `specs/Found.antt` what is found in a file, and `specs/Journals.antt` what an open journal
//! knows of it.
//!
//! No checksum is trusted. A closed gate stands on the disk before anything is written behind it, and it is opened by a write
//! of one byte, after what it guards is on the disk.
//!
//! The layer above may use the clauses of these calls. It is left to it to attach the file, to make the
//! entries, and to open the journal again after a failure.
//!
//! Proofs above may cite `proofs/Runs.antt` (calls of a disk, one after another).
#![tactic(auto)]

mod birth;
mod found;
mod front;
mod journal;
mod records;
mod synced;

pub use journal::{Journal, Opened};
pub use journal_format::{JournalFault, largest_payload, payload_len};
