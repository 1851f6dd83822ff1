//! The bytes of a journal: what the bytes of an entry are, what a whole file stands for, and both ways between them and entries in memory.
//!
//! There are two versions of the bytes (`specs/Versions.antt`). `specs/Payload.antt` says what the bytes of an entry are in either,
//! `specs/Histories.antt` what the records of a file hold: entries in one version, or entries in version 1, the Turn, and entries in
//! version 2. `specs/Files.antt` says what a whole file stands for and when it is one that a journal of a text may leave;
//! `specs/Faults.antt` says why a file is refused. Those are the format (docs/FORMATS.md). `specs/Records.antt` says what stands at a
//! place of a file: a record, several, or none that is one.
//!
//! Written: [`newborn_file`] makes the file of a journal without entries, and [`put_behind_gate`] puts a record together in a [`Page`],
//! a room that was taken before; [`payload_len`] says how long the payload is. [`turn_behind_gate`] is the Turn. What is written has
//! version 2. Read: [`state_of`] says what the first bytes of a file say of it, [`opening_of`] what stands before a payload,
//! [`read_payload`] which entry a payload is, and [`is_turn`] whether it is the Turn. What is written is read again, and what is read
//! was written so. [`largest_payload`] is how long a payload may be on a network.
//!
//! The laws of `laws.rt`: a file stands for one list, one that holds a list is one that the journal may leave, and entries in order are
//! taken back.
//!
//! Nothing here reads or writes a disk: where the bytes stand, in which order they come to be there, and what a crash leaves, is left
//! to the layer above.
//!
//! Proofs above may cite, of `proofs/`: `RecordLaws` (a list of records is read in one way; records at places, one more, and bad ones),
//! `HistoryLaws` (so are the records of a file, and one may stand behind them), `Heads` (what stands before the records), `OwnFiles` (files that are born or not, and those that a journal may leave), `Decided` (a file has one fault at most, and none where it
//! stands for entries), `ShortPayloads` (how long the payloads of entries in order are, and that their counts fit) and `Numbers` (how
//! long a field is).
#![tactic(auto)]

mod fault;
mod fields;
mod head;
mod laws;
mod longest;
mod opening;
mod page;
mod reading;
mod version;
mod writing;

pub use fault::{EntryUnread, JournalFault};
pub use head::{FRONT, State, newborn_file, state_of};
pub use laws::{in_order_law, one_list_law, own_law};
pub use longest::largest_payload;
pub use opening::{HEAD, RecordHead, opening_of};
pub use page::Page;
pub use reading::{is_turn, read_payload};
pub use version::Version;
pub use writing::{payload_len, put_behind_gate, turn_behind_gate};
