//! A search that is driven to its end: what is due is asked, recorded and taken, again and again, until the search says how it ended.
//!
//! [`run_search`] goes on from any tree of the network, the root alone or one that was made before, and records nothing. Its [`Outcome`] is
//! the tree that the search left, with how it ended.
//!
//! [`run_recorded`] opens the journal of a network on the file that is attached, makes the tree of its entries, and goes on from
//! there in the same way; each entry stands in the journal before the tree takes it. A crash at any moment leaves the file as it was, or
//! the network's own file, which stands for a list that begins with the entries that were found; and what is answered is the tree of all
//! that the file stands for then.
//!
//! [`recover`] is the first part of that alone, for a run that goes on in another way: it opens the journal and makes the tree. Such a run
//! puts its entries into the journal by [`put`], each before its tree takes it.
//!
//! `specs/Sessions.antt` says what stands on the disk between two steps, which files a crash leaves, and how many splits their lists have at
//! the most; `specs/Recorded.antt`, what is recovered of a file; `specs/Acknowledged.antt`, that no acknowledged entry is lost. What the
//! steps are, is said in `search_run`, and what a journal is, in `node_journal` and `journal_format`. The layer above attaches the file, and
//! prints what was found.
//!
//! Proofs above may cite `proofs/Causes.antt` (a file has one cause to be refused at most, and none where its entries are in order),
//! `proofs/Acknowledging.antt` (no acknowledged entry is lost over one run after another), `proofs/Recording.antt` (lists that grow entry
//! by entry, and what a crash leaves meanwhile) and `proofs/Turning.antt` (an entry that is put into a journal, behind a Turn or not).
#![tactic(auto)]

mod driving;
mod fault;
mod outcome;
mod putting;
mod recorder;
mod recovery;
mod replay;
mod running;
mod unrecorded;

pub use fault::RunFault;
pub use outcome::Outcome;
pub use putting::put;
pub use recovery::{Recovered, recover};
pub use running::run_recorded;
pub use unrecorded::run_search;
