//! How a run ends that a journal holds up, and what all commands with a journal share of it.
//!
//! [`run_status_of`] is the status of a run with a journal that gives no answer. `specs/JournalEnds.antt` says which statuses these are, which
//! of them a file is the cause of, and when a run came to no file; what a journal is, and what a crash leaves of one, is said in
//! `recorded_run`, `node_journal` and `journal_format`.
//!
//! The layer above may use all of these. Its proofs may cite `proofs/Causes.antt` (a cause of a fault is that of its status, and the other way),
//! `proofs/Faults.antt` (which status is told of which fault) and `proofs/Attaching.antt` (what an attach and the run behind it leave
//! together).
#![tactic(auto)]

mod fault;

pub use fault::run_status_of;
