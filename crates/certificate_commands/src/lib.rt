//! The commands that take a certificate: `check` and `report`.
//!
//! [`check`] opens the certificate in a file, judges it piece by piece, and writes the line on it. [`report`] does the same, and writes
//! the report of a valid one in place of its line. What each writes, and when each status comes, is said in `specs/CheckEnds.antt` and `specs/ReportEnds.antt`: a report ends as the check on the same files does. Each has a
//! type for how it ended, and the status of each such end (`From`). [`short_law`] says of which files both never end with 5.
//!
//! The layer above may use the clauses of both. Its proofs may cite `proofs/Decided.antt` (which status comes, by what the files say) and
//! `proofs/Streamed.antt` (what the check of an opened file says of the file under its name). It leaves to others what makes a certificate
//! valid, and what the lines and the report say.
#![tactic(auto)]

mod checking;
mod judging;
mod laws;
mod reporting;

pub use checking::{CheckOutcome, check};
pub use laws::short_law;
pub use reporting::{ReportOutcome, report};
