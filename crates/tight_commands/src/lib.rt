//! The commands on how tight a certificate is: `tight` and `checktight`.
//!
//! [`tight`] reads a certificate, marks each leaf of its tree that may hold a plan, and writes the text of the marks. [`checktight`] reads a
//! certificate and a text of marks, and writes the line on the marks. What each writes, and when each status comes, is said in
//! `specs/TightEnds.antt` and `specs/CheckTightEnds.antt`: both end as `check` does where the certificate is not valid. Each has a type for how
//! it ended, and the status of each such end (`From`). [`accepted_law`] says that `checktight` accepts what `tight` writes.
//!
//! The layer above may use the clauses of these. Its proofs may cite `proofs/Decided.antt` (which status comes, by what the files say). It leaves
//! to others what makes a certificate valid, how a leaf is marked, when marks hold, and how their text is read and written.
#![tactic(auto)]

mod certified;
mod checking;
mod laws;
mod marking;
mod marks;
mod ranges;
mod told;

pub use certified::Uncertified;
pub use checking::{CheckTightOutcome, checktight};
pub use laws::accepted_law;
pub use marking::{TightOutcome, tight};
