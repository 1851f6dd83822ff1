//! The catalogue of rows, and what multipliers on rows show of a box.
//!
//! Rows are numbered over all families: first those of the network, then those of form P, of form Q, and the further ones of
//! form PQ. [`row_at`] writes the row of a number in a box, [`in_form`] says which forms have it, and [`exact_rows`] where those of a
//! [`Group`] stand that are the same in every box.
//!
//! [`value`] checks multipliers on rows and says what they show: a bound that no plan in the box costs less than, or that the
//! box holds no plan. A proof that is not in order is refused with the first [`ProofFault`] of a fixed order. [`Scratch`] is
//! the memory that `value` works in; it is taken once for a network.
//!
//! The rows, and the number and the weight of a proof, are defined in `row_model`; `specs/Faults.antt` says when a fault holds.
//! Proofs above may cite `proofs/AgreedFaults.antt`: a proof has the same faults in boxes with the same ends. Also, of `proofs/`:
//! `NetworkRows` (which family a row of the network is of), `Placing` (the group of a row, and its number there), `NearEnds` (how large
//! the ends of a proper box are), `RowCount` (how many rows there may be), `Terms` (the terms of a row name each variable once),
//! `Rising` (row numbers that rise) and `FirstFaults` (the first fault of a proof, and when it has none).
#![tactic(auto)]

mod catalogue;
mod exact;
mod fault;
mod multiplying;
mod network_rows;
mod ordered;
mod scratch;
mod shown;
mod summing;
mod sums;
mod valuation;
mod weighing;

pub use catalogue::{Group, in_form, row_at, rows};
pub use exact::{RowRange, exact_rows};
pub use fault::ProofFault;
pub use scratch::Scratch;
pub use shown::Shown;
pub use valuation::value;
