//! The lines that `check` and `trial` print.
//!
//! [`write_accepted`] writes the line of an accepted certificate: its cost, base, bound and gap, its bound alone, or that no plan obeys.
//! [`write_refused`] writes that of the first cause to refuse one, with the place or the number that it has. Both write the line as one
//! piece. [`write_trial`] writes how a trial of a network went: the counts of the network, the status that `solve` ends with, the numbers of
//! its certificate, and that the certificate was accepted. No memory is taken. The lines are defined in `specs/Verdicts.antt` and
//! `specs/Trial.antt`.
//!
//! The layer above may use the clauses of these calls. It leaves to others whether a certificate is accepted, and why it is not; which
//! network is tried, and whether the numbers are those of a certificate.
#![tactic(auto)]

mod trial;
mod verdict;

pub use trial::{Trial, write_trial};
pub use verdict::{write_accepted, write_refused};
