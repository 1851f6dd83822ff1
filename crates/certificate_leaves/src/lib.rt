//! The leaves of a certificate's tree that may hold a plan, each with its bound and its box.
//!
//! [`leaves_of`] takes the splits and the proofs of a certificate that was accepted, and answers the leaves that may hold a plan, by the
//! numbers of their nodes ([`CertificateLeaves`]). It goes once over the splits and once over the nodes, and values each proof once, in its
//! node's box. [`CertificateLeaves::write_box`] writes the box of a leaf into ends that are lent, and takes no memory.
//!
//! `specs/Leaves.antt` says which leaves these are. [`leaves_law`] says what they show together: the least of their bounds is the tree's,
//! and each plan that obeys lies in the box of one of them and costs at least its bound.
//!
//! Whether the certificate is valid is left to `cert_checker`, and what is said of a leaf to the crates above.
//!
//! Proofs above may cite `proofs/Held.antt` and `proofs/Least.antt`, which have the law's parts.
#![tactic(auto)]

mod boxes;
mod cutting;
mod laws;
mod leaves;
mod listing;
mod valuing;

pub use laws::leaves_law;
pub use leaves::{CertificateLeaves, leaves_of};
