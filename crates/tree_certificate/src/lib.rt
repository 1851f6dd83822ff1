//! The certificate of what a search found: its tree of boxes, its cheapest plan, and what the two show together.
//!
//! [`certificate_of`] takes a tree apart and makes its certificate, without a copy of a proof. The claim is the plan with its
//! cost, the tree's bound and the exact gap between them; the bound alone, where there is no plan; or that there is no plan,
//! where no leaf may hold one. `specs/Certificates.antt` defines the certificate of a search, and [`found_law`] says that it
//! is valid, so that the checker accepts it.
//!
//! How a search goes, and when it may stop, is left to the crates above.
#![tactic(auto)]

mod certificate;
mod laws;

pub use certificate::certificate_of;
pub use laws::found_law;
