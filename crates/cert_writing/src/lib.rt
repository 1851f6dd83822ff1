//! Certificates, and the one text of each, written.
//!
//! A `Certificate` says what is known of a network: a plan with its cost, a bound and the gap between them, or a bound
//! alone, or that no plan obeys; and the splits and proofs of the tree of boxes that shows it. Its text is plain lines.
//!
//! The layer above may use:
//!
//! - `write_cert`: writes the text to a sink. Its contract says which bytes it writes, by `text_of` in `specs/Text.antt`, line by
//!   line.
//! - `cert_law`: a certificate that is held has a text; and of `ranges` the same for what other texts have of it.
//! - `Certificate`, `Claim`, `NodeProof`, which `specs/Views.antt` sees without where they lie in memory.
//! - `Text`, what has a text and how it is put piece by piece, here of splits, of parts and of proofs; and the ways to hand texts on in
//!   large writes: `write_text` (one text), `write_list` (several), `write_counted` (how many, and these), and `write_fields`,
//!   `write_line`, `write_splits` for what many texts have.
//!
//! `specs/Cert.antt` says what a certificate is, with the lengths and ranges that it needs to have a text. How the text is read, and
//! whether what it claims is true, is left to the layers above. Their proofs may cite, of `proofs/`: `Pieces` (counted lists, lines of a number
//! and more, the fields of a proof).
#![tactic(auto)]

mod certificate;
mod lines;
pub mod ranges;
mod text;
mod writing;

pub use certificate::{Certificate, Claim, NodeProof};
pub use lines::{write_counted, write_fields, write_line};
pub use ranges::cert_law;
pub use text::{Text, write_list, write_text};
pub use writing::{write_cert, write_splits};
