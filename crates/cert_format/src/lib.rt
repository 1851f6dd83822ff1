//! Certificates and their text.
//!
//! A `Certificate` says what is known of a network: a plan with its cost, a bound and the gap between them, or a bound
//! alone, or that no plan obeys; and the splits and proofs of the tree of boxes that shows it. Its text is plain lines, one
//! text for each certificate and one certificate for each text. `cert_writing` has the certificate, `text_of`, which spells its
//! text line by line, and `write_cert`, which writes it to a sink; they are passed on here. `read_cert` reads it back, and names
//! the first faulty line of what is no certificate's text. The readers of single lines and lists stand in `reading`, for a reader of the
//! text in pieces and for other texts.
//!
//! Whether what a certificate claims is true is left to the checker; `specs/Valid.antt` says when it is.
//!
//! Proofs above may cite, of `proofs/`: `LineLaws` and `CertLaws` (each line, and the whole, is read as it is spelled) and `Outcomes`
//! (what the readers come to; no certificate's text begins another's).
#![tactic(auto)]

mod laws;
pub mod reading;

pub use cert_text::{ReadFault, TextFault};
pub use cert_writing::{Certificate, Claim, NodeProof, cert_law, write_cert};
pub use laws::text_law;
pub use reading::read_cert;
