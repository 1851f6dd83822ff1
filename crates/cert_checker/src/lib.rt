//! The checker of certificates.
//!
//! [`check`] goes over the text of a certificate of a network and answers what it claims, exactly where some certificate has this
//! text and is valid: its plan obeys and costs what is claimed, its tree of boxes holds every plan, each proof on a box is in order
//! there, and the bound is what they show together. Else it answers the first [`Refusal`] of a fixed order. [`check_stream`]
//! answers the same of a certificate in an opened file, which it reads once and in pieces as they come. It keeps the plan, the
//! splits, a bound for each node and the parts of one proof, however long the file is, and a refusal that it finds early waits for
//! the end of the file. What a valid certificate claims follows for every plan of the network.
//!
//! It rests on the text, on the rules of plans and on the rows of the relaxations, and on nothing of the search that made
//! the certificate. The proofs on the tree are judged by `proof_lines` below it; `specs/Refusals.antt` there says when each refusal
//! comes. Here `specs/Answers.antt` says what an answer says of a text, and `specs/Streams.antt` what one says of a file.
//!
//! Proofs above may cite, of `proofs/`: `Followed` (what a valid certificate claims follows), `Order` (the first cause to refuse a
//! certificate, and that a valid one has none), `Streaming` (the answer of a stream, from what was walked), `Taking` (splits that are
//! taken one after another) and `Within` (the first splits of a list are in order as they are in the whole list).
#![tactic(auto)]

mod checking;
mod claim;
mod laws;
mod opening;
mod stream;
mod walk;

pub use checking::check;
pub use laws::valid_law;
pub use proof_lines::{Refusal, StreamRefusal};
pub use stream::check_stream;
