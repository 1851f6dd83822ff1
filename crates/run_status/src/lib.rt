//! How a run of the program ends, and what all commands share of it.
//!
//! A [`Status`] has a code, which the process ends with ([`Status::code`]), and a line for standard error ([`write_message`]); both are
//! defined in `specs/Messages.antt`. How much a run of each status prints is said in `specs/Took.antt`: all of a text that answers, a front
//! of one, or nothing. So a command says which texts answer under which status, and no more.
//!
//! [`network_under`] reads the network from the file of a name, or says why none is read ([`Unread`]), which is a status of its own
//! (`From`). What a file says of its network is defined in `specs/Reads.antt`.
//!
//! The layer above may use all of these. Its proofs may cite `proofs/Networks.antt`: that a file is of one network at the most, and that a file
//! which is refused is of none; `proofs/Quiet.antt`: a count of faults that is as it was, unless a call failed; and
//! `proofs/Parts.antt`: what the sink took, in the words of another answer. It leaves to others what the words ask, and when a command ends with which status.
#![tactic(auto)]

mod reading;
mod status;

pub use reading::{Unread, network_under};
pub use status::{Status, write_message};
