//! Networks as JSON: a file is read to its network, or refused with the first fault and its place.
//!
//! The format is walked from the top in one order, the same for every file: `specs/Format.antt` has its tables, and `json_walk`
//! the steps. What `serde_json` reads from the bytes is judged, and not the bytes themselves.
//!
//! The layer above may use `read_network`, and `quantity_of` of `quantity`. Whether the rows of a file make a network (names,
//! limits, arcs) is left to `blend_network`, and the text that is written for a network to `network_text`.
//!
//! Proofs above may cite, of `proofs/`, which value bytes are: `Bytes`.
#![tactic(auto)]

mod laws;
mod read;
mod tables;

pub use json_walk::{Place, ReadNet, Section};
pub use laws::one_network_law;
pub use quantity::quantity_of;
pub use read::{MAX_TEXT, read_network};
