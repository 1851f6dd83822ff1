//! The text of a network: one text for all files of the same network.
//!
//! `specs/Canonical.antt` has its value: the lists of a network's parts, each part as `network_values` has it, as JSON with no space.
//! `read_network` of `network_json` gives the same network of it.
//!
//! The layer above may use [`write_canonical`]. Which bytes are a file of which network is left to `network_json`.
#![tactic(auto)]

mod canonical;

pub use canonical::{MAX_CANONICAL, write_canonical};
