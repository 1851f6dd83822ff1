//! From the rows of a file to their network, or the first reason to refuse them.
//!
//! [`checked_arcs`] judges rows: it answers the first fault in a fixed order (lists that are too long, names, the ends of arcs,
//! pools that lead nowhere, too many paths, numbers), or their arcs by kind, with the names of their ends looked up, and the
//! paths through pools. [`build_network`] makes the network of rows that pass.
//!
//! Only what makes networks stands on this crate. What reads them stands on `blend_network` alone, and so is proved beside it.
#![tactic(auto, unfolding(pool_model::specs::Network::net_of))]

mod arcs;
mod build;
mod checks;
mod names;
mod paths;
mod pools;
mod ranges;

pub use build::build_network;
pub use checks::checked_arcs;
