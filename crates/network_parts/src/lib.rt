//! The rows of a network file, and what is said of them.
//!
//! [`Parts`] are the rows, in file order. A [`NetFault`] is a reason to refuse them: `specs/Faults.antt` says when each holds, and
//! `specs/FirstFault.antt` which is first. [`Arcs`] are the arcs of rows by kind, with the names of their ends looked up, and the
//! paths through pools; `IsReady` of `specs/Ready.antt` is what rows without a fault are, with their arcs.
//!
//! The layer above may use these, and of the lemmas those on arcs between nodes (`proofs/Joined.antt`), on names that are looked
//! up (`proofs/Lookups.antt`) and on lists that are seen through a map (`proofs/Mapped.antt`). How rows are checked is left to
//! `network_checks`, and what network they make to `blend_network`.
#![tactic(auto, unfolding(pool_model::specs::Network::net_of))]

mod arcs;
mod fault;
mod parts;

pub use arcs::{Arc, Arcs, Ends, Node, Path};
pub use fault::{Kind, NetFault};
pub use parts::{ArcRow, Parts, PoolRow, ProductRow, SourceRow};
