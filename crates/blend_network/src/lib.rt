//! Networks: made from the rows of a file, and read by number.
//!
//! A [`Network`] is made by [`Network::assemble`] from [`Parts`], the rows of a file, and their arcs, where these passed the checks
//! (`network_checks` does both). It is exactly what the rows say, with names looked up and absent maxima filled in. Contracts see a network as the record of lists
//! `Network` of `pool_model`; its readers speak of `net_of` that record, where everything goes by number.
//!
//! The layer above may use, beside `assemble`, without memory:
//!
//! - [`Network::sizes`]: how many there are of each kind, and that the network is within its limits, which bounds every number
//!   that a reader gives; [`Network::counts`], that it was made from rows with no reason to refuse them, besides.
//! - the numbers of a node ([`Network::source_cost`] and its like), and the two ends of an arc or a path, which are nodes that
//!   are there ([`Network::feed`], [`Network::out`], [`Network::direct`], [`Network::path`], [`Network::path_ends`]).
//! - what an arc costs and how much it can carry, by its kind ([`Network::feed_cost`], [`Network::feed_max`] and their like) and by
//!   its number among all ([`Network::arc_cost`], [`Network::arc_max`]); how much of a quality leaves a pool
//!   ([`Network::retained`] of [`Network::scale`] parts; [`Network::pool_ratio`] in thousandths); and whether a file of
//!   version 1 can say the network ([`Network::is_plain`]).
//! - [`Network::numbers_at`]: the arcs or paths that meet a node, by a [`Key`], without a search; [`Network::limit_at`]: the limits
//!   that are set, one after another.
//! - [`Network::reach_bound`]: a bound on cost that margins alone give.
//!
//! Where the rows come from, and what text they were, is left to the crates above.
//!
//! Proofs above may cite, of `proofs/`, what holds of the rows that a network is written as: `CanonicalArcs`, `CanonicalFaults`,
//! `CanonicalSizes`.
#![tactic(auto, unfolding(pool_model::specs::Network::net_of))]

mod counts;
mod keys;
mod laws;
mod lesser;
mod limits;
mod network;

pub use counts::Counts;
pub use keys::Key;
pub use laws::canonical_law;
pub use lesser::lesser_of;
pub use limits::{Limit, LimitSide};
pub use network::Network;
pub use network_parts::{ArcRow, Kind, NetFault, Parts, PoolRow, ProductRow, SourceRow};
