//! The groups of arcs and paths by each key.

ghost use Rattle.std.specs.Prelude.{◌≡◌, ℕ, ◌<◌, ◌≤◌, length, IfOk, All};
ghost use Rattle.number_groups.specs.Groups.{groups_of};
ghost use Rattle.pool_model.specs.Naming.{network_of};
ghost use Rattle.pool_model.specs.Network.{Net, net_of, IsLimited};
ghost use Rattle.network_parts.specs.Parts.{rows_of};
ghost use Rattle.network_parts.specs.Ready.{IsReady};
ghost use Rattle.blend_network.specs.Counts.{AreCounts};
ghost use Rattle.blend_network.specs.Keys.{nodes_of, IsIndexOf};
ghost use Rattle.blend_network.specs.Kept.{kept_key, kept_count, IsAlong};

use crate::counts::Counts;
use crate::keys::{KEYS, Key};
use network_parts::{Arcs, Parts};
use number_groups::Groups;
use std::alloc::{AllocError, Global};

/// The groups of the network of rows that passed the checks, from their arcs and paths: for each key in its order.
pub(super) fn index_of(alloc: Global, parts: &Parts, arcs: &Arcs) -> Result<Vec<Groups>, AllocError>
    requires checked { IsReady (rows_of parts.now) arcs.now }
    requires limited { IsLimited (net_of (network_of (rows_of parts.now))) }
    ensures { IfOk result (λ v. IsIndexOf (net_of (network_of (rows_of parts.now))) v.items) }
{
    let counts = counts_from(parts, arcs);
    let mut index = Vec::new(alloc);
    for key in KEYS {
        index.push(grouped(alloc, arcs, key, counts.nodes(key))?)?;
    }
    Ok(index)
}

/// How many there are of each kind.
fn counts_from(parts: &Parts, arcs: &Arcs) -> Counts
    requires checked { IsReady (rows_of parts.now) arcs.now }
    requires limited { IsLimited (net_of (network_of (rows_of parts.now))) }
    ensures { AreCounts (net_of (network_of (rows_of parts.now))) result }
{
    Counts {
        sources: parts.sources.len() as u32,
        pools: parts.pools.len() as u32,
        products: parts.products.len() as u32,
        qualities: parts.qualities.len() as u32,
        feeds: arcs.feeds.len() as u32,
        outs: arcs.outs.len() as u32,
        directs: arcs.directs.len() as u32,
        paths: arcs.paths.len() as u32,
    }
}

impl Counts {
    /// How many nodes there are by the key.
    fn nodes(self, key: Key) -> u32
        ensures { (n : Net) → AreCounts n self → result ≡ nodes_of n key }
    {
        match key {
            Key::FeedsFrom => self.sources,
            Key::FeedsInto => self.pools,
            Key::OutsFrom => self.pools,
            Key::OutsInto => self.products,
            Key::DirectsFrom => self.sources,
            Key::DirectsInto => self.products,
            Key::PathsFrom => self.feeds,
            Key::PathsAlong => self.outs,
            Key::PathsInto => self.products,
        }
    }
}

/// The numbers of the arcs or paths by their node.
fn grouped(alloc: Global, arcs: &Arcs, key: Key, nodes: u32) -> Result<Groups, AllocError>
    requires along { IsAlong arcs.now }
    requires known { (i : ℕ) → i < kept_count arcs.now key → kept_key arcs.now key i < nodes }
    requires few { kept_count arcs.now key ≤ 512 }
    ensures { IfOk result (λ g. g ≡ groups_of (kept_key arcs.now key) (kept_count arcs.now key) nodes) }
{
    let mut keys = Vec::new(alloc);
    for i in 0..arc_count(arcs, key) {
        keys.push(arc_node(arcs, key, i))?;
    }
    Groups::by(alloc, &keys, nodes)
}

/// How many arcs or paths there are.
fn arc_count(arcs: &Arcs, key: Key) -> usize
    ensures { result ≡ kept_count arcs.now key }
{
    match key {
        Key::FeedsFrom | Key::FeedsInto => arcs.feeds.len(),
        Key::OutsFrom | Key::OutsInto => arcs.outs.len(),
        Key::DirectsFrom | Key::DirectsInto => arcs.directs.len(),
        Key::PathsFrom | Key::PathsAlong | Key::PathsInto => arcs.paths.len(),
    }
}

/// The node of an arc or a path.
fn arc_node(arcs: &Arcs, key: Key, i: usize) -> u32
    requires along { IsAlong arcs.now }
    requires there { i < kept_count arcs.now key }
    ensures { result ≡ kept_key arcs.now key i }
{
    match key {
        Key::FeedsFrom => arcs.feeds[i].from,
        Key::FeedsInto => arcs.feeds[i].to,
        Key::OutsFrom => arcs.outs[i].from,
        Key::OutsInto => arcs.outs[i].to,
        Key::DirectsFrom => arcs.directs[i].from,
        Key::DirectsInto => arcs.directs[i].to,
        Key::PathsFrom => arcs.paths[i].feed,
        Key::PathsAlong => arcs.paths[i].out,
        Key::PathsInto => arcs.outs[arcs.paths[i].out as usize].to,
    }
}
