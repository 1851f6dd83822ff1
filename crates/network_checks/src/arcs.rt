//! The arcs of a file, with the names of their ends looked up.

ghost use Rattle.std.specs.Prelude.{◌≡◌, ◌≢◌, ℕ, ◌<◌, ◌≤◌, map, length, IfOk, OnOk, IfErr, ◌↔◌, IsTrue, Contains, unsigned_abs};
ghost use Rattle.std.specs.List.{filter_map, zip};
ghost use Rattle.network_parts.specs.Parts.{rows_of, arc_row};
ghost use Rattle.network_parts.specs.Views.{kept_arc};
ghost use Rattle.std.specs.Option.{option_map};
ghost use Rattle.pool_model.specs.Naming.{arc_of};
ghost use Rattle.network_checks.specs.Names.{names_in};
ghost use Rattle.network_parts.specs.Faults.{node_names, IsUnknownName};
ghost use Rattle.network_parts.specs.Ready.{IsCounted, IsDistinct, AreEndsOf, IsMarked, IsRepeatedEnds, AreArcsOf};
ghost use Rattle.faults.specs.First.{IsFirstOf};
ghost use Rattle.network_parts.specs.Nodes.{node_of, both_ends, known, node_by_place, feed_between, out_between, direct_between, is_backward, is_between_pools};

use crate::names::find_name;
use crate::paths::paths_from;
use indexmap::IndexSet;
use network_parts::{Arc, ArcRow, Arcs, Ends, NetFault, Node, Parts};
use std::alloc::{AllocError, Global};

/// The ends of each arc. Refuses the first arc with an end that names no node.
pub(crate) fn ends_of(
    alloc: Global,
    parts: &Parts,
    names: &IndexSet<&str>,
) -> Result<Vec<Ends>, NetFault>
    requires counted { IsCounted (rows_of parts.now) }
    requires names { names_in names.now ≡ node_names (rows_of parts.now) }
    ensures ends { IfOk result (λ ends. AreEndsOf (rows_of parts.now) ends.items) }
    ensures first { IfErr result (λ fault. fault ≢ NetFault.Memory → IsFirstOf NetFault.UnknownName (IsUnknownName (rows_of parts.now)) fault) }
{
    let mut ends = Vec::new(alloc);
    for (n, arc) in parts.arcs.iter().enumerate() {
        let Some(pair) = find_ends(parts, names, arc.from.as_str(), arc.to.as_str()) else {
            return Err(NetFault::UnknownName(n as u32));
        };
        ends.push(pair)?;
    }
    Ok(ends)
}

/// The nodes that have these names, if both have one.
fn find_ends(parts: &Parts, names: &IndexSet<&str>, from: &str, to: &str) -> Option<Ends>
    requires names { names_in names.now ≡ node_names (rows_of parts.now) }
    requires count { length (node_names (rows_of parts.now)) ≤ 256 }
    ensures { result ≡ both_ends (node_of (rows_of parts.now) from.now) (node_of (rows_of parts.now) to.now) }
{
    let from = find_node(parts, names, from)?;
    let to = find_node(parts, names, to)?;
    Some(Ends { from, to })
}

/// The node that has this name.
fn find_node(parts: &Parts, names: &IndexSet<&str>, name: &str) -> Option<Node>
    requires names { names_in names.now ≡ node_names (rows_of parts.now) }
    requires count { length (node_names (rows_of parts.now)) ≤ 256 }
    ensures { result ≡ node_of (rows_of parts.now) name.now }
{
    let n = find_name(names, name)?;
    Some(node_at(
        n as u32,
        parts.sources.len() as u32,
        parts.pools.len() as u32,
    ))
}

/// The node at a place among the sources, then the pools, then the products.
fn node_at(n: u32, sources: u32, pools: u32) -> Node
    ensures { result ≡ node_by_place sources pools n }
{
    if n < sources {
        Node::Source(n)
    } else if n - sources < pools {
        Node::Pool(n - sources)
    } else {
        Node::Product(n - sources - pools)
    }
}

/// The arcs of the rows, whose ends are these.
pub(crate) fn arcs_from(alloc: Global, parts: &Parts, ends: &[Ends]) -> Result<Arcs, AllocError>
    requires counted { IsCounted (rows_of parts.now) }
    requires distinct { IsDistinct (rows_of parts.now) }
    requires found { AreEndsOf (rows_of parts.now) ends.now }
    ensures { IfOk result (AreArcsOf (rows_of parts.now)) }
{
    let feeds = feeds_of(alloc, &parts.arcs, ends)?;
    let outs = outs_of(alloc, &parts.arcs, ends)?;
    let directs = directs_of(alloc, &parts.arcs, ends)?;
    let paths = paths_from(alloc, parts.pools.len() as u32, &feeds, &outs)?;
    Ok(Arcs {
        feeds,
        outs,
        directs,
        paths,
    })
}

/// The feeds among the arcs, of which these are the rows and the ends.
fn feeds_of(alloc: Global, rows: &[ArcRow], ends: &[Ends]) -> Result<Vec<Arc>, AllocError>
    ensures { IfOk result (λ v. v.items ≡ filter_map (λ x. option_map kept_arc (feed_between (arc_row x.0) (known x.1))) (zip rows.now ends.now)) }
{
    rows.iter()
        .zip(ends)
        .filter_map(|(row, pair)| feed_from(row, *pair))
        .collect(alloc)
}

fn feed_from(row: &ArcRow, ends: Ends) -> Option<Arc>
    ensures { result ≡ option_map kept_arc (feed_between (arc_row row.now) (known ends)) }
{
    match (ends.from, ends.to) {
        (Node::Source(from), Node::Pool(to)) => Some(joined(row, from, to)),
        _ => None,
    }
}

/// The outs among the arcs, of which these are the rows and the ends.
fn outs_of(alloc: Global, rows: &[ArcRow], ends: &[Ends]) -> Result<Vec<Arc>, AllocError>
    ensures { IfOk result (λ v. v.items ≡ filter_map (λ x. option_map kept_arc (out_between (arc_row x.0) (known x.1))) (zip rows.now ends.now)) }
{
    rows.iter()
        .zip(ends)
        .filter_map(|(row, pair)| out_from(row, *pair))
        .collect(alloc)
}

fn out_from(row: &ArcRow, ends: Ends) -> Option<Arc>
    ensures { result ≡ option_map kept_arc (out_between (arc_row row.now) (known ends)) }
{
    match (ends.from, ends.to) {
        (Node::Pool(from), Node::Product(to)) => Some(joined(row, from, to)),
        _ => None,
    }
}

/// The directs among the arcs, of which these are the rows and the ends.
fn directs_of(alloc: Global, rows: &[ArcRow], ends: &[Ends]) -> Result<Vec<Arc>, AllocError>
    ensures { IfOk result (λ v. v.items ≡ filter_map (λ x. option_map kept_arc (direct_between (arc_row x.0) (known x.1))) (zip rows.now ends.now)) }
{
    rows.iter()
        .zip(ends)
        .filter_map(|(row, pair)| direct_from(row, *pair))
        .collect(alloc)
}

fn direct_from(row: &ArcRow, ends: Ends) -> Option<Arc>
    ensures { result ≡ option_map kept_arc (direct_between (arc_row row.now) (known ends)) }
{
    match (ends.from, ends.to) {
        (Node::Source(from), Node::Product(to)) => Some(joined(row, from, to)),
        _ => None,
    }
}

/// The row's arc, by the numbers of its ends.
fn joined(row: &ArcRow, from: u32, to: u32) -> Arc
    ensures { result ≡ kept_arc (arc_of (arc_row row.now) from to) }
{
    Arc {
        from,
        to,
        cost: row.cost,
        max: magnitude(row.max),
    }
}

/// The maximum without its sign, which is known only once ranges are checked.
fn magnitude(max: Option<i128>) -> Option<u128>
    ensures { result ≡ option_map unsigned_abs max }
{
    match max {
        Some(max) => Some(max.unsigned_abs()),
        None => None,
    }
}

/// Refuses the first arc that starts at a product or ends at a source.
pub(crate) fn check_forward(ends: &[Ends]) -> Result<(), NetFault>
    requires { length ends.now ≤ 256 }
    ensures none { OnOk result ((n : ℕ) → ¬ IsMarked is_backward ends.now n) }
    ensures first { IfErr result (IsFirstOf NetFault.ArcBackwards (IsMarked is_backward ends.now)) }
{
    for n in 0..ends.len() {
        if ends[n].is_backward() {
            return Err(NetFault::ArcBackwards(n as u32));
        }
    }
    Ok(())
}

/// Refuses the first arc from a pool to a pool.
pub(crate) fn check_layers(ends: &[Ends]) -> Result<(), NetFault>
    requires { length ends.now ≤ 256 }
    ensures none { OnOk result ((n : ℕ) → ¬ IsMarked is_between_pools ends.now n) }
    ensures first { IfErr result (IsFirstOf NetFault.PoolToPool (IsMarked is_between_pools ends.now)) }
{
    for n in 0..ends.len() {
        if ends[n].is_between_pools() {
            return Err(NetFault::PoolToPool(n as u32));
        }
    }
    Ok(())
}

/// Refuses the first arc with the same two ends as an earlier one.
pub(crate) fn check_repeats(ends: &[Ends]) -> Result<(), NetFault>
    requires { length ends.now ≤ 256 }
    ensures none { OnOk result ((n : ℕ) → ¬ IsRepeatedEnds ends.now n) }
    ensures first { IfErr result (IsFirstOf NetFault.DuplicateArc (IsRepeatedEnds ends.now)) }
{
    for n in 0..ends.len() {
        if is_among(&ends[..n], ends[n]) {
            return Err(NetFault::DuplicateArc(n as u32));
        }
    }
    Ok(())
}

fn is_among(ends: &[Ends], pair: Ends) -> bool
    ensures { IsTrue result ↔ Contains ends.now pair }
{
    ends.contains(&pair)
}
