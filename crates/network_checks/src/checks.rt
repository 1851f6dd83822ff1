//! The first fault of the rows of a file, or their arcs, where there is none.

ghost use Rattle.std.specs.Prelude.{◌≡◌, ℕ, [], ◌<◌, ◌≤◌, length, IfOk, OnOk, IfErr};
ghost use Rattle.network_parts.specs.Parts.{rows_of};
ghost use Rattle.network_checks.specs.Names.{names_in};
ghost use Rattle.network_parts.specs.Faults.{row_limit, node_names, IsDuplicateName};
ghost use Rattle.network_parts.specs.FirstFault.{IsFirstFault, LacksEarlier};
ghost use Rattle.network_parts.specs.Ready.{IsCounted, IsDistinct, IsInRange, AreEndsOf, AreArcsOf, IsReady};

use crate::arcs::{arcs_from, check_forward, check_layers, check_repeats, ends_of};
use crate::names::{add_names, check_names_of};
use crate::paths::check_paths;
use crate::pools::{check_inputs, check_outputs};
use crate::ranges::{check_carriage, check_limits, check_pools, check_products, check_sources};
use indexmap::IndexSet;
use network_parts::{Arcs, Ends, Kind, NetFault, Parts};
use std::alloc::Global;

/// The most sources that a network may have.
const MAX_SOURCES: usize = 64;

/// The most pools that a network may have.
const MAX_POOLS: usize = 16;

/// The most products that a network may have.
const MAX_PRODUCTS: usize = 64;

/// The most qualities that a network may have.
const MAX_QUALITIES: usize = 8;

/// The most arcs that a network may have.
const MAX_ARCS: usize = 256;

/// The arcs by kind, or the first fault of the rows.
pub fn checked_arcs(alloc: Global, parts: &Parts) -> Result<Arcs, NetFault>
    ensures checked { IfOk result (IsReady (rows_of parts.now)) }
    // Promise: Of rows that make no network the first fault is answered, with its values
    ensures fault { IfErr result (IsFirstFault (rows_of parts.now)) }
{
    check_counts(parts)?;
    check_names(parts)?;
    let arcs = named_arcs(alloc, parts)?;
    check_numbers(parts)?;
    Ok(arcs)
}

/// Refuses the first list that is longer than it may be.
fn check_counts(parts: &Parts) -> Result<(), NetFault>
    ensures counted { OnOk result (IsCounted (rows_of parts.now)) }
    ensures clear { OnOk result (LacksEarlier (rows_of parts.now) (NetFault.BadName Kind.Source 0)) }
    ensures fault { IfErr result (IsFirstFault (rows_of parts.now)) }
{
    check_count(Kind::Source, parts.sources.len())?;
    check_count(Kind::Pool, parts.pools.len())?;
    check_count(Kind::Product, parts.products.len())?;
    check_count(Kind::Quality, parts.qualities.len())?;
    check_count(Kind::Arc, parts.arcs.len())?;
    Ok(())
}

/// Refuses more rows of the kind than there may be.
fn check_count(kind: Kind, count: usize) -> Result<(), NetFault>
    ensures few { OnOk result (count ≤ row_limit kind) }
    ensures many { IfErr result (λ fault. (fault ≡ NetFault.TooMany kind) × (row_limit kind < count)) }
{
    if count > most_rows(kind) {
        return Err(NetFault::TooMany(kind));
    }
    Ok(())
}

/// How many rows of the kind there may be.
fn most_rows(kind: Kind) -> usize
    ensures { result ≡ row_limit kind }
{
    match kind {
        Kind::Source => MAX_SOURCES,
        Kind::Pool => MAX_POOLS,
        Kind::Product => MAX_PRODUCTS,
        Kind::Quality => MAX_QUALITIES,
        Kind::Arc => MAX_ARCS,
    }
}

/// Refuses the first name that breaks the rule.
fn check_names(parts: &Parts) -> Result<(), NetFault>
    requires counted { IsCounted (rows_of parts.now) }
    requires clear { LacksEarlier (rows_of parts.now) (NetFault.BadName Kind.Source 0) }
    ensures clear { OnOk result (LacksEarlier (rows_of parts.now) (NetFault.DuplicateName Kind.Source 0)) }
    ensures fault { IfErr result (IsFirstFault (rows_of parts.now)) }
{
    check_names_of(Kind::Source, &parts.sources)?;
    check_names_of(Kind::Pool, &parts.pools)?;
    check_names_of(Kind::Product, &parts.products)?;
    check_names_of(Kind::Quality, &parts.qualities)?;
    Ok(())
}

/// A table of the names of the sources, then the pools, then the products. Refuses the first that stood before.
fn node_table<'a>(alloc: Global, parts: &'a Parts) -> Result<IndexSet<&'a str>, NetFault>
    requires counted { IsCounted (rows_of parts.now) }
    requires clear { LacksEarlier (rows_of parts.now) (NetFault.DuplicateName Kind.Source 0) }
    ensures names { IfOk result (λ names. names_in names ≡ node_names (rows_of parts.now)) }
    ensures distinct { OnOk result (IsDistinct (rows_of parts.now)) }
    ensures fault { IfErr result (IsFirstFault (rows_of parts.now)) }
{
    let mut names = IndexSet::new(alloc);
    add_names(&mut names, Kind::Source, &parts.sources)?;
    add_names(&mut names, Kind::Pool, &parts.pools)?;
    add_names(&mut names, Kind::Product, &parts.products)?;
    Ok(names)
}

/// Refuses the first quality with the name of an earlier one.
fn check_qualities(alloc: Global, parts: &Parts) -> Result<(), NetFault>
    requires counted { IsCounted (rows_of parts.now) }
    requires clear { LacksEarlier (rows_of parts.now) (NetFault.DuplicateName Kind.Source 0) }
    requires distinct { IsDistinct (rows_of parts.now) }
    ensures clear { OnOk result (LacksEarlier (rows_of parts.now) (NetFault.UnknownName 0)) }
    ensures fault { IfErr result (IsFirstFault (rows_of parts.now)) }
{
    let mut names = IndexSet::new(alloc);
    add_names(&mut names, Kind::Quality, &parts.qualities)?;
    Ok(())
}

/// The arcs by kind, and the paths. Refuses the first name that stood before, then what the arcs are refused for.
fn named_arcs(alloc: Global, parts: &Parts) -> Result<Arcs, NetFault>
    requires counted { IsCounted (rows_of parts.now) }
    requires clear { LacksEarlier (rows_of parts.now) (NetFault.DuplicateName Kind.Source 0) }
    ensures found { IfOk result (AreArcsOf (rows_of parts.now)) }
    ensures clear { OnOk result (LacksEarlier (rows_of parts.now) (NetFault.OutOfRange Kind.Source 0)) }
    ensures fault { IfErr result (IsFirstFault (rows_of parts.now)) }
{
    let names = node_table(alloc, parts)?;
    check_qualities(alloc, parts)?;
    joined_arcs(alloc, parts, &names)
}

/// The arcs by kind, and the paths, by a table of the names of the nodes. Refuses the first arc that cannot be, then
/// pools that lead nowhere, then too many paths.
fn joined_arcs(alloc: Global, parts: &Parts, names: &IndexSet<&str>) -> Result<Arcs, NetFault>
    requires counted { IsCounted (rows_of parts.now) }
    requires names { names_in names.now ≡ node_names (rows_of parts.now) }
    requires distinct { IsDistinct (rows_of parts.now) }
    requires clear { LacksEarlier (rows_of parts.now) (NetFault.UnknownName 0) }
    ensures found { IfOk result (AreArcsOf (rows_of parts.now)) }
    ensures clear { OnOk result (LacksEarlier (rows_of parts.now) (NetFault.OutOfRange Kind.Source 0)) }
    ensures fault { IfErr result (IsFirstFault (rows_of parts.now)) }
{
    let ends = known_ends(alloc, parts, names)?;
    used_arcs(alloc, parts, &ends)
}

/// The ends of the arcs. Refuses the first end that names no node, then the first arc that goes the wrong way, from pool
/// to pool, or where an earlier one goes.
fn known_ends(alloc: Global, parts: &Parts, names: &IndexSet<&str>) -> Result<Vec<Ends>, NetFault>
    requires counted { IsCounted (rows_of parts.now) }
    requires names { names_in names.now ≡ node_names (rows_of parts.now) }
    requires distinct { IsDistinct (rows_of parts.now) }
    requires clear { LacksEarlier (rows_of parts.now) (NetFault.UnknownName 0) }
    ensures ends { IfOk result (λ ends. AreEndsOf (rows_of parts.now) ends.items) }
    ensures clear { OnOk result (LacksEarlier (rows_of parts.now) (NetFault.PoolWithoutInput 0)) }
    ensures fault { IfErr result (IsFirstFault (rows_of parts.now)) }
{
    let ends = ends_of(alloc, parts, names)?;
    check_forward(&ends)?;
    check_layers(&ends)?;
    check_repeats(&ends)?;
    Ok(ends)
}

/// The arcs by kind, and the paths. Refuses the first pool that lacks a feed, then the first that lacks an out, then too
/// many paths.
fn used_arcs(alloc: Global, parts: &Parts, ends: &[Ends]) -> Result<Arcs, NetFault>
    requires counted { IsCounted (rows_of parts.now) }
    requires distinct { IsDistinct (rows_of parts.now) }
    requires found { AreEndsOf (rows_of parts.now) ends.now }
    requires clear { LacksEarlier (rows_of parts.now) (NetFault.PoolWithoutInput 0) }
    ensures found { IfOk result (AreArcsOf (rows_of parts.now)) }
    ensures clear { OnOk result (LacksEarlier (rows_of parts.now) (NetFault.OutOfRange Kind.Source 0)) }
    ensures fault { IfErr result (IsFirstFault (rows_of parts.now)) }
{
    let arcs = arcs_from(alloc, parts, ends)?;
    check_arcs(parts, &arcs)?;
    Ok(arcs)
}

/// Refuses the first pool that lacks a feed, then the first that lacks an out, then too many paths.
fn check_arcs(parts: &Parts, arcs: &Arcs) -> Result<(), NetFault>
    requires counted { IsCounted (rows_of parts.now) }
    requires found { AreArcsOf (rows_of parts.now) arcs.now }
    requires clear { LacksEarlier (rows_of parts.now) (NetFault.PoolWithoutInput 0) }
    ensures clear { OnOk result (LacksEarlier (rows_of parts.now) (NetFault.OutOfRange Kind.Source 0)) }
    ensures fault { IfErr result (IsFirstFault (rows_of parts.now)) }
{
    let pools = parts.pools.len() as u32;
    check_inputs(pools, &arcs.feeds)?;
    check_outputs(pools, &arcs.outs)?;
    check_paths(&arcs.paths)?;
    Ok(())
}

/// Refuses the first row with a number outside its range, then the first product with limits that are not in order.
fn check_numbers(parts: &Parts) -> Result<(), NetFault>
    requires counted { IsCounted (rows_of parts.now) }
    requires clear { LacksEarlier (rows_of parts.now) (NetFault.OutOfRange Kind.Source 0) }
    ensures ranges { OnOk result (IsInRange (rows_of parts.now)) }
    ensures clear { OnOk result (LacksEarlier (rows_of parts.now) NetFault.Memory) }
    ensures fault { IfErr result (IsFirstFault (rows_of parts.now)) }
{
    check_sources(&parts.sources)?;
    check_pools(&parts.pools)?;
    check_products(&parts.products)?;
    check_carriage(&parts.arcs)?;
    check_limits(&parts.products)?;
    Ok(())
}
