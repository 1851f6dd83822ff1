//! The rows of a made network.

ghost use Rattle.std.specs.Prelude.{◌≡◌, ◌<◌, ◌++◌, map, string_bytes, IfOk, OnOk, pos};
ghost use Rattle.network_parts.specs.Parts.{source_row, pool_row, product_row, arc_row, rows_of};
ghost use Rattle.blend_network.specs.Canonical.{canonical_source, canonical_pool, canonical_product, canonical_rows};
ghost use Rattle.drawn_numbers.specs.Draws.{state_after};
ghost use Rattle.network_maker.specs.Generated.{generated, feeds_pool, drawn_source, drawn_pool, drawn_product, named_quality, named_source, named_pool, named_product, in_units, in_tenths};
ghost use Rattle.network_maker.specs.Rows.{source_rows, pool_rows, product_rows, feed_rows, out_rows, free_arc, arc_rows};
ghost use Rattle.integers.specs.Numbers.{tabulate};

use blend_network::{ArcRow, Parts, PoolRow, ProductRow, SourceRow};
use drawn_numbers::Draws;
use std::alloc::{AllocError, Global};

const QUALITIES: u32 = 2;

const SOURCES: u32 = 10;

const POOLS: u32 = 3;

const PRODUCTS: u32 = 6;

/// The rows of the network that a number makes: all numbers are drawn source by source, pool by pool, product by product.
pub(crate) fn rows(alloc: Global, seed: u64) -> Result<Parts, AllocError>
    ensures { IfOk result (λ parts. rows_of parts ≡ canonical_rows (generated seed)) }
{
    let mut draws = Draws { state: seed };
    let sources = sources(alloc, &mut draws)?;
    let pools = pools(alloc, &mut draws)?;
    let products = products(alloc, &mut draws)?;
    Ok(Parts {
        qualities: qualities(alloc)?,
        sources,
        pools,
        products,
        arcs: arcs(alloc)?,
    })
}

fn qualities(alloc: Global) -> Result<Vec<String>, AllocError>
    ensures { IfOk result (λ v. map string_bytes v.items ≡ tabulate named_quality 2) }
{
    let mut names = Vec::new(alloc);
    for k in 0..QUALITIES {
        names.push(quality_name(alloc, k)?)?;
    }
    Ok(names)
}

fn sources(alloc: Global, draws: &mut Draws) -> Result<Vec<SourceRow>, AllocError>
    ensures rows { IfOk result (λ v. map source_row v.items ≡ source_rows draws.old.state 10) }
    ensures state { OnOk result (draws.new.state ≡ state_after draws.old.state 40) }
{
    let mut rows = Vec::new(alloc);
    for i in 0..SOURCES {
        rows.push(source(alloc, draws, i)?)?;
    }
    Ok(rows)
}

/// A source: its cost, its qualities and its maximum are drawn, in this order.
#[tactic(auto, unfolding(drawn_numbers::specs::Draws::state_after))]
fn source(alloc: Global, draws: &mut Draws, i: u32) -> Result<SourceRow, AllocError>
    requires { i < 10 }
    ensures row { IfOk result (λ r. source_row r ≡ canonical_source (drawn_source draws.old.state i)) }
    ensures state { OnOk result (draws.new.state ≡ state_after draws.old.state 4) }
{
    let cost = units(5 + draws.below(20));
    let first = tenths(10 + draws.below(41));
    let second = tenths(10 + draws.below(41));
    let max = units(50 + draws.below(151));
    Ok(SourceRow {
        name: source_name(alloc, i)?,
        cost,
        max: Some(max),
        quality: vec![in alloc; first, second]?,
    })
}

fn pools(alloc: Global, draws: &mut Draws) -> Result<Vec<PoolRow>, AllocError>
    ensures rows { IfOk result (λ v. map pool_row v.items ≡ pool_rows draws.old.state 3) }
    ensures state { OnOk result (draws.new.state ≡ state_after draws.old.state 3) }
{
    let mut rows = Vec::new(alloc);
    for l in 0..POOLS {
        rows.push(pool(alloc, draws, l)?)?;
    }
    Ok(rows)
}

/// A pool: its maximum is drawn. It removes nothing.
#[tactic(auto, unfolding(drawn_numbers::specs::Draws::state_after))]
fn pool(alloc: Global, draws: &mut Draws, l: u32) -> Result<PoolRow, AllocError>
    requires { l < 10 }
    ensures row { IfOk result (λ r. pool_row r ≡ canonical_pool (drawn_pool draws.old.state l)) }
    ensures state { OnOk result (draws.new.state ≡ state_after draws.old.state 1) }
{
    let max = units(100 + draws.below(201));
    Ok(PoolRow {
        name: pool_name(alloc, l)?,
        max: Some(max),
        ratio: vec![in alloc; 1000, 1000]?,
    })
}

fn products(alloc: Global, draws: &mut Draws) -> Result<Vec<ProductRow>, AllocError>
    ensures rows { IfOk result (λ v. map product_row v.items ≡ product_rows draws.old.state 6) }
{
    let mut rows = Vec::new(alloc);
    for j in 0..PRODUCTS {
        rows.push(product(alloc, draws, j)?)?;
    }
    Ok(rows)
}

/// A product: its price, its maximum and the most of each quality are drawn, in this order.
#[tactic(auto, unfolding(drawn_numbers::specs::Draws::state_after))]
fn product(alloc: Global, draws: &mut Draws, j: u32) -> Result<ProductRow, AllocError>
    requires { j < 10 }
    ensures row { IfOk result (λ r. product_row r ≡ canonical_product (drawn_product draws.old.state j)) }
    ensures state { OnOk result (draws.new.state ≡ state_after draws.old.state 4) }
{
    let price = units(15 + draws.below(20));
    let max = units(50 + draws.below(101));
    let first = tenths(15 + draws.below(21));
    let second = tenths(15 + draws.below(21));
    Ok(ProductRow {
        name: product_name(alloc, j)?,
        price,
        min: 0,
        max,
        least: vec![in alloc; None, None]?,
        most: vec![in alloc; Some(first), Some(second)]?,
    })
}

/// The arcs: feeds, then outs, then directs.
fn arcs(alloc: Global) -> Result<Vec<ArcRow>, AllocError>
    ensures { IfOk result (λ v. map arc_row v.items ≡ arc_rows) }
{
    let mut arcs = Vec::new(alloc);
    'feeds: for i in 0..SOURCES {
        add_feeds(alloc, &mut arcs, i)?;
    }
    'outs: for l in 0..POOLS {
        add_outs(alloc, &mut arcs, l)?;
    }
    'directs: for i in 0..PRODUCTS {
        arcs.push(free_arc(source_name(alloc, i)?, product_name(alloc, i)?))?;
    }
    Ok(arcs)
}

/// Adds the arcs from a source to the pools that it feeds.
fn add_feeds(alloc: Global, arcs: &mut Vec<ArcRow>, i: u32) -> Result<(), AllocError>
    requires { i < 10 }
    ensures { OnOk result (map arc_row arcs.new.items ≡ map arc_row arcs.old.items ++ feed_rows i) }
{
    for l in 0..POOLS {
        if feeds(i, l) {
            arcs.push(free_arc(source_name(alloc, i)?, pool_name(alloc, l)?))?;
        }
    }
    Ok(())
}

/// Whether a source feeds a pool: that of its number, counted round, or the one behind it.
fn feeds(i: u32, l: u32) -> bool
    requires { i < 10 }
    ensures { result ≡ feeds_pool i l }
{
    i % POOLS == l || (i + 1) % POOLS == l
}

/// Adds the arcs from a pool to every product.
fn add_outs(alloc: Global, arcs: &mut Vec<ArcRow>, l: u32) -> Result<(), AllocError>
    requires { l < 10 }
    ensures { OnOk result (map arc_row arcs.new.items ≡ map arc_row arcs.old.items ++ out_rows l) }
{
    for j in 0..PRODUCTS {
        arcs.push(free_arc(pool_name(alloc, l)?, product_name(alloc, j)?))?;
    }
    Ok(())
}

/// An arc that costs nothing and has no maximum.
fn free_arc(from: String, to: String) -> ArcRow
    ensures { arc_row result ≡ free_arc (string_bytes from) (string_bytes to) }
{
    ArcRow {
        from,
        to,
        cost: 0,
        max: None,
    }
}

#[tactic(auto, using(std::proofs::lemmas::Fmt::decimal_digit))]
fn quality_name(alloc: Global, k: u32) -> Result<String, AllocError>
    requires { k < 10 }
    ensures { IfOk result (λ s. string_bytes s ≡ named_quality k) }
{
    format!(in alloc; "K{k}")
}

#[tactic(auto, using(std::proofs::lemmas::Fmt::decimal_digit))]
fn source_name(alloc: Global, i: u32) -> Result<String, AllocError>
    requires { i < 10 }
    ensures { IfOk result (λ s. string_bytes s ≡ named_source i) }
{
    format!(in alloc; "S{i}")
}

#[tactic(auto, using(std::proofs::lemmas::Fmt::decimal_digit))]
fn pool_name(alloc: Global, l: u32) -> Result<String, AllocError>
    requires { l < 10 }
    ensures { IfOk result (λ s. string_bytes s ≡ named_pool l) }
{
    format!(in alloc; "P{l}")
}

#[tactic(auto, using(std::proofs::lemmas::Fmt::decimal_digit))]
fn product_name(alloc: Global, j: u32) -> Result<String, AllocError>
    requires { j < 10 }
    ensures { IfOk result (λ s. string_bytes s ≡ named_product j) }
{
    format!(in alloc; "X{j}")
}

/// Whole units in millionths.
fn units(n: u64) -> i128
    ensures { result ≡ pos (in_units n) }
{
    i128::from(n) * 1_000_000
}

/// Tenths of a unit in millionths.
fn tenths(n: u64) -> i128
    ensures { result ≡ pos (in_tenths n) }
{
    i128::from(n) * 100_000
}
