//! From the numbers of a file to those of a network.

ghost use Rattle.std.specs.Prelude.{◌≡◌, ◌<◌, ◌≤◌, ◌^◌, ◌*◌, List, map, length, IfOk, All, pos, unsigned_abs, unwrap_or};
ghost use Rattle.std.specs.Option.{ForSome};
ghost use Rattle.integers.specs.Sums.{int_sum_by};
ghost use Rattle.pool_model.specs.Network.{IsWithin};
ghost use Rattle.pool_model.specs.Naming.{source_of, pool_of, product_of};
ghost use Rattle.network_parts.specs.Parts.{source_row, pool_row, product_row};
ghost use Rattle.network_parts.specs.Faults.{AreLimits, IsUpTo, IsSourceInRange, IsPoolInRange, IsProductInRange};
ghost use Rattle.blend_network.specs.Views.{shown_source, shown_pool, shown_product};

use super::{Pool, Product, Source};
use network_parts::{PoolRow, ProductRow, SourceRow};
use std::alloc::{AllocError, Global};

/// The sum of the product maxima, in millionths. It stands for an absent maximum.
pub(super) fn stand_in(rows: &[ProductRow]) -> u64
    requires count { length rows.now ≤ 64 }
    requires ranges { All (λ p. IsProductInRange (product_row p)) rows.now }
    ensures sum { pos result ≡ int_sum_by (λ p. p.max) (map product_row rows.now) }
    ensures size { result ≤ 64 * 10 ^ 12 }
{
    let mut sum: u64 = 0;
    for row in rows {
        sum += row.max as u64;
    }
    sum
}

pub(super) fn sources_from(
    alloc: Global,
    rows: Vec<SourceRow>,
    stand_in: u64,
) -> Result<Vec<Source>, AllocError>
    requires { All (λ s. IsSourceInRange (source_row s)) rows.items }
    ensures { IfOk result (λ v. map shown_source v.items ≡ map (source_of (pos stand_in)) (map source_row rows.items)) }
{
    let mut sources = Vec::new(alloc);
    for row in rows {
        sources.push(source_from(alloc, row, stand_in)?)?;
    }
    Ok(sources)
}

fn source_from(alloc: Global, row: SourceRow, stand_in: u64) -> Result<Source, AllocError>
    requires { IsSourceInRange (source_row row) }
    ensures { IfOk result (λ s. shown_source s ≡ source_of (pos stand_in) (source_row row)) }
{
    let quality = narrowed(alloc, &row.quality)?;
    Ok(Source {
        name: row.name,
        cost: row.cost as i64,
        max: supply(row.max, stand_in),
        quality,
    })
}

pub(super) fn pools_from(
    alloc: Global,
    rows: Vec<PoolRow>,
    stand_in: u64,
) -> Result<Vec<Pool>, AllocError>
    requires { All (λ p. IsPoolInRange (pool_row p)) rows.items }
    ensures { IfOk result (λ v. map shown_pool v.items ≡ map (pool_of (pos stand_in)) (map pool_row rows.items)) }
{
    let mut pools = Vec::new(alloc);
    for row in rows {
        pools.push(pool_from(alloc, row, stand_in)?)?;
    }
    Ok(pools)
}

fn pool_from(alloc: Global, row: PoolRow, stand_in: u64) -> Result<Pool, AllocError>
    requires { IsPoolInRange (pool_row row) }
    ensures { IfOk result (λ p. shown_pool p ≡ pool_of (pos stand_in) (pool_row row)) }
{
    let ratio = narrowed_ratios(alloc, &row.ratio)?;
    Ok(Pool {
        name: row.name,
        max: supply(row.max, stand_in),
        ratio,
    })
}

pub(super) fn products_from(
    alloc: Global,
    rows: Vec<ProductRow>,
) -> Result<Vec<Product>, AllocError>
    requires { All (λ p. IsProductInRange (product_row p)) rows.items }
    ensures { IfOk result (λ v. map shown_product v.items ≡ map product_of (map product_row rows.items)) }
{
    let mut products = Vec::new(alloc);
    for row in rows {
        products.push(product_from(alloc, row)?)?;
    }
    Ok(products)
}

fn product_from(alloc: Global, row: ProductRow) -> Result<Product, AllocError>
    requires { IsProductInRange (product_row row) }
    ensures { IfOk result (λ p. shown_product p ≡ product_of (product_row row)) }
{
    let least = narrowed_limits(alloc, &row.least)?;
    let most = narrowed_limits(alloc, &row.most)?;
    Ok(Product {
        name: row.name,
        price: row.price as i64,
        min: row.min as u64,
        max: row.max as u64,
        least,
        most,
    })
}

/// The maximum, or what stands for it where it is absent.
fn supply(max: Option<i128>, stand_in: u64) -> u64
    requires { ForSome max (IsUpTo (10 ^ 14)) }
    ensures { result ≡ unsigned_abs (unwrap_or max (pos stand_in)) }
{
    match max {
        Some(max) => max as u64,
        None => stand_in,
    }
}

fn narrowed(alloc: Global, numbers: &[i128]) -> Result<Vec<i64>, AllocError>
    requires { All (IsWithin (10 ^ 11)) numbers.now }
    ensures { IfOk result (λ v. v.items ≡ numbers.now) }
{
    let mut narrowed = Vec::with_capacity(alloc, numbers.len())?;
    for number in numbers {
        narrowed.push(*number as i64)?;
    }
    Ok(narrowed)
}

fn narrowed_ratios(alloc: Global, ratios: &[i128]) -> Result<Vec<u64>, AllocError>
    requires { All (IsUpTo 1000) ratios.now }
    ensures { IfOk result (λ v. v.items ≡ map unsigned_abs ratios.now) }
{
    let mut narrowed = Vec::with_capacity(alloc, ratios.len())?;
    for ratio in ratios {
        narrowed.push(*ratio as u64)?;
    }
    Ok(narrowed)
}

fn narrowed_limits(alloc: Global, limits: &[Option<i128>]) -> Result<Vec<Option<i64>>, AllocError>
    requires { AreLimits limits.now }
    ensures { IfOk result (λ v. v.items ≡ limits.now) }
{
    let mut narrowed = Vec::with_capacity(alloc, limits.len())?;
    for limit in limits {
        narrowed.push(narrowed_limit(*limit))?;
    }
    Ok(narrowed)
}

fn narrowed_limit(limit: Option<i128>) -> Option<i64>
    requires { ForSome limit (IsWithin (10 ^ 11)) }
    ensures { result ≡ limit }
{
    match limit {
        Some(limit) => Some(limit as i64),
        None => None,
    }
}
