//! Which numbers a row may have.

ghost use Rattle.std.specs.Prelude.{◌≡◌, ◌↔◌, ℕ, ◌<◌, ◌≤◌, ◌^◌, map, length, get_or, IsTrue, OnOk, IfErr, All};
ghost use Rattle.std.specs.Option.{ForSome};
ghost use Rattle.pool_model.specs.Network.{IsWithin};
ghost use Rattle.network_parts.specs.Parts.{source_row, pool_row, product_row, arc_row};
ghost use Rattle.faults.specs.First.{IsFirstOf};
ghost use Rattle.network_parts.specs.Faults.{IsUpTo, IsSourceInRange, IsPoolInRange, IsProductInRange, IsArcInRange, IsOrderly, IsSourceOutAt, IsPoolOutAt, IsProductOutAt, IsArcOutAt};
ghost use Rattle.network_parts.specs.Faults.{IsDisorderlyAt, AreOrderly, AreLimits, IsInOrder, no_source_row, no_pool_row, no_product_row, no_arc_row};

use network_parts::{ArcRow, Kind, NetFault, PoolRow, ProductRow, SourceRow};

/// The most that a cost of a source or an arc, a price, a product's minimum or its maximum is, in millionths.
const MAX_MONEY: u64 = 1_000_000_000_000;

/// The most that can flow out of a source, through a pool or along an arc, in millionths.
const MAX_SUPPLY: u64 = 100_000_000_000_000;

/// The most that a quality or a limit on it is, in millionths.
const MAX_QUALITY: u64 = 100_000_000_000;

/// The most thousandths of a quality that leave a pool.
const MAX_RATIO: u64 = 1000;

/// Refuses the first source with a number outside its range.
pub(crate) fn check_sources(rows: &[SourceRow]) -> Result<(), NetFault>
    requires { length rows.now ≤ 256 }
    ensures good { OnOk result ((n : ℕ) → n < length rows.now → IsSourceInRange (get_or (map source_row rows.now) n no_source_row)) }
    ensures first { IfErr result (IsFirstOf (NetFault.OutOfRange Kind.Source) (IsSourceOutAt (map source_row rows.now))) }
{
    for (n, row) in rows.iter().enumerate() {
        if !is_source_in_range(row) {
            return Err(NetFault::OutOfRange(Kind::Source, n as u32));
        }
    }
    Ok(())
}

/// Refuses the first pool with a number outside its range.
pub(crate) fn check_pools(rows: &[PoolRow]) -> Result<(), NetFault>
    requires { length rows.now ≤ 256 }
    ensures good { OnOk result ((n : ℕ) → n < length rows.now → IsPoolInRange (get_or (map pool_row rows.now) n no_pool_row)) }
    ensures first { IfErr result (IsFirstOf (NetFault.OutOfRange Kind.Pool) (IsPoolOutAt (map pool_row rows.now))) }
{
    for (n, row) in rows.iter().enumerate() {
        if !is_pool_in_range(row) {
            return Err(NetFault::OutOfRange(Kind::Pool, n as u32));
        }
    }
    Ok(())
}

/// Refuses the first product with a number outside its range.
pub(crate) fn check_products(rows: &[ProductRow]) -> Result<(), NetFault>
    requires { length rows.now ≤ 256 }
    ensures good { OnOk result ((n : ℕ) → n < length rows.now → IsProductInRange (get_or (map product_row rows.now) n no_product_row)) }
    ensures first { IfErr result (IsFirstOf (NetFault.OutOfRange Kind.Product) (IsProductOutAt (map product_row rows.now))) }
{
    for (n, row) in rows.iter().enumerate() {
        if !is_product_in_range(row) {
            return Err(NetFault::OutOfRange(Kind::Product, n as u32));
        }
    }
    Ok(())
}

/// Refuses the first arc with a cost or a maximum outside its range.
pub(crate) fn check_carriage(rows: &[ArcRow]) -> Result<(), NetFault>
    requires { length rows.now ≤ 256 }
    ensures good { OnOk result ((n : ℕ) → n < length rows.now → IsArcInRange (get_or (map arc_row rows.now) n no_arc_row)) }
    ensures first { IfErr result (IsFirstOf (NetFault.OutOfRange Kind.Arc) (IsArcOutAt (map arc_row rows.now))) }
{
    for (n, row) in rows.iter().enumerate() {
        if !is_arc_in_range(row) {
            return Err(NetFault::OutOfRange(Kind::Arc, n as u32));
        }
    }
    Ok(())
}

/// Refuses the first product whose minimum is above its maximum, or with a least limit above the most limit of the same
/// quality.
pub(crate) fn check_limits(rows: &[ProductRow]) -> Result<(), NetFault>
    requires { length rows.now ≤ 256 }
    ensures good { OnOk result ((n : ℕ) → n < length rows.now → IsOrderly (get_or (map product_row rows.now) n no_product_row)) }
    ensures first { IfErr result (IsFirstOf NetFault.LeastAboveMost (IsDisorderlyAt (map product_row rows.now))) }
{
    for (n, row) in rows.iter().enumerate() {
        if !is_orderly(row) {
            return Err(NetFault::LeastAboveMost(n as u32));
        }
    }
    Ok(())
}

fn is_source_in_range(row: &SourceRow) -> bool
    ensures { IsTrue result ↔ IsSourceInRange (source_row row.now) }
{
    is_within(row.cost, MAX_MONEY) && is_supply(row.max) && are_qualities(&row.quality)
}

fn is_pool_in_range(row: &PoolRow) -> bool
    ensures { IsTrue result ↔ IsPoolInRange (pool_row row.now) }
{
    is_supply(row.max) && are_ratios(&row.ratio)
}

fn is_arc_in_range(row: &ArcRow) -> bool
    ensures { IsTrue result ↔ IsArcInRange (arc_row row.now) }
{
    is_within(row.cost, MAX_MONEY) && is_supply(row.max)
}

fn is_product_in_range(row: &ProductRow) -> bool
    ensures { IsTrue result ↔ IsProductInRange (product_row row.now) }
{
    are_amounts(row.price, row.min, row.max) && are_both_limits(&row.least, &row.most)
}

/// Whether these may be the least and most limits of a product.
fn are_both_limits(least: &[Option<i128>], most: &[Option<i128>]) -> bool
    ensures { IsTrue result ↔ (AreLimits least.now × AreLimits most.now) }
{
    are_limits(least) && are_limits(most)
}

/// Whether these may be the price, the minimum and the maximum of a product.
fn are_amounts(price: i128, min: i128, max: i128) -> bool
    ensures { IsTrue result ↔ (IsWithin (10 ^ 12) price × IsUpTo (10 ^ 12) min × IsUpTo (10 ^ 12) max) }
{
    is_within(price, MAX_MONEY) && is_up_to(min, MAX_MONEY) && is_up_to(max, MAX_MONEY)
}

fn is_orderly(row: &ProductRow) -> bool
    ensures { IsTrue result ↔ IsOrderly (product_row row.now) }
{
    row.min <= row.max && are_orderly(&row.least, &row.most)
}

/// Whether each least limit is at most the most limit of the same quality.
fn are_orderly(least: &[Option<i128>], most: &[Option<i128>]) -> bool
    ensures { IsTrue result ↔ AreOrderly least.now most.now }
{
    for k in 0..least.len().min(most.len()) {
        if !is_in_order(least[k], most[k]) {
            return false;
        }
    }
    true
}

/// Whether the least limit is at most the most limit, where both are there.
fn is_in_order(least: Option<i128>, most: Option<i128>) -> bool
    ensures { IsTrue result ↔ IsInOrder least most }
{
    match (least, most) {
        (Some(low), Some(high)) => low <= high,
        _ => true,
    }
}

/// Whether this may be a maximum of a source, a pool or an arc, where there is one.
fn is_supply(max: Option<i128>) -> bool
    ensures { IsTrue result ↔ ForSome max (IsUpTo (10 ^ 14)) }
{
    match max {
        Some(max) => is_up_to(max, MAX_SUPPLY),
        None => true,
    }
}

fn are_ratios(numbers: &[i128]) -> bool
    ensures { IsTrue result ↔ All (IsUpTo 1000) numbers.now }
{
    numbers.iter().all(|number| is_up_to(*number, MAX_RATIO))
}

fn are_qualities(numbers: &[i128]) -> bool
    ensures { IsTrue result ↔ All (IsWithin (10 ^ 11)) numbers.now }
{
    numbers.iter().all(|number| is_within(*number, MAX_QUALITY))
}

fn are_limits(limits: &[Option<i128>]) -> bool
    ensures { IsTrue result ↔ AreLimits limits.now }
{
    limits.iter().all(|limit| is_limit(*limit))
}

fn is_limit(limit: Option<i128>) -> bool
    ensures { IsTrue result ↔ ForSome limit (IsWithin (10 ^ 11)) }
{
    match limit {
        Some(limit) => is_within(limit, MAX_QUALITY),
        None => true,
    }
}

/// Whether the number is from `-size` to `size`.
fn is_within(number: i128, size: u64) -> bool
    ensures { IsTrue result ↔ IsWithin size number }
{
    -i128::from(size) <= number && number <= i128::from(size)
}

/// Whether the number is from 0 to `size`.
fn is_up_to(number: i128, size: u64) -> bool
    ensures { IsTrue result ↔ IsUpTo size number }
{
    0 <= number && number <= i128::from(size)
}
