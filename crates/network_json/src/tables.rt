//! The tables of the file: one function for each kind of object and for each list.

ghost use Rattle.std.specs.Prelude.{◌≡◌, map, string_bytes, codes, None, IfOk, pos, [], ◌∷◌};
ghost use Rattle.serde_json.specs.Find.{get};
ghost use Rattle.serde_json.specs.View.{view};
ghost use Rattle.network_parts.specs.Parts.{source_row, pool_row, product_row, arc_row, rows_of};
ghost use Rattle.json_walk.specs.Walk.{top, Gives, each, rows, needs, allows, ignored, list, object, texts, text as text_at, quantity as quantity_at, ratio as ratio_at};
ghost use Rattle.network_json.specs.Format.{quality as quality_at, limit as limit_at, limits as limits_at, no_limits, source as source_at};
ghost use Rattle.network_json.specs.Format.{ratios as ratios_at, untreated as untreated_at, pool_options, pool as pool_at, product as product_at};
ghost use Rattle.network_json.specs.Format.{plain_arc as plain_arc_at, priced_arc as priced_arc_at, arc as arc_at, lists as lists_in, network as network_in};
ghost use Rattle.json_walk.specs.declared.fault.Section.TheVariants.{Qualities, Sources, Pools, Products, Arcs};

use json_walk::{
    Place, ReadNet, Section, Version, items, needed, needed_quantity, needed_text, open, quantity,
    ratio, text, version_of,
};
use network_parts::{ArcRow, Parts, PoolRow, ProductRow, SourceRow};
use serde_json::Value;
use std::alloc::{AllocError, Global};

/// The whole file.
#[tactic(auto, unfolding(crate::specs::Format::network))]
pub fn network(alloc: Global, value: &Value) -> Result<Parts, ReadNet>
    ensures { Gives rows_of result (network_in (view value.now)) }
{
    let top = Place::top();
    open(
        value,
        &["version", "sources", "products", "arcs"],
        &["title", "qualities", "pools"],
        top,
    )?;
    let version = version_of(needed(value, "version", top)?, top)?;
    title(value, top)?;
    let names = qualities(alloc, value)?;
    lists(alloc, value, version, &names)
}

/// The lists of rows, where these are the names of the qualities.
#[tactic(auto, unfolding(crate::specs::Format::lists))]
fn lists(alloc: Global, value: &Value, version: Version, names: &[&str]) -> Result<Parts, ReadNet>
    ensures { Gives rows_of result (lists_in version (texts names.now) (view value.now)) }
{
    let sources = sources(alloc, value, names)?;
    let pools = pools(alloc, value, version, names)?;
    let products = products(alloc, value, names)?;
    let arcs = arcs(alloc, value, version)?;
    let qualities = owned(alloc, names)?;
    Ok(Parts {
        qualities,
        sources,
        pools,
        products,
        arcs,
    })
}

/// The title, which may be absent and is not kept.
fn title(value: &Value, at: Place) -> Result<(), ReadNet>
    ensures { Gives (λ u. u) result (ignored (allows (codes "title") [] (text_at at) (view value.now))) }
{
    match value.get("title") {
        None => Ok(()),
        Some(member) => {
            text(member, at)?;
            Ok(())
        }
    }
}

/// The names of the qualities, which may be absent.
fn qualities<'v>(alloc: Global, value: &'v Value) -> Result<Vec<&'v str>, ReadNet>
    ensures { Gives (λ v. texts v.items) result (allows (codes "qualities") [] (list Qualities text_at) (view value.now)) }
{
    match value.get("qualities") {
        None => Ok(Vec::new(alloc)),
        Some(member) => names(alloc, items(member, Place::top())?),
    }
}

#[tactic(auto, unfolding(json_walk::specs::Walk::rows))]
fn names<'v>(alloc: Global, values: &'v [Value]) -> Result<Vec<&'v str>, ReadNet>
    ensures { Gives (λ v. texts v.items) result (rows Qualities text_at (map view values.now)) }
{
    let mut names = Vec::new(alloc);
    for (i, value) in values.iter().enumerate() {
        let name = text(value, Place::new(Section::Qualities, i))?;
        names.push(name)?;
    }
    Ok(names)
}

fn owned(alloc: Global, names: &[&str]) -> Result<Vec<String>, AllocError>
    ensures { IfOk result (λ v. map string_bytes v.items ≡ texts names.now) }
{
    let mut owned = Vec::new(alloc);
    for name in names {
        owned.push(String::from_str(alloc, *name)?)?;
    }
    Ok(owned)
}

/// The sources, which are needed.
fn sources(alloc: Global, value: &Value, names: &[&str]) -> Result<Vec<SourceRow>, ReadNet>
    ensures { Gives (λ v. map source_row v.items) result (needs top (codes "sources") (list Sources (source_at (texts names.now))) (view value.now)) }
{
    let top = Place::top();
    source_rows(alloc, items(needed(value, "sources", top)?, top)?, names)
}

#[tactic(auto, unfolding(json_walk::specs::Walk::rows))]
fn source_rows(alloc: Global, values: &[Value], names: &[&str]) -> Result<Vec<SourceRow>, ReadNet>
    ensures { Gives (λ v. map source_row v.items) result (rows Sources (source_at (texts names.now)) (map view values.now)) }
{
    let mut sources = Vec::new(alloc);
    for (i, value) in values.iter().enumerate() {
        let row = source(alloc, value, names, Place::new(Section::Sources, i))?;
        sources.push(row)?;
    }
    Ok(sources)
}

#[tactic(auto, unfolding(crate::specs::Format::source))]
fn source(alloc: Global, value: &Value, names: &[&str], at: Place) -> Result<SourceRow, ReadNet>
    ensures { Gives source_row result (source_at (texts names.now) at (view value.now)) }
{
    open(value, &["name", "cost", "quality"], &["max"], at)?;
    let name = name(alloc, value, at)?;
    let cost = needed_quantity(value, "cost", at)?;
    let max = limit(value, "max", at)?;
    let quality = quality(alloc, needed(value, "quality", at)?, names, at)?;
    Ok(SourceRow {
        name,
        cost,
        max,
        quality,
    })
}

/// The name of a row.
fn name(alloc: Global, value: &Value, at: Place) -> Result<String, ReadNet>
    ensures { Gives string_bytes result (needs at (codes "name") (text_at at) (view value.now)) }
{
    let name = needed_text(value, "name", at)?;
    Ok(String::from_str(alloc, name)?)
}

/// One quantity for every name, and no other member.
#[tactic(auto, unfolding(crate::specs::Format::quality))]
fn quality(alloc: Global, value: &Value, names: &[&str], at: Place) -> Result<Vec<i128>, ReadNet>
    ensures { Gives (λ v. v.items) result (quality_at (texts names.now) at (view value.now)) }
{
    open(value, names, &[], at)?;
    quantities(alloc, value, names, at)
}

/// The quantity of each name, from a value that has them all.
fn quantities(alloc: Global, value: &Value, names: &[&str], at: Place) -> Result<Vec<i128>, ReadNet>
    ensures { Gives (λ v. v.items) result (each (λ n k. needs at k (quantity_at at) (view value.now)) 0 (texts names.now)) }
{
    let mut row = Vec::new(alloc);
    for name in names {
        let number = needed_quantity(value, *name, at)?;
        row.push(number)?;
    }
    Ok(row)
}

/// The pools, which may be absent.
fn pools(
    alloc: Global,
    value: &Value,
    version: Version,
    names: &[&str],
) -> Result<Vec<PoolRow>, ReadNet>
    ensures { Gives (λ v. map pool_row v.items) result (allows (codes "pools") [] (list Pools (pool_at version (texts names.now))) (view value.now)) }
{
    match value.get("pools") {
        None => Ok(Vec::new(alloc)),
        Some(member) => pool_rows(alloc, items(member, Place::top())?, version, names),
    }
}

#[tactic(auto, unfolding(json_walk::specs::Walk::rows))]
fn pool_rows(
    alloc: Global,
    values: &[Value],
    version: Version,
    names: &[&str],
) -> Result<Vec<PoolRow>, ReadNet>
    ensures { Gives (λ v. map pool_row v.items) result (rows Pools (pool_at version (texts names.now)) (map view values.now)) }
{
    let mut pools = Vec::new(alloc);
    for (i, value) in values.iter().enumerate() {
        let row = pool(alloc, value, version, names, Place::new(Section::Pools, i))?;
        pools.push(row)?;
    }
    Ok(pools)
}

#[tactic(auto, unfolding(crate::specs::Format::pool))]
fn pool(
    alloc: Global,
    value: &Value,
    version: Version,
    names: &[&str],
    at: Place,
) -> Result<PoolRow, ReadNet>
    ensures { Gives pool_row result (pool_at version (texts names.now) at (view value.now)) }
{
    open_pool(value, version, at)?;
    let name = name(alloc, value, at)?;
    let max = limit(value, "max", at)?;
    let ratio = ratios(alloc, value, names, at)?;
    Ok(PoolRow { name, max, ratio })
}

/// An object with the members of a pool: a ratio from version 2 on.
fn open_pool(value: &Value, version: Version, at: Place) -> Result<(), ReadNet>
    ensures { Gives (λ u. u) result (object at (codes "name" ∷ []) (pool_options version) (view value.now)) }
{
    match version {
        Version::One => open(value, &["name"], &["max"], at),
        Version::Two => open(value, &["name"], &["max", "ratio"], at),
    }
}

/// How many thousandths of each quality leave a pool: all of them where none are said.
fn ratios(alloc: Global, value: &Value, names: &[&str], at: Place) -> Result<Vec<i128>, ReadNet>
    ensures { Gives (λ v. v.items) result (allows (codes "ratio") (untreated_at (texts names.now)) (ratios_at (texts names.now) at) (view value.now)) }
{
    match value.get("ratio") {
        None => Ok(untreated(alloc, names)?),
        Some(member) => some_ratios(alloc, member, names, at),
    }
}

#[tactic(auto, unfolding(crate::specs::Format::untreated))]
fn untreated(alloc: Global, names: &[&str]) -> Result<Vec<i128>, AllocError>
    ensures { IfOk result (λ v. v.items ≡ untreated_at (texts names.now)) }
{
    let mut row = Vec::new(alloc);
    for _name in names {
        row.push(1000)?;
    }
    Ok(row)
}

/// Thousandths for some of the names, and no other member.
#[tactic(auto, unfolding(crate::specs::Format::ratios))]
fn some_ratios(
    alloc: Global,
    value: &Value,
    names: &[&str],
    at: Place,
) -> Result<Vec<i128>, ReadNet>
    ensures { Gives (λ v. v.items) result (ratios_at (texts names.now) at (view value.now)) }
{
    open(value, &[], names, at)?;
    ratio_of_each(alloc, value, names, at)
}

fn ratio_of_each(
    alloc: Global,
    value: &Value,
    names: &[&str],
    at: Place,
) -> Result<Vec<i128>, ReadNet>
    ensures { Gives (λ v. v.items) result (each (λ n k. allows k (pos 1000) (ratio_at at) (view value.now)) 0 (texts names.now)) }
{
    let mut row = Vec::new(alloc);
    for name in names {
        let thousandths = ratio_of(value, *name, at)?;
        row.push(thousandths)?;
    }
    Ok(row)
}

/// How many thousandths of a quality leave a pool: all of them where it isn't said.
fn ratio_of(value: &Value, name: &str, at: Place) -> Result<i128, ReadNet>
    ensures { Gives (λ r. r) result (allows name.now (pos 1000) (ratio_at at) (view value.now)) }
{
    match value.get(name) {
        None => Ok(1000),
        Some(member) => ratio(member, at),
    }
}

/// The products, which are needed.
fn products(alloc: Global, value: &Value, names: &[&str]) -> Result<Vec<ProductRow>, ReadNet>
    ensures { Gives (λ v. map product_row v.items) result (needs top (codes "products") (list Products (product_at (texts names.now))) (view value.now)) }
{
    let top = Place::top();
    product_rows(alloc, items(needed(value, "products", top)?, top)?, names)
}

#[tactic(auto, unfolding(json_walk::specs::Walk::rows))]
fn product_rows(alloc: Global, values: &[Value], names: &[&str]) -> Result<Vec<ProductRow>, ReadNet>
    ensures { Gives (λ v. map product_row v.items) result (rows Products (product_at (texts names.now)) (map view values.now)) }
{
    let mut products = Vec::new(alloc);
    for (i, value) in values.iter().enumerate() {
        let row = product(alloc, value, names, Place::new(Section::Products, i))?;
        products.push(row)?;
    }
    Ok(products)
}

#[tactic(auto, unfolding(crate::specs::Format::product))]
fn product(alloc: Global, value: &Value, names: &[&str], at: Place) -> Result<ProductRow, ReadNet>
    ensures { Gives product_row result (product_at (texts names.now) at (view value.now)) }
{
    open(
        value,
        &["name", "price", "max"],
        &["min", "least", "most"],
        at,
    )?;
    let name = name(alloc, value, at)?;
    let price = needed_quantity(value, "price", at)?;
    let min = quantity_or_zero(value, "min", at)?;
    let max = needed_quantity(value, "max", at)?;
    let least = limits(alloc, value, "least", names, at)?;
    let most = limits(alloc, value, "most", names, at)?;
    Ok(ProductRow {
        name,
        price,
        min,
        max,
        least,
        most,
    })
}

/// A quantity, 0 where it isn't said.
fn quantity_or_zero(value: &Value, name: &str, at: Place) -> Result<i128, ReadNet>
    ensures { Gives (λ q. q) result (allows name.now (pos 0) (quantity_at at) (view value.now)) }
{
    match value.get(name) {
        None => Ok(0),
        Some(member) => quantity(member, at),
    }
}

/// A quantity that may be absent.
#[tactic(auto, unfolding(crate::specs::Format::limit))]
fn limit(value: &Value, name: &str, at: Place) -> Result<Option<i128>, ReadNet>
    ensures { Gives (λ o. o) result (allows name.now None (limit_at at) (view value.now)) }
{
    match value.get(name) {
        None => Ok(None),
        Some(member) => Ok(Some(quantity(member, at)?)),
    }
}

/// The limits of that name on the qualities, none where the member is absent.
fn limits(
    alloc: Global,
    value: &Value,
    name: &str,
    names: &[&str],
    at: Place,
) -> Result<Vec<Option<i128>>, ReadNet>
    ensures { Gives (λ v. v.items) result (allows name.now (no_limits (texts names.now)) (limits_at (texts names.now) at) (view value.now)) }
{
    match value.get(name) {
        None => Ok(unlimited(alloc, names)?),
        Some(member) => some_limits(alloc, member, names, at),
    }
}

#[tactic(auto, unfolding(crate::specs::Format::no_limits))]
fn unlimited(alloc: Global, names: &[&str]) -> Result<Vec<Option<i128>>, AllocError>
    ensures { IfOk result (λ v. v.items ≡ no_limits (texts names.now)) }
{
    let mut row = Vec::new(alloc);
    for _name in names {
        row.push(None)?;
    }
    Ok(row)
}

/// Quantities for some of the names, and no other member.
#[tactic(auto, unfolding(crate::specs::Format::limits))]
fn some_limits(
    alloc: Global,
    value: &Value,
    names: &[&str],
    at: Place,
) -> Result<Vec<Option<i128>>, ReadNet>
    ensures { Gives (λ v. v.items) result (limits_at (texts names.now) at (view value.now)) }
{
    open(value, &[], names, at)?;
    limit_of_each(alloc, value, names, at)
}

fn limit_of_each(
    alloc: Global,
    value: &Value,
    names: &[&str],
    at: Place,
) -> Result<Vec<Option<i128>>, ReadNet>
    ensures { Gives (λ v. v.items) result (each (λ n k. allows k None (limit_at at) (view value.now)) 0 (texts names.now)) }
{
    let mut row = Vec::new(alloc);
    for name in names {
        let number = limit(value, *name, at)?;
        row.push(number)?;
    }
    Ok(row)
}

/// The arcs, which are needed.
fn arcs(alloc: Global, value: &Value, version: Version) -> Result<Vec<ArcRow>, ReadNet>
    ensures { Gives (λ v. map arc_row v.items) result (needs top (codes "arcs") (list Arcs (arc_at version)) (view value.now)) }
{
    let top = Place::top();
    arc_rows(alloc, items(needed(value, "arcs", top)?, top)?, version)
}

#[tactic(auto, unfolding(json_walk::specs::Walk::rows))]
fn arc_rows(alloc: Global, values: &[Value], version: Version) -> Result<Vec<ArcRow>, ReadNet>
    ensures { Gives (λ v. map arc_row v.items) result (rows Arcs (arc_at version) (map view values.now)) }
{
    let mut arcs = Vec::new(alloc);
    for (i, value) in values.iter().enumerate() {
        let row = arc(alloc, value, version, Place::new(Section::Arcs, i))?;
        arcs.push(row)?;
    }
    Ok(arcs)
}

/// An arc is a list, and from version 2 on it may be an object.
#[tactic(auto, unfolding(crate::specs::Format::arc))]
fn arc(alloc: Global, value: &Value, version: Version, at: Place) -> Result<ArcRow, ReadNet>
    ensures { Gives arc_row result (arc_at version at (view value.now)) }
{
    if version == Version::Two && value.is_object() {
        return priced_arc(alloc, value, at);
    }
    plain_arc(alloc, value, at)
}

/// The names of an arc's two ends. It costs nothing and has no maximum.
#[tactic(auto, unfolding(crate::specs::Format::plain_arc))]
fn plain_arc(alloc: Global, value: &Value, at: Place) -> Result<ArcRow, ReadNet>
    ensures { Gives arc_row result (plain_arc_at at (view value.now)) }
{
    match items(value, at)? {
        [from, to] => {
            let from = String::from_str(alloc, text(from, at)?)?;
            let to = String::from_str(alloc, text(to, at)?)?;
            Ok(ArcRow {
                from,
                to,
                cost: 0,
                max: None,
            })
        }
        _ => Err(ReadNet::WrongKind(at)),
    }
}

/// The names of an arc's two ends, what a unit costs along it, and how much it can carry.
#[tactic(auto, unfolding(crate::specs::Format::priced_arc))]
fn priced_arc(alloc: Global, value: &Value, at: Place) -> Result<ArcRow, ReadNet>
    ensures { Gives arc_row result (priced_arc_at at (view value.now)) }
{
    open(value, &["from", "to"], &["cost", "max"], at)?;
    let from = String::from_str(alloc, needed_text(value, "from", at)?)?;
    let to = String::from_str(alloc, needed_text(value, "to", at)?)?;
    let cost = quantity_or_zero(value, "cost", at)?;
    let max = limit(value, "max", at)?;
    Ok(ArcRow {
        from,
        to,
        cost,
        max,
    })
}
