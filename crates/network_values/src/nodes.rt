//! The values of a source, a pool and a product.
#![tactic(auto, unfolding(pool_model::specs::Network::net_of))]

ghost use Rattle.std.specs.Prelude.{◌≡◌, ◌<◌, length, map, get_or, Some, IfOk};
ghost use Rattle.serde_json.specs.Data.{object};
ghost use Rattle.serde_json.specs.View.{view, members_view};
ghost use Rattle.pool_model.specs.Network.{net_of, no_source, no_pool, no_product};
ghost use Rattle.network_values.specs.Values.{ratio_data, set_members, source_data, pool_members, pool_data, product_data};
ghost use Rattle.json_walk.specs.declared.version.Version.TheVariants.{Two};

use crate::quantities::{name_value, quantity_value, set_value};
use blend_network::{Kind, Network};
use json_walk::Version;
use serde_json::{Map, Value, put};
use std::alloc::{AllocError, Global};

/// Source `n`: every member, with its maximum written out.
pub fn source_value(alloc: Global, net: &Network, n: u32) -> Result<Value, AllocError>
    requires there { n < (net_of net.now).sources }
    // Promise: What the canonical text says of a name, an arc, a source, a pool and a product is the definition's
    ensures value { IfOk result (λ v. view v ≡ source_data net.now.qualities (get_or net.now.sources n no_source)) }
{
    let mut members = Map::new(alloc);
    put(
        &mut members,
        alloc,
        "cost",
        quantity_value(alloc, net.source_cost(n))?,
    )?;
    put(
        &mut members,
        alloc,
        "max",
        quantity_value(alloc, net.source_max(n))?,
    )?;
    put(
        &mut members,
        alloc,
        "name",
        name_value(alloc, net, Kind::Source, n)?,
    )?;
    put(
        &mut members,
        alloc,
        "quality",
        set_value(alloc, net, &quality_of(alloc, net, n)?)?,
    )?;
    Ok(Value::Object(members))
}

/// The qualities of a source, each of which is set.
fn quality_of(alloc: Global, net: &Network, source: u32) -> Result<Vec<Option<i64>>, AllocError>
    requires { source < (net_of net.now).sources }
    ensures quality { IfOk result (λ v. v.items ≡ map Some (get_or net.now.sources source no_source).quality) }
    ensures each { IfOk result (λ v. length v.items ≡ length net.now.qualities) }
{
    let qualities = net.sizes().qualities;
    let mut quality = Vec::new(alloc);
    for k in 0..qualities {
        quality.push(Some(net.source_quality(source, k)))?;
    }
    Ok(quality)
}

/// Pool `n`: its name and its maximum, and in version 2 all its ratios.
pub fn pool_value(
    alloc: Global,
    net: &Network,
    version: Version,
    n: u32,
) -> Result<Value, AllocError>
    requires there { n < (net_of net.now).pools }
    // Promise: What the canonical text says of a name, an arc, a source, a pool and a product is the definition's
    ensures value { IfOk result (λ v. view v ≡ pool_data version net.now.qualities (get_or net.now.pools n no_pool)) }
{
    match version {
        Version::One => Ok(Value::Object(members_of_pool(alloc, net, n)?)),
        Version::Two => treating_value(alloc, net, n),
    }
}

/// The same of a pool with all its ratios.
fn treating_value(alloc: Global, net: &Network, n: u32) -> Result<Value, AllocError>
    requires { n < (net_of net.now).pools }
    ensures { IfOk result (λ v. view v ≡ pool_data Two net.now.qualities (get_or net.now.pools n no_pool)) }
{
    let mut members = members_of_pool(alloc, net, n)?;
    put(&mut members, alloc, "ratio", ratios_value(alloc, net, n)?)?;
    Ok(Value::Object(members))
}

/// The maximum of a pool, and its name.
fn members_of_pool(alloc: Global, net: &Network, n: u32) -> Result<Map<String, Value>, AllocError>
    requires { n < (net_of net.now).pools }
    ensures { IfOk result (λ m. members_view m.entries ≡ pool_members (get_or net.now.pools n no_pool)) }
{
    let mut members = Map::new(alloc);
    put(
        &mut members,
        alloc,
        "max",
        quantity_value(alloc, net.pool_max(n))?,
    )?;
    put(
        &mut members,
        alloc,
        "name",
        name_value(alloc, net, Kind::Pool, n)?,
    )?;
    Ok(members)
}

/// How many thousandths of each quality leave a pool, each under the name of its quality.
fn ratios_value(alloc: Global, net: &Network, pool: u32) -> Result<Value, AllocError>
    requires { pool < (net_of net.now).pools }
    ensures { IfOk result (λ v. view v ≡ object (set_members ratio_data net.now.qualities (map Some (get_or net.now.pools pool no_pool).ratio))) }
{
    let mut members = Map::new(alloc);
    let qualities = net.sizes().qualities;
    for k in (0..qualities).rev() {
        put(
            &mut members,
            alloc,
            net.name(Kind::Quality, k),
            Value::from(net.pool_ratio(pool, k)),
        )?;
    }
    Ok(Value::Object(members))
}

/// Product `n`: every member, with the limits that are set in `least` and `most`.
pub fn product_value(alloc: Global, net: &Network, n: u32) -> Result<Value, AllocError>
    requires there { n < (net_of net.now).products }
    // Promise: What the canonical text says of a name, an arc, a source, a pool and a product is the definition's
    ensures value { IfOk result (λ v. view v ≡ product_data net.now.qualities (get_or net.now.products n no_product)) }
{
    let mut members = Map::new(alloc);
    put(
        &mut members,
        alloc,
        "least",
        set_value(alloc, net, &least_of(alloc, net, n)?)?,
    )?;
    put(
        &mut members,
        alloc,
        "max",
        quantity_value(alloc, net.product_max(n))?,
    )?;
    put(
        &mut members,
        alloc,
        "min",
        quantity_value(alloc, net.product_min(n))?,
    )?;
    put(
        &mut members,
        alloc,
        "most",
        set_value(alloc, net, &most_of(alloc, net, n)?)?,
    )?;
    put(
        &mut members,
        alloc,
        "name",
        name_value(alloc, net, Kind::Product, n)?,
    )?;
    put(
        &mut members,
        alloc,
        "price",
        quantity_value(alloc, net.product_price(n))?,
    )?;
    Ok(Value::Object(members))
}

/// The least limits on the qualities of a product.
fn least_of(alloc: Global, net: &Network, product: u32) -> Result<Vec<Option<i64>>, AllocError>
    requires { product < (net_of net.now).products }
    ensures limits { IfOk result (λ v. v.items ≡ (get_or net.now.products product no_product).least) }
    ensures each { IfOk result (λ v. length v.items ≡ length net.now.qualities) }
{
    let qualities = net.sizes().qualities;
    let mut limits = Vec::new(alloc);
    for k in 0..qualities {
        limits.push(net.product_least(product, k))?;
    }
    Ok(limits)
}

/// The most limits on the qualities of a product.
fn most_of(alloc: Global, net: &Network, product: u32) -> Result<Vec<Option<i64>>, AllocError>
    requires { product < (net_of net.now).products }
    ensures limits { IfOk result (λ v. v.items ≡ (get_or net.now.products product no_product).most) }
    ensures each { IfOk result (λ v. length v.items ≡ length net.now.qualities) }
{
    let qualities = net.sizes().qualities;
    let mut limits = Vec::new(alloc);
    for k in 0..qualities {
        limits.push(net.product_most(product, k))?;
    }
    Ok(limits)
}
