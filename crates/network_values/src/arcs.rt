//! The value of an arc: the names of its two ends, or an object.
#![tactic(auto, unfolding(pool_model::specs::Network::net_of))]

ghost use Rattle.std.specs.Prelude.{◌≡◌, ◌<◌, [], ◌∷◌, get_or, IfOk};
ghost use Rattle.serde_json.specs.Data.{string};
ghost use Rattle.serde_json.specs.View.{view};
ghost use Rattle.pool_model.specs.Network.{net_of, no_arc};
ghost use Rattle.network_parts.specs.declared.fault.Kind.TheVariants as kind;
ghost use Rattle.blend_network.specs.Kinds.{names_of};
ghost use Rattle.blend_network.specs.Canonical.{canonical_arc};
ghost use Rattle.network_values.specs.Values.{list_data, arc_data};
ghost use Rattle.json_walk.specs.declared.version.Version.TheVariants.{Two};

use crate::quantities::{put_set, quantity_value};
use blend_network::{Kind, Network};
use json_walk::Version;
use serde_json::{Map, Value, put};
use std::alloc::{AllocError, Global};

/// Feed `n`, which goes from a source to a pool.
pub fn feed_value(
    alloc: Global,
    net: &Network,
    version: Version,
    n: u32,
) -> Result<Value, AllocError>
    requires there { n < (net_of net.now).feeds }
    // Promise: What the canonical text says of a name, an arc, a source, a pool and a product is the definition's
    ensures value { IfOk result (λ v. view v ≡ arc_data version (canonical_arc (names_of net.now kind.Source) (names_of net.now kind.Pool) (get_or net.now.feeds n no_arc))) }
{
    let (source, pool) = net.feed(n);
    let from = net.name(Kind::Source, source);
    let to = net.name(Kind::Pool, pool);
    arc_value(alloc, version, from, to, net.feed_cost(n), net.feed_max(n))
}

/// Out `n`, which goes from a pool to a product.
pub fn out_value(
    alloc: Global,
    net: &Network,
    version: Version,
    n: u32,
) -> Result<Value, AllocError>
    requires there { n < (net_of net.now).outs }
    // Promise: What the canonical text says of a name, an arc, a source, a pool and a product is the definition's
    ensures value { IfOk result (λ v. view v ≡ arc_data version (canonical_arc (names_of net.now kind.Pool) (names_of net.now kind.Product) (get_or net.now.outs n no_arc))) }
{
    let (pool, product) = net.out(n);
    let from = net.name(Kind::Pool, pool);
    let to = net.name(Kind::Product, product);
    arc_value(alloc, version, from, to, net.out_cost(n), net.out_max(n))
}

/// Direct `n`, which goes from a source to a product.
pub fn direct_value(
    alloc: Global,
    net: &Network,
    version: Version,
    n: u32,
) -> Result<Value, AllocError>
    requires there { n < (net_of net.now).directs }
    // Promise: What the canonical text says of a name, an arc, a source, a pool and a product is the definition's
    ensures value { IfOk result (λ v. view v ≡ arc_data version (canonical_arc (names_of net.now kind.Source) (names_of net.now kind.Product) (get_or net.now.directs n no_arc))) }
{
    let (source, product) = net.direct(n);
    let from = net.name(Kind::Source, source);
    let to = net.name(Kind::Product, product);
    arc_value(
        alloc,
        version,
        from,
        to,
        net.direct_cost(n),
        net.direct_max(n),
    )
}

/// The names of an arc's two ends, and in version 2 what a unit along it costs, and how much it can carry, if that is limited.
fn arc_value(
    alloc: Global,
    version: Version,
    from: &str,
    to: &str,
    cost: i64,
    max: Option<i64>,
) -> Result<Value, AllocError>
    ensures value { IfOk result (λ v. view v ≡ arc_data version (record { from = from.now; to = to.now; cost = cost; max = max })) }
{
    match version {
        Version::One => ends_value(alloc, from, to),
        Version::Two => priced_value(alloc, from, to, cost, max),
    }
}

/// A list of two names.
fn ends_value(alloc: Global, from: &str, to: &str) -> Result<Value, AllocError>
    ensures value { IfOk result (λ v. view v ≡ list_data string (from.now ∷ to.now ∷ [])) }
{
    let mut list = Vec::new(alloc);
    list.push(Value::try_from_str(alloc, from)?)?;
    list.push(Value::try_from_str(alloc, to)?)?;
    Ok(Value::Array(list))
}

/// An object with two names, a cost and a maximum, if there is one.
fn priced_value(
    alloc: Global,
    from: &str,
    to: &str,
    cost: i64,
    max: Option<i64>,
) -> Result<Value, AllocError>
    ensures value { IfOk result (λ v. view v ≡ arc_data Two (record { from = from.now; to = to.now; cost = cost; max = max })) }
{
    let mut members = Map::new(alloc);
    put(&mut members, alloc, "cost", quantity_value(alloc, cost)?)?;
    put(
        &mut members,
        alloc,
        "from",
        Value::try_from_str(alloc, from)?,
    )?;
    put(&mut members, alloc, "to", Value::try_from_str(alloc, to)?)?;
    put_set(&mut members, alloc, "max", max)?;
    Ok(Value::Object(members))
}
