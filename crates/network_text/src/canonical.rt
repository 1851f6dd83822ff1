//! The canonical text of a network.
#![tactic(auto, unfolding(pool_model::specs::Network::net_of))]

ghost use Rattle.std.specs.Prelude.{◌≡◌, ◌≤◌, length, IfOk};
ghost use Rattle.serde_json.specs.Data.{string};
ghost use Rattle.serde_json.specs.View.{view};
ghost use Rattle.pool_model.specs.Network.{net_of, IsLimited};
ghost use Rattle.blend_network.specs.Made.{IsMade};
ghost use Rattle.blend_network.specs.Canonical.{canonical_arcs};
ghost use Rattle.network_json.specs.Reading.{ReadAs};
ghost use Rattle.network_values.specs.Values.{list_data, source_data, pool_data, product_data, arc_data};
ghost use Rattle.network_text.specs.Canonical.{version_of as first_version, data_in, network_data, canonical_text};

use blend_network::{Kind, Network};
use edge_io::Memory;
use json_walk::Version;
use network_values::{
    direct_value, feed_value, name_value, out_value, pool_value, product_value, source_value,
};
use serde_json::{Map, Value, put};
use std::alloc::{AllocError, Global};

/// The longest canonical text, in bytes.
pub const MAX_CANONICAL: usize = 1_048_576;

/// The canonical text of the network: JSON with no space, members in byte order of their names, every member but the title,
/// maxima of sources and pools written out, and in `least` and `most` the limits that are set. Arcs are feeds, then outs, then
/// directs. It has version 1 where no pool removes anything and no arc costs anything or has a maximum, and else version 2, in
/// which every pool has all its ratios and every arc is an object. It is at most `MAX_CANONICAL` bytes long, and `read_network` gives this network of it.
pub fn write_canonical(alloc: Global, net: &Network) -> Result<Vec<u8>, Memory>
    // Promise: The canonical text is the definition's
    ensures text { IfOk result (λ text. text.items ≡ canonical_text net.now) }
    // Promise: The canonical text has at most 1,048,576 bytes
    ensures short { IfOk result (λ text. length text.items ≤ MAX_CANONICAL) }
    // Promise: The canonical text of a network is a file of that very network
    ensures read { IfOk result (λ text. ReadAs text.items net.now) }
{
    let value = network_value(alloc, net)?;
    Ok(value.to_vec(alloc)?)
}

fn network_value(alloc: Global, net: &Network) -> Result<Value, AllocError>
    ensures data { IfOk result (λ v. view v ≡ network_data net.now) }
    ensures made { IsMade net.now }
    ensures limited { IsLimited (net_of net.now) }
{
    value_in(alloc, net, version_of(net))
}

/// The first version that can say the network.
fn version_of(net: &Network) -> Version
    ensures { result ≡ first_version net.now }
{
    if net.is_plain() {
        Version::One
    } else {
        Version::Two
    }
}

/// The value of the network in a version.
fn value_in(alloc: Global, net: &Network, version: Version) -> Result<Value, AllocError>
    ensures data { IfOk result (λ v. view v ≡ data_in version net.now) }
    ensures made { IsMade net.now }
    ensures limited { IsLimited (net_of net.now) }
{
    let mut members = Map::new(alloc);
    put(
        &mut members,
        alloc,
        "arcs",
        arcs_value(alloc, net, version)?,
    )?;
    put(
        &mut members,
        alloc,
        "pools",
        pools_value(alloc, net, version)?,
    )?;
    put(&mut members, alloc, "products", products_value(alloc, net)?)?;
    put(&mut members, alloc, "qualities", names_value(alloc, net)?)?;
    put(&mut members, alloc, "sources", sources_value(alloc, net)?)?;
    put(
        &mut members,
        alloc,
        "version",
        Value::from(version.number()),
    )?;
    Ok(Value::Object(members))
}

/// The arcs by the names of their ends: feeds, then outs, then directs.
fn arcs_value(alloc: Global, net: &Network, version: Version) -> Result<Value, AllocError>
    ensures data { IfOk result (λ v. view v ≡ list_data (arc_data version) (canonical_arcs net.now)) }
    ensures made { IsMade net.now }
    ensures limited { IsLimited (net_of net.now) }
{
    let counts = net.sizes();
    let mut list = Vec::new(alloc);
    'feeds: for n in 0..counts.feeds {
        list.push(feed_value(alloc, net, version, n)?)?;
    }
    'outs: for n in 0..counts.outs {
        list.push(out_value(alloc, net, version, n)?)?;
    }
    'directs: for n in 0..counts.directs {
        list.push(direct_value(alloc, net, version, n)?)?;
    }
    Ok(Value::Array(list))
}

fn pools_value(alloc: Global, net: &Network, version: Version) -> Result<Value, AllocError>
    ensures { IfOk result (λ v. view v ≡ list_data (pool_data version net.now.qualities) net.now.pools) }
{
    let pools = net.sizes().pools;
    let mut list = Vec::new(alloc);
    for n in 0..pools {
        list.push(pool_value(alloc, net, version, n)?)?;
    }
    Ok(Value::Array(list))
}

fn products_value(alloc: Global, net: &Network) -> Result<Value, AllocError>
    ensures { IfOk result (λ v. view v ≡ list_data (product_data net.now.qualities) net.now.products) }
{
    let products = net.sizes().products;
    let mut list = Vec::new(alloc);
    for n in 0..products {
        list.push(product_value(alloc, net, n)?)?;
    }
    Ok(Value::Array(list))
}

/// The names of the qualities.
fn names_value(alloc: Global, net: &Network) -> Result<Value, AllocError>
    ensures { IfOk result (λ v. view v ≡ list_data string net.now.qualities) }
{
    let qualities = net.sizes().qualities;
    let mut list = Vec::new(alloc);
    for k in 0..qualities {
        list.push(name_value(alloc, net, Kind::Quality, k)?)?;
    }
    Ok(Value::Array(list))
}

fn sources_value(alloc: Global, net: &Network) -> Result<Value, AllocError>
    ensures { IfOk result (λ v. view v ≡ list_data (source_data net.now.qualities) net.now.sources) }
{
    let sources = net.sizes().sources;
    let mut list = Vec::new(alloc);
    for n in 0..sources {
        list.push(source_value(alloc, net, n)?)?;
    }
    Ok(Value::Array(list))
}
