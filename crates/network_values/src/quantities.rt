//! The values of a name, a quantity, and the quantities that are set.
#![tactic(auto, unfolding(pool_model::specs::Network::net_of))]

ghost use Rattle.std.specs.Prelude.{◌≡◌, ◌<◌, [], length, get_or, IfOk, OnOk};
ghost use Rattle.serde_json.specs.Data.{object, string};
ghost use Rattle.serde_json.specs.View.{view, members_view};
ghost use Rattle.blend_network.specs.Kinds.{names_of};
ghost use Rattle.network_values.specs.Values.{quantity_data, set_at, set_members};

use blend_network::{Kind, Network};
use quantity::text_of;
use serde_json::{Map, Value, put};
use std::alloc::{AllocError, Global};

/// The quantities that are set, each under the name of its quality.
pub fn set_value(
    alloc: Global,
    net: &Network,
    quantities: &[Option<i64>],
) -> Result<Value, AllocError>
    requires { length quantities.now ≡ length net.now.qualities }
    ensures { IfOk result (λ v. view v ≡ object (set_members quantity_data net.now.qualities quantities.now)) }
{
    let mut members = Map::new(alloc);
    let qualities = net.sizes().qualities;
    for k in (0..qualities).rev() {
        put_set(
            &mut members,
            alloc,
            net.name(Kind::Quality, k),
            quantities[k as usize],
        )?;
    }
    Ok(Value::Object(members))
}

/// Puts a quantity under its name, if it is set.
pub(crate) fn put_set(
    members: &mut Map<String, Value>,
    alloc: Global,
    name: &str,
    quantity: Option<i64>,
) -> Result<(), AllocError>
    ensures { OnOk result (members_view members.new.entries
        ≡ set_at quantity_data name.now quantity (members_view members.old.entries)) }
{
    if let Some(quantity) = quantity {
        return put(members, alloc, name, quantity_value(alloc, quantity)?);
    }
    Ok(())
}

/// The name of a node or a quality.
pub fn name_value(alloc: Global, net: &Network, kind: Kind, n: u32) -> Result<Value, AllocError>
    requires there { n < length (names_of net.now kind) }
    // Promise: What the canonical text says of a name, an arc, a source, a pool and a product is the definition's
    ensures value { IfOk result (λ v. view v ≡ string (get_or (names_of net.now kind) n [])) }
{
    Value::try_from_str(alloc, net.name(kind, n))
}

/// Whole units as a number, and every other quantity as its shortest text.
pub fn quantity_value(alloc: Global, quantity: i64) -> Result<Value, AllocError>
    ensures { IfOk result (λ v. view v ≡ quantity_data quantity) }
{
    if quantity % 1_000_000 == 0 {
        return Ok(Value::from(quantity / 1_000_000));
    }
    Ok(Value::String(text_of(alloc, i128::from(quantity))?))
}
