//! The steps of the walk: each gives the meaning of its place, or the first fault there.

ghost use Rattle.std.specs.Prelude.{◌≡◌, ◌||◌, map, string_bytes, is_some};
ghost use Rattle.std.specs.List.{list_all};
ghost use Rattle.serde_json.specs.Find.{get};
ghost use Rattle.serde_json.specs.View.{view, members_view};
ghost use Rattle.json_walk.specs.Walk.{Gives, text as text_at, quantity as quantity_at, ratio as ratio_at, present, needs, object as object_at, items as items_at, texts, is_among, names_in};

use crate::fault::{Place, ReadNet};
use quantity::quantity_of;
use serde_json::{Map, Value};
use std::alloc::Global;

/// A text.
#[tactic(auto, unfolding(crate::specs::Walk::text))]
pub fn text(value: &Value, at: Place) -> Result<&str, ReadNet>
    ensures { Gives (λ s. s.now) result (text_at at (view value.now)) }
{
    value.as_str().ok_or(ReadNet::WrongKind(at))
}

/// The value of a member that is needed.
#[tactic(auto, unfolding(crate::specs::Walk::present))]
pub fn needed<'v>(value: &'v Value, name: &str, at: Place) -> Result<&'v Value, ReadNet>
    ensures { Gives (λ m. view m.now) result (present at name.now (view value.now)) }
{
    value.get(name).ok_or(ReadNet::Missing(at))
}

/// A whole number of units, or the text of a quantity, in millionths.
#[tactic(auto, unfolding(crate::specs::Walk::quantity))]
pub fn quantity(value: &Value, at: Place) -> Result<i128, ReadNet>
    ensures { Gives (λ q. q) result (quantity_at at (view value.now)) }
{
    if let Some(number) = value.as_number() {
        return match (number.as_u64(), number.as_i64()) {
            (Some(n), _) => Ok(i128::from(n) * 1_000_000),
            (None, Some(z)) => Ok(i128::from(z) * 1_000_000),
            (None, None) => Err(ReadNet::NotWhole(at)),
        };
    }
    let text = value.as_str().ok_or(ReadNet::WrongKind(at))?;
    quantity_of(text).ok_or(ReadNet::BadQuantity(at))
}

/// A whole number as it stands: a ratio, in thousandths.
#[tactic(auto, unfolding(crate::specs::Walk::ratio))]
pub fn ratio(value: &Value, at: Place) -> Result<i128, ReadNet>
    ensures { Gives (λ r. r) result (ratio_at at (view value.now)) }
{
    let number = value.as_number().ok_or(ReadNet::WrongKind(at))?;
    match (number.as_u64(), number.as_i64()) {
        (Some(n), _) => Ok(i128::from(n)),
        (None, Some(z)) => Ok(i128::from(z)),
        (None, None) => Err(ReadNet::NotWhole(at)),
    }
}

fn is_one_of(name: &str, names: &[&str]) -> bool
    ensures { result ≡ is_among (texts names.now) name.now }
{
    for n in names {
        if *n == name {
            return true;
        }
    }
    false
}

fn is_known(name: &str, needed: &[&str], others: &[&str]) -> bool
    ensures { result ≡ (is_among (texts needed.now) name.now || is_among (texts others.now) name.now) }
{
    is_one_of(name, needed) || is_one_of(name, others)
}

fn has_only(map: &Map<String, Value>, needed: &[&str], others: &[&str]) -> bool
    ensures { result ≡ list_all (λ k. is_among (texts needed.now) k || is_among (texts others.now) k) (names_in (members_view map.now.entries)) }
{
    for name in map.keys() {
        if !is_known(name.as_str(), needed, others) {
            return false;
        }
    }
    true
}

fn has_all(value: &Value, needed: &[&str]) -> bool
    ensures { result ≡ list_all (λ k. is_some (get k (view value.now))) (texts needed.now) }
{
    for k in needed {
        if value.get(*k).is_none() {
            return false;
        }
    }
    true
}

/// An object with no member but these, and all those that are needed.
#[tactic(auto, unfolding(crate::specs::Walk::object))]
pub fn open(value: &Value, needed: &[&str], others: &[&str], at: Place) -> Result<(), ReadNet>
    ensures { Gives (λ u. u) result (object_at at (texts needed.now) (texts others.now) (view value.now)) }
{
    let members = value.as_object().ok_or(ReadNet::WrongKind(at))?;
    if !has_only(members, needed, others) {
        return Err(ReadNet::UnknownMember(at));
    }
    if !has_all(value, needed) {
        return Err(ReadNet::Missing(at));
    }
    Ok(())
}

/// The elements of a list.
#[tactic(auto, unfolding(crate::specs::Walk::items))]
pub fn items(value: &Value, at: Place) -> Result<&[Value], ReadNet>
    ensures { Gives (λ vs. map view vs.now) result (items_at at (view value.now)) }
{
    match value.as_array() {
        None => Err(ReadNet::WrongKind(at)),
        Some(list) => Ok(list.as_slice()),
    }
}

/// A member that is needed, and is a quantity.
pub fn needed_quantity(value: &Value, name: &str, at: Place) -> Result<i128, ReadNet>
    ensures { Gives (λ q. q) result (needs at name.now (quantity_at at) (view value.now)) }
{
    quantity(needed(value, name, at)?, at)
}

/// A member that is needed, and is a text.
pub fn needed_text<'v>(value: &'v Value, name: &str, at: Place) -> Result<&'v str, ReadNet>
    ensures { Gives (λ s. s.now) result (needs at name.now (text_at at) (view value.now)) }
{
    text(needed(value, name, at)?, at)
}
