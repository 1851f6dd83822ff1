//! Whether a point is a witness for a bound of a box.

ghost use Rattle.std.specs.Prelude.{◌≡◌, ℕ, ◌<◌, ◌≤◌, ◌^◌, ◌↔◌, IsTrue, length, pos, ◌+ℤ◌, ◌*ℤ◌, ◌≤ℤ◌, ◌<ℤ◌};
ghost use Rattle.pool_model.specs.Network.{net_of};
ghost use Rattle.row_model.specs.Catalogue as catalogue;
ghost use Rattle.row_model.specs.Lift.{IsMet};
ghost use Rattle.row_model.specs.Variables.{variables};
ghost use Rattle.box_space.specs.Views.{IsView, shown_box, shown_kind};
ghost use Rattle.relaxation_points.specs.Lines.{HoldsLightly};
ghost use Rattle.relaxation_points.specs.Points.{IsLight, IsNear, IsRowOf, IsWitness, LiesBetween, cost_weight, row_weight};
ghost use Rattle.relaxation_points.specs.Views.{HasShape, shown_point};

use crate::point::RelaxPoint;
use crate::sums::{cost_sum, row_sum};
use blend_network::Network;
use box_space::{BoxView, Form, LinRow, RowKind, var_ends, vars};
use exact_num::compare_ratio;
use row_book::{in_form, row_at, rows};

/// Whether a point has a base above 0 and a value for each variable.
pub fn has_shape(net: &Network, point: &RelaxPoint) -> bool
    ensures { IsTrue result ↔ HasShape (net_of net.now) point.now }
{
    point.base > 0 && point.values.len() == vars(net) as usize
}

/// Whether a point's cost and all its rows of a form can be added up within 2^126. The row is written over.
pub fn is_light(
    net: &Network,
    form: Form,
    v: &BoxView,
    point: &RelaxPoint,
    row: &mut LinRow,
) -> bool
    requires view { IsView (net_of net.now) v.now }
    requires shape { HasShape (net_of net.now) point.now }
    // Promise: A point is light exactly where its cost and its rows weigh at most `2^126`
    ensures { IsTrue result ↔ IsLight (net_of net.now) form (shown_box v.now) (shown_point point.now) }
{
    cost_sum(net, point).is_ok() && are_rows_light(net, form, v, point, row)
}

fn are_rows_light(
    net: &Network,
    form: Form,
    v: &BoxView,
    point: &RelaxPoint,
    row: &mut LinRow,
) -> bool
    requires view { IsView (net_of net.now) v.now }
    requires shape { HasShape (net_of net.now) point.now }
    ensures { IsTrue result ↔ ((id : ℕ) → IsRowOf (net_of net.now) form id → row_weight (net_of net.now) (shown_box v.now) (shown_point point.now) id ≤ 2 ^ 126) }
{
    for id in 0..rows(net) {
        if in_form(net, form, id) && !is_row_light(net, v, id, point, row) {
            return false;
        }
    }
    true
}

fn is_row_light(net: &Network, v: &BoxView, id: u32, point: &RelaxPoint, row: &mut LinRow) -> bool
    requires view { IsView (net_of net.now) v.now }
    requires known { id < catalogue.rows (net_of net.now) }
    requires shape { HasShape (net_of net.now) point.now }
    ensures { IsTrue result ↔ (row_weight (net_of net.now) (shown_box v.now) (shown_point point.now) id ≤ 2 ^ 126) }
{
    row_at(net, v, id, row);
    match row_sum(row, point) {
        Ok(_) => true,
        Err(_) => false,
    }
}

/// Whether a point is a witness that no multipliers on a form's rows show more of the box than the bound, in picos: it is light, it
/// meets the box and the form, and it costs less than one pico above the bound. The row is written over.
pub fn is_witness(
    net: &Network,
    form: Form,
    v: &BoxView,
    bound: i128,
    point: &RelaxPoint,
    row: &mut LinRow,
) -> bool
    requires { IsView (net_of net.now) v.now }
    // Promise: A point is a witness exactly where it is light, meets the box and the form's rows, and costs less than one pico above the bound
    ensures { IsTrue result ↔ (HasShape (net_of net.now) point.now × IsWitness (net_of net.now) form (shown_box v.now) bound (shown_point point.now)) }
{
    if !has_shape(net, point) {
        return false;
    }
    if !lie_between(net, v, point) {
        return false;
    }
    is_near(net, bound, point) && hold(net, form, v, point, row)
}

/// Whether each value lies between the ends of its variable.
fn lie_between(net: &Network, v: &BoxView, point: &RelaxPoint) -> bool
    requires view { IsView (net_of net.now) v.now }
    requires shape { HasShape (net_of net.now) point.now }
    ensures { IsTrue result ↔ ((i : ℕ) → i < variables (net_of net.now) → LiesBetween (net_of net.now) (shown_box v.now) (shown_point point.now) i) }
{
    for var in 0..vars(net) {
        if !lies_between(net, v, point, var) {
            return false;
        }
    }
    true
}

fn lies_between(net: &Network, v: &BoxView, point: &RelaxPoint, var: u32) -> bool
    requires view { IsView (net_of net.now) v.now }
    requires shape { HasShape (net_of net.now) point.now }
    requires var { var < variables (net_of net.now) }
    ensures { IsTrue result ↔ LiesBetween (net_of net.now) (shown_box v.now) (shown_point point.now) var }
{
    let (low, high) = var_ends(net, v, var);
    let values = point.values.as_slice();
    is_within(low, high, values[var as usize], i128::from(point.base))
}

/// Whether a value over a base lies between two ends.
fn is_within(low: i128, high: i128, value: i128, base: i128) -> bool
    requires { pos 0 <ℤ base }
    ensures { IsTrue result ↔ (((low *ℤ base) ≤ℤ value) × (value ≤ℤ (high *ℤ base))) }
{
    is_not_below(low, value, base) && is_not_above(high, value, base)
}

fn is_not_below(low: i128, value: i128, base: i128) -> bool
    requires { pos 0 <ℤ base }
    ensures { IsTrue result ↔ ((low *ℤ base) ≤ℤ value) }
{
    compare_ratio(low, 1, value, base).is_le()
}

fn is_not_above(high: i128, value: i128, base: i128) -> bool
    requires { pos 0 <ℤ base }
    ensures { IsTrue result ↔ (value ≤ℤ (high *ℤ base)) }
{
    compare_ratio(value, base, high, 1).is_le()
}

/// Whether a point's cost is light, and less than one pico above a bound.
fn is_near(net: &Network, bound: i128, point: &RelaxPoint) -> bool
    requires { HasShape (net_of net.now) point.now }
    ensures { IsTrue result ↔ ((cost_weight (net_of net.now) (shown_point point.now) ≤ 2 ^ 126) × IsNear (net_of net.now) bound (shown_point point.now)) }
{
    match cost_sum(net, point) {
        Ok(cost) => is_below_next(cost, point.base, bound),
        Err(_) => false,
    }
}

/// Whether a cost over a base is less than one above a bound: whether it is no more than the bound, rounded down.
fn is_below_next(cost: i128, base: u64, bound: i128) -> bool
    requires { 0 < base }
    ensures { IsTrue result ↔ (cost <ℤ ((bound +ℤ pos 1) *ℤ pos base)) }
{
    rounded_down(cost, base) <= bound
}

/// A cost over a base, rounded down.
fn rounded_down(cost: i128, base: u64) -> i128
    requires { 0 < base }
    ensures not_above { (result *ℤ pos base) ≤ℤ cost }
    ensures next_above { cost <ℤ ((result +ℤ pos 1) *ℤ pos base) }
{
    cost.div_euclid(base.into())
}

/// Whether each row of the form is light and holds.
fn hold(net: &Network, form: Form, v: &BoxView, point: &RelaxPoint, row: &mut LinRow) -> bool
    requires view { IsView (net_of net.now) v.now }
    requires shape { HasShape (net_of net.now) point.now }
    ensures { IsTrue result ↔ ((id : ℕ) → IsRowOf (net_of net.now) form id → HoldsLightly (net_of net.now) (shown_box v.now) (shown_point point.now) id) }
{
    for id in 0..rows(net) {
        if in_form(net, form, id) && !holds(net, v, id, point, row) {
            return false;
        }
    }
    true
}

fn holds(net: &Network, v: &BoxView, id: u32, point: &RelaxPoint, row: &mut LinRow) -> bool
    requires view { IsView (net_of net.now) v.now }
    requires known { id < catalogue.rows (net_of net.now) }
    requires shape { HasShape (net_of net.now) point.now }
    ensures { IsTrue result ↔ HoldsLightly (net_of net.now) (shown_box v.now) (shown_point point.now) id }
{
    let kind = row_at(net, v, id, row);
    match row_sum(row, point) {
        Ok(value) => is_met(kind, value),
        Err(_) => false,
    }
}

fn is_met(kind: RowKind, value: i128) -> bool
    ensures { IsTrue result ↔ IsMet (shown_kind kind) value }
{
    match kind {
        RowKind::AtLeast => value >= 0,
        RowKind::Equal => value == 0,
    }
}
