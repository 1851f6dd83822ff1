//! A row's value and the cost at a point, added up while they weigh at most 2^126.

ghost use Rattle.std.specs.Prelude.{◌≡◌, ◌+◌, ◌*◌, ◌^◌, ◌<◌, ◌≤◌, All, length, ◌+ℤ◌, ◌*ℤ◌, unsigned_abs, IfOk, OnOk, OnErr};
ghost use Rattle.pool_model.specs.Network.{net_of};
ghost use Rattle.row_model.specs.Variables.{variables};
ghost use Rattle.relaxation_points.specs.Lines.{line_value, line_weight};
ghost use Rattle.relaxation_points.specs.Points.{cost_value, cost_weight};
ghost use Rattle.relaxation_points.specs.Views.{shown_point};

use crate::point::RelaxPoint;
use blend_network::Network;
use box_space::{LinRow, var_cost, vars};
use exact_num::{Weight, Wide};

/// A written row's value at a point, times the base; Wide exactly where it weighs more than 2^126 there.
pub(crate) fn row_sum(row: &LinRow, point: &RelaxPoint) -> Result<i128, Wide>
    requires known { All (λ t. t.var < length point.now.values.items) row.now.terms }
    ensures value { IfOk result (λ z. z ≡ line_value row.now (shown_point point.now)) }
    ensures narrow { OnOk result (line_weight row.now (shown_point point.now) ≤ 2 ^ 126) }
    ensures wide { OnErr result (2 ^ 126 < line_weight row.now (shown_point point.now)) }
{
    let mut weight = Weight::new();
    let values = point.values.as_slice();
    let mut sum = with_product(0, row.constant(), point.base.into(), &mut weight)?;
    let terms = row.terms();
    for term in terms {
        sum = with_product(sum, term.coef, values[term.var as usize], &mut weight)?;
    }
    Ok(sum)
}

/// The cost of a point in picos, times the base; Wide exactly where it weighs more than 2^126.
pub(crate) fn cost_sum(net: &Network, point: &RelaxPoint) -> Result<i128, Wide>
    requires { length point.now.values.items ≡ variables (net_of net.now) }
    ensures value { IfOk result (λ z. z ≡ cost_value (net_of net.now) (shown_point point.now)) }
    ensures narrow { OnOk result (cost_weight (net_of net.now) (shown_point point.now) ≤ 2 ^ 126) }
    ensures wide { OnErr result (2 ^ 126 < cost_weight (net_of net.now) (shown_point point.now)) }
{
    let mut weight = Weight::new();
    let values = point.values.as_slice();
    let mut sum = 0;
    for var in 0..vars(net) {
        let cost = i128::from(var_cost(net, var));
        sum = with_product(sum, cost, values[var as usize], &mut weight)?;
    }
    Ok(sum)
}

/// A sum with `a * b`, whose size is added to the weight; Wide exactly where the weight would pass 2^126.
fn with_product(sum: i128, a: i128, b: i128, weight: &mut Weight) -> Result<i128, Wide>
    requires { unsigned_abs sum ≤ weight.old }
    ensures sum { IfOk result (λ z. z ≡ sum +ℤ a *ℤ b) }
    ensures small { IfOk result (λ z. unsigned_abs z ≤ weight.new) }
    ensures weight { OnOk result (weight.new ≡ weight.old + unsigned_abs a * unsigned_abs b) }
    ensures narrow { OnOk result (weight.new ≤ 2 ^ 126) }
    ensures wide { OnErr result (2 ^ 126 < weight.old + unsigned_abs a * unsigned_abs b) }
{
    weight.add_product(a.unsigned_abs(), b.unsigned_abs())?;
    Ok(sum + a * b)
}
