//! The weight of a proof, and what its rows take off the rests.

ghost use Rattle.std.specs.Prelude.{◌≡◌, ℕ, ◌+◌, ◌*◌, ◌^◌, ◌<◌, ◌≤◌, All, length, get_or, pos, ◌-ℤ◌, ◌*ℤ◌, unsigned_abs, OnOk, OnErr};
ghost use Rattle.pool_model.specs.Network.{net_of};
ghost use Rattle.row_model.specs.Variables.{variables};
ghost use Rattle.box_space.specs.Views.{shown_box, IsView};
ghost use Rattle.row_book.specs.Sizes as sizes;

use crate::multiplying::less_product;
use blend_network::Network;
use box_space::{BoxView, LinRow, var_ends, vars};
use exact_num::{Weight, Wide};

/// Adds the rests, each times the larger end of its variable.
pub(crate) fn weigh_rests(
    net: &Network,
    v: &BoxView,
    rests: &[i128],
    weight: &mut Weight,
) -> Result<(), Wide>
    requires view { IsView (net_of net.now) v.now }
    requires places { length rests.now ≡ variables (net_of net.now) }
    requires narrow { weight.old ≤ 2 ^ 126 }
    ensures added { OnOk result (weight.new ≡ weight.old + sizes.rests_weight (net_of net.now) (shown_box v.now) rests.now (variables (net_of net.now))) }
    ensures narrow { OnOk result (weight.new ≤ 2 ^ 126) }
    ensures wide { OnErr result (2 ^ 126 < weight.old + sizes.rests_weight (net_of net.now) (shown_box v.now) rests.now (variables (net_of net.now))) }
{
    for var in 0..vars(net) {
        add_end(net, v, var, rests[var as usize].unsigned_abs(), weight)?;
    }
    Ok(())
}

/// Adds a size times the larger end of a variable. A size of 0 adds nothing, wherever the ends are.
fn add_end(
    net: &Network,
    v: &BoxView,
    var: u32,
    size: u128,
    weight: &mut Weight,
) -> Result<(), Wide>
    requires view { IsView (net_of net.now) v.now }
    requires known { var < variables (net_of net.now) }
    requires narrow { weight.old ≤ 2 ^ 126 }
    ensures added { OnOk result (weight.new ≡ weight.old + size * sizes.end_size (net_of net.now) (shown_box v.now) var) }
    ensures narrow { OnOk result (weight.new ≤ 2 ^ 126) }
    ensures wide { OnErr result (2 ^ 126 < weight.old + size * sizes.end_size (net_of net.now) (shown_box v.now) var) }
{
    if size == 0 {
        return Ok(());
    }
    weight.add_product(size, end_size(net, v, var))
}

/// Adds a multiplied row to the weight, its constant and each coefficient times the larger end of its variable, and takes it off
/// the rests. Once the weight would pass the limit, the rests say nothing any more.
pub(crate) fn add_row(
    net: &Network,
    v: &BoxView,
    mult: i64,
    row: &LinRow,
    rests: &mut [i128],
    weight: &mut Weight,
) -> Result<(), Wide>
    requires view { IsView (net_of net.now) v.now }
    requires places { length rests.old ≡ variables (net_of net.now) }
    requires known { All (λ t. t.var < variables (net_of net.now)) row.now.terms }
    requires small { All (λ t. unsigned_abs t.coef < 2 ^ 48) row.now.terms }
    requires room { (i : ℕ) → i < length rests.old
        → unsigned_abs (get_or rests.old i (pos 0)) + unsigned_abs mult * sizes.size_in row.now.terms i ≤ 2 ^ 126 }
    ensures added { OnOk result (weight.new ≡ weight.old + sizes.line_weight (net_of net.now) (shown_box v.now) mult row.now) }
    ensures narrow { OnOk result (weight.new ≤ 2 ^ 126) }
    ensures wide { OnErr result (2 ^ 126 < weight.old + sizes.line_weight (net_of net.now) (shown_box v.now) mult row.now) }
    ensures taken { OnOk result ((i : ℕ) → i < length rests.old
        → get_or rests.new i (pos 0) ≡ get_or rests.old i (pos 0) -ℤ mult *ℤ sizes.coef_in row.now.terms i) }
{
    weight.add_product(mult.unsigned_abs().into(), row.constant().unsigned_abs())?;
    let terms = row.terms();
    for term in terms {
        let size = multiplied_size(mult, term.coef);
        weight.add_product(size, end_size(net, v, term.var))?;
        let rest = &mut rests[term.var as usize];
        *rest = less_product(*rest, mult, term.coef);
    }
    Ok(())
}

/// The size of the larger end of a variable.
fn end_size(net: &Network, v: &BoxView, var: u32) -> u128
    requires view { IsView (net_of net.now) v.now }
    requires known { var < variables (net_of net.now) }
    ensures { result ≡ sizes.end_size (net_of net.now) (shown_box v.now) var }
{
    let (low, high) = var_ends(net, v, var);
    low.unsigned_abs().max(high.unsigned_abs())
}

/// The size of a multiplied coefficient.
fn multiplied_size(mult: i64, coef: i128) -> u128
    requires { unsigned_abs coef < 2 ^ 48 }
    ensures { result ≡ unsigned_abs mult * unsigned_abs coef }
{
    u128::from(mult.unsigned_abs()) * coef.unsigned_abs()
}
