//! The parts of a proof's number: what each variable costs still, and the sums over them.

ghost use Rattle.std.specs.Prelude.{◌≡◌, ℕ, ◌+◌, ◌*◌, ◌^◌, ◌<◌, ◌≤◌, length, get_or, max, pos, ◌+ℤ◌, ◌-ℤ◌, ◌*ℤ◌, unsigned_abs};
ghost use Rattle.std.specs.Int.{int_min};
ghost use Rattle.integers.specs.Sums.{int_sum_below};
ghost use Rattle.pool_model.specs.Network.{net_of};
ghost use Rattle.row_model.specs.Variables.{variables, by_number, costs, lows, highs};
ghost use Rattle.box_space.specs.Views.{shown_box, IsView};
ghost use Rattle.row_book.specs.Sizes as sizes;

use blend_network::Network;
use box_space::{BoxView, var_cost, var_ends, vars};

/// Writes the scaled cost of each variable over zeros. Only the flows, which have the first numbers, cost anything.
pub(crate) fn fill_costs(net: &Network, scale: u64, rests: &mut [i128])
    requires places { length rests.old ≡ variables (net_of net.now) }
    requires zero { (i : ℕ) → i < variables (net_of net.now) → get_or rests.old i (pos 0) ≡ pos 0 }
    ensures costs { (i : ℕ) → i < variables (net_of net.now) → get_or rests.new i (pos 0) ≡ pos scale *ℤ by_number (net_of net.now) (costs (net_of net.now)) i }
    ensures small { (i : ℕ) → i < variables (net_of net.now) → unsigned_abs (get_or rests.new i (pos 0)) ≤ 2 ^ 112 }
{
    for var in 0..flows(net) {
        rests[var as usize] = scaled(scale, var_cost(net, var));
    }
}

/// How many flows there are.
fn flows(net: &Network) -> u32
    ensures count { result ≡ (net_of net.now).feeds + ((net_of net.now).outs + (net_of net.now).directs) }
    ensures among { result ≤ variables (net_of net.now) }
{
    let counts = net.sizes();
    counts.feeds + (counts.outs + counts.directs)
}

/// The sum over all variables of the least that a rest makes between the variable's ends.
pub(crate) fn sum_of_ends(net: &Network, v: &BoxView, rests: &[i128]) -> i128
    requires view { IsView (net_of net.now) v.now }
    requires places { length rests.now ≡ variables (net_of net.now) }
    requires room { sizes.rests_weight (net_of net.now) (shown_box v.now) rests.now (variables (net_of net.now)) ≤ 2 ^ 126 }
    ensures { let n = net_of net.now in let b = shown_box v.now in result ≡ int_sum_below
        (λ i. int_min (get_or rests.now i (pos 0) *ℤ by_number n (lows n b) i) (get_or rests.now i (pos 0) *ℤ by_number n (highs n b) i)) (variables n) }
{
    let mut total: i128 = 0;
    for var in 0..vars(net) {
        total += least_at(net, v, var, rests[var as usize]);
    }
    total
}

/// The least that a rest makes between its variable's ends. Most rests are 0: those make 0 between any ends.
fn least_at(net: &Network, v: &BoxView, var: u32, rest: i128) -> i128
    requires view { IsView (net_of net.now) v.now }
    requires known { var < variables (net_of net.now) }
    requires room { unsigned_abs rest * sizes.end_size (net_of net.now) (shown_box v.now) var ≤ 2 ^ 126 }
    ensures { let n = net_of net.now in let b = shown_box v.now in
        result ≡ int_min (rest *ℤ by_number n (lows n b) var) (rest *ℤ by_number n (highs n b) var) }
{
    if rest == 0 {
        return 0;
    }
    let (low, high) = var_ends(net, v, var);
    least_product(rest, low, high)
}

/// Sets each number to 0.
pub(crate) fn clear(rests: &mut [i128])
    ensures { (i : ℕ) → i < length rests.old → get_or rests.new i (pos 0) ≡ pos 0 }
{
    for rest in rests.iter_mut() {
        *rest = 0;
    }
}

/// A scaled cost.
fn scaled(scale: u64, cost: i64) -> i128
    requires { unsigned_abs cost < 2 ^ 48 }
    ensures value { result ≡ pos scale *ℤ cost }
    ensures small { unsigned_abs result ≤ 2 ^ 112 }
{
    i128::from(scale) * i128::from(cost)
}

/// `a` less a multiplied coefficient.
pub(crate) fn less_product(a: i128, mult: i64, coef: i128) -> i128
    requires { unsigned_abs a + unsigned_abs mult * unsigned_abs coef ≤ 2 ^ 126 }
    ensures { result ≡ a -ℤ mult *ℤ coef }
{
    a - i128::from(mult) * coef
}

/// `a` and a multiplied constant.
pub(crate) fn more_product(a: i128, mult: i64, constant: i128) -> i128
    requires { unsigned_abs a + unsigned_abs mult * unsigned_abs constant ≤ 2 ^ 126 }
    ensures { result ≡ a +ℤ mult *ℤ constant }
{
    a + i128::from(mult) * constant
}

/// The least of `rest` times what lies between two ends.
fn least_product(rest: i128, low: i128, high: i128) -> i128
    requires { unsigned_abs rest * max (unsigned_abs low) (unsigned_abs high) ≤ 2 ^ 126 }
    ensures { result ≡ int_min (rest *ℤ low) (rest *ℤ high) }
{
    let at_low = product(rest, low);
    let at_high = product(rest, high);
    if at_high < at_low { at_high } else { at_low }
}

fn product(a: i128, b: i128) -> i128
    requires { unsigned_abs a * unsigned_abs b ≤ 2 ^ 126 }
    ensures { result ≡ a *ℤ b }
{
    a * b
}
