//! The variables of the programs: by number and by name, their ends in a box and their costs.

ghost use Rattle.std.specs.Prelude.{◌≡◌, ◌<◌, ◌≤◌, ◌*◌, ◌^◌, pos, ◌+ℤ◌, ◌-ℤ◌, ◌*ℤ◌, unsigned_abs};
ghost use Rattle.std.specs.Int.{int_min, int_max};
ghost use Rattle.pool_model.specs.Network.{net_of, IsLimited};
ghost use Rattle.row_model.specs.Variables.{PerVariable, variables, by_number, lows, highs, costs, least_product, greatest_product};
ghost use Rattle.box_space.specs.Variables.{at_variable, IsVariable};
ghost use Rattle.box_space.specs.Views.{IsView, shown_box};

use crate::boxes::BoxView;
use crate::capped::capped;
use crate::numbers::{flow_coordinate, grid, quality_coordinate};
use blend_network::Network;

/// A variable of the programs.
#[derive(Clone, Copy, Debug)]
pub enum Variable {
    /// What flows along a feed.
    Feed(u32),
    /// What flows along an out.
    Out(u32),
    /// What flows along a direct.
    Direct(u32),
    /// What flows along a path.
    Path(u32),
    /// A feed's proportion in its pool.
    Proportion(u32),
    /// A pool's quality, by pool and quality.
    Quality(u32, u32),
    /// A quality of an out's pool times what flows along the out, by out and quality.
    Mixed(u32, u32),
}

/// How many variables there are.
pub fn vars(net: &Network) -> u32
    ensures count { result ≡ variables (net_of net.now) }
    ensures small { result ≤ 4096 }
    ensures limited { IsLimited (net_of net.now) }
{
    let counts = net.sizes();
    let mixed = grid(counts.outs, counts.qualities);
    counts.feeds
        + (counts.outs
            + (counts.directs
                + (counts.paths + (counts.feeds + (grid(counts.pools, counts.qualities) + mixed)))))
}

/// The variable of a number.
pub fn variable_at(net: &Network, var: u32) -> Variable
    requires { var < variables (net_of net.now) }
    ensures same { (a : PerVariable) → by_number (net_of net.now) a var ≡ at_variable a result }
    ensures among { IsVariable (net_of net.now) result }
{
    let counts = net.sizes();
    let qualities = grid(counts.pools, counts.qualities);
    if var < counts.feeds {
        return Variable::Feed(var);
    }
    let var = var - counts.feeds;
    if var < counts.outs {
        return Variable::Out(var);
    }
    let var = var - counts.outs;
    if var < counts.directs {
        return Variable::Direct(var);
    }
    let var = var - counts.directs;
    if var < counts.paths {
        return Variable::Path(var);
    }
    let var = var - counts.paths;
    if var < counts.feeds {
        return Variable::Proportion(var);
    }
    let var = var - counts.feeds;
    if var < qualities {
        return Variable::Quality(var / counts.qualities, var % counts.qualities);
    }
    let var = var - qualities;
    Variable::Mixed(var / counts.qualities, var % counts.qualities)
}

/// What a unit of a variable costs, in picos a millionth.
pub fn var_cost(net: &Network, var: u32) -> i64
    requires { var < variables (net_of net.now) }
    // Promise: Coordinates, the root box, ends and costs of variables are the definitions'
    ensures small { unsigned_abs result ≤ 3 * 10 ^ 12 }
    ensures cost { result ≡ by_number (net_of net.now) (costs (net_of net.now)) var }
{
    cost_of(net, variable_at(net, var))
}

fn cost_of(net: &Network, variable: Variable) -> i64
    requires { IsVariable (net_of net.now) variable }
    ensures small { unsigned_abs result ≤ 3 * 10 ^ 12 }
    ensures cost { result ≡ at_variable (costs (net_of net.now)) variable }
{
    match variable {
        Variable::Feed(feed) => {
            let (source, _) = net.feed(feed);
            delivered(net.source_cost(source), net.feed_cost(feed))
        }
        Variable::Out(out) => {
            let (_, product) = net.out(out);
            margin(net.out_cost(out), net.product_price(product))
        }
        Variable::Direct(direct) => {
            let (source, product) = net.direct(direct);
            let cost = delivered(net.source_cost(source), net.direct_cost(direct));
            margin(cost, net.product_price(product))
        }
        _ => 0,
    }
}

/// What a unit costs at its source and along an arc.
fn delivered(source: i64, arc: i64) -> i64
    requires source { unsigned_abs source ≤ 10 ^ 12 }
    requires arc { unsigned_abs arc ≤ 10 ^ 12 }
    ensures value { result ≡ source +ℤ arc }
    ensures size { unsigned_abs result ≤ 2 * 10 ^ 12 }
{
    source + arc
}

/// A cost less a price.
fn margin(cost: i64, price: i64) -> i64
    requires cost { unsigned_abs cost ≤ 2 * 10 ^ 12 }
    requires price { unsigned_abs price ≤ 10 ^ 12 }
    ensures value { result ≡ cost -ℤ price }
    ensures size { unsigned_abs result ≤ 3 * 10 ^ 12 }
{
    cost - price
}

/// The least and the greatest that a variable may be in a box.
pub fn var_ends(net: &Network, v: &BoxView, var: u32) -> (i128, i128)
    requires view { IsView (net_of net.now) v.now }
    requires var { var < variables (net_of net.now) }
    // Promise: Coordinates, the root box, ends and costs of variables are the definitions'
    ensures low { result.0 ≡ by_number (net_of net.now) (lows (net_of net.now) (shown_box v.now)) var }
    ensures high { result.1 ≡ by_number (net_of net.now) (highs (net_of net.now) (shown_box v.now)) var }
{
    ends_of(net, v, variable_at(net, var))
}

fn ends_of(net: &Network, v: &BoxView, variable: Variable) -> (i128, i128)
    requires view { IsView (net_of net.now) v.now }
    requires among { IsVariable (net_of net.now) variable }
    ensures low { result.0 ≡ at_variable (lows (net_of net.now) (shown_box v.now)) variable }
    ensures high { result.1 ≡ at_variable (highs (net_of net.now) (shown_box v.now)) variable }
{
    match variable {
        Variable::Feed(feed) => {
            let (source, pool) = net.feed(feed);
            let nodes = net.source_max(source).min(net.pool_max(pool));
            (0, capped(net.feed_max(feed), nodes).into())
        }
        Variable::Out(out) => {
            let flow = flow_coordinate(net, out);
            (v.low_at(flow).into(), v.high_at(flow).into())
        }
        Variable::Direct(direct) => {
            let (source, product) = net.direct(direct);
            let nodes = net.source_max(source).min(net.product_max(product));
            (0, capped(net.direct_max(direct), nodes).into())
        }
        Variable::Path(path) => {
            let (feed, out) = net.path(path);
            let (source, _) = net.feed(feed);
            let flow = flow_coordinate(net, out);
            let sent = capped(net.feed_max(feed), net.source_max(source));
            (0, least_of(sent, v.high_at(flow)))
        }
        Variable::Proportion(feed) => (v.low_at(feed).into(), v.high_at(feed).into()),
        Variable::Quality(pool, quality) => {
            let held = quality_coordinate(net, pool, quality);
            (v.low_at(held).into(), v.high_at(held).into())
        }
        Variable::Mixed(out, quality) => mixed_ends(net, v, out, quality),
    }
}

/// The lesser of two numbers.
fn least_of(a: i64, b: i64) -> i128
    ensures { result ≡ int_min a b }
{
    a.min(b).into()
}

/// The ends of a quality times a flow.
fn mixed_ends(net: &Network, v: &BoxView, out: u32, quality: u32) -> (i128, i128)
    requires view { IsView (net_of net.now) v.now }
    requires out { out < (net_of net.now).outs }
    requires quality { quality < (net_of net.now).qualities }
    ensures low { result.0 ≡ (lows (net_of net.now) (shown_box v.now)).mixed out quality }
    ensures high { result.1 ≡ (highs (net_of net.now) (shown_box v.now)).mixed out quality }
{
    let (pool, _) = net.out(out);
    let held = quality_coordinate(net, pool, quality);
    let flow = flow_coordinate(net, out);
    products(
        v.low_at(held),
        v.high_at(held),
        v.low_at(flow),
        v.high_at(flow),
    )
}

/// The least and the greatest of the products of two numbers between their ends.
fn products(a_low: i64, a_high: i64, b_low: i64, b_high: i64) -> (i128, i128)
    ensures low { result.0 ≡ least_product a_low a_high b_low b_high }
    ensures high { result.1 ≡ greatest_product a_low a_high b_low b_high }
{
    let low_low = product(a_low, b_low);
    let low_high = product(a_low, b_high);
    let high_low = product(a_high, b_low);
    let high_high = product(a_high, b_high);
    (
        least(least(low_low, low_high), least(high_low, high_high)),
        greatest(greatest(low_low, low_high), greatest(high_low, high_high)),
    )
}

fn least(a: i128, b: i128) -> i128
    ensures { result ≡ int_min a b }
{
    a.min(b)
}

fn greatest(a: i128, b: i128) -> i128
    ensures { result ≡ int_max a b }
{
    a.max(b)
}

fn product(a: i64, b: i64) -> i128
    ensures { result ≡ a *ℤ b }
{
    i128::from(a) * i128::from(b)
}
