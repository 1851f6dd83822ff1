//! The cheapest of the starting plans.

ghost use Rattle.std.specs.Prelude.{◌≡◌, ◌≤◌, ◌*◌, ◌^◌, IfSome, unsigned_abs};
ghost use Rattle.pool_model.specs.Network.{net_of, IsLimited};
ghost use Rattle.pool_model.specs.Starting.{StartObeys, start_cost as start_cost_of, starts};
ghost use Rattle.start_ways.specs.Cheapest.{IsFirstLeast, better as better_of, is_cheaper as is_cheaper_than};

use crate::cost::start_cost;
use blend_network::Network;

/// The number of a starting plan, in the order in which ties are settled, and what it costs in picos.
#[derive(Clone, Copy, Debug)]
pub struct Choice {
    pub number: u32,
    pub cost: i128,
}

/// The first of the cheapest among the starting plans that obey.
pub fn cheapest(net: &Network) -> Option<Choice>
    // Promise: Of the numbers whose starting plans obey, the first of those that cost least is found; none only where none obeys
    ensures least { IsFirstLeast (StartObeys (net_of net.now)) (start_cost_of (net_of net.now)) (starts (net_of net.now)) result }
    ensures size { IfSome result (λ best. unsigned_abs best.cost ≤ 4 * 10 ^ 24) }
    ensures limited { IsLimited (net_of net.now) }
{
    let directs = net.sizes().directs;
    let starts = 1 + net.paths() + directs;
    let mut best = None;
    for number in 0..starts {
        best = better(best, number, start_cost(net, number));
    }
    best
}

/// The best so far, or the starting plan of this number, where it obeys and costs less.
fn better(best: Option<Choice>, number: u32, cost: Option<i128>) -> Option<Choice>
    ensures { result ≡ better_of best number cost }
{
    match cost {
        Some(cost) if is_cheaper(cost, best) => Some(Choice { number, cost }),
        _ => best,
    }
}

/// Whether it costs less than the best so far, if there is one.
fn is_cheaper(cost: i128, best: Option<Choice>) -> bool
    ensures { result ≡ is_cheaper_than best cost }
{
    match best {
        None => true,
        Some(best) => cost < best.cost,
    }
}
