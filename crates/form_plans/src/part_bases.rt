//! The least base over which each feed's part of what its pool sends is a whole number.

ghost use Rattle.std.specs.Prelude.{◌≡◌, ℕ, ◌*◌, ◌<◌, ◌≤◌, ◌^◌, IfNone, IfSome, get_or, length};
ghost use Rattle.integers.specs.Numbers.{numbers_at};
ghost use Rattle.pool_model.specs.Network.{IsLimited, net_of};
ghost use Rattle.pool_model.specs.Plan.{Carries};
ghost use Rattle.program_model.specs.LeastBases.{IsLeastPartBase};
ghost use Rattle.form_plans.specs.Divisors.{IsDivisorOf};
ghost use Rattle.point_checks.specs.Flows.{AreFlows, flows_plan};
ghost use Rattle.form_plans.specs.Parts.{AreTooFineParts, IsPoolBase};

use crate::divisors::{gcd, lcm};
use blend_network::{Key, Network};
use point_checks::{Flows, sum_at_node};

/// The greatest base of a written plan.
const MAX_BASE: u128 = 1_048_576;

/// The least base over which all parts are whole, if it is within the limit of written plans. It is the least common multiple, over
/// the pools that send something, of what a pool sends over the common divisor of that and what its feeds bring.
pub fn part_base(net: &Network, flows: &Flows) -> Option<u32>
    requires flows { AreFlows (net_of net.now) flows.now }
    requires carries { Carries (net_of net.now) (flows_plan flows.now) }
    // Promise: The base of parts is the least that makes them whole, and there is none exactly where each such base is above 1,048,576
    ensures least { IfSome result (IsLeastPartBase (net_of net.now) (flows_plan flows.now)) }
    // Promise: The base of parts is the least that makes them whole, and there is none exactly where each such base is above 1,048,576
    ensures small { IfSome result (λ base. base ≤ 1048576) }
    // Promise: The base of parts is the least that makes them whole, and there is none exactly where each such base is above 1,048,576
    ensures too_fine { IfNone result (AreTooFineParts (net_of net.now) (flows_plan flows.now)) }
{
    let counts = net.sizes();
    let mut least = 1;
    for pool in 0..counts.pools {
        least = lcm(least, pool_base(net, flows, pool));
        if least > MAX_BASE {
            return None;
        }
    }
    Some(least as u32)
}

/// The least base over which the parts of a pool's feeds are whole.
fn pool_base(net: &Network, flows: &Flows, pool: u32) -> u128
    requires limited { IsLimited (net_of net.now) }
    requires flows { AreFlows (net_of net.now) flows.now }
    requires carries { Carries (net_of net.now) (flows_plan flows.now) }
    requires pool { pool < (net_of net.now).pools }
    ensures least { IsPoolBase (net_of net.now) (flows_plan flows.now) pool result }
    ensures small { result ≤ 2 ^ 92 }
{
    let sent = sum_at_node(net, Key::OutsFrom, pool, flows.outs);
    if sent == 0 {
        return 1;
    }
    sent / pool_divisor(net, flows.feeds, pool, sent)
}

/// The greatest common divisor of what a pool sends and what each of its feeds brings.
fn pool_divisor(net: &Network, feeds: &[u128], pool: u32, sent: u128) -> u128
    requires long { length feeds.now ≡ (net_of net.now).feeds }
    requires pool { pool < (net_of net.now).pools }
    requires positive { 0 < sent }
    ensures { let numbers = numbers_at (net_of net.now).feed_pool pool (net_of net.now).feeds in
        IsDivisorOf sent (λ i. get_or feeds.now (get_or numbers i 0) 0) (length numbers) result }
{
    let mut divisor = sent;
    for feed in net.numbers_at(Key::FeedsInto, pool) {
        divisor = gcd(feeds[*feed as usize], divisor);
    }
    divisor
}
