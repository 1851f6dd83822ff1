//! Whether flows are small enough to be added up, and within the maxima of their arcs.

ghost use Rattle.std.specs.Prelude.{◌≡◌, ◌*◌, ◌<◌, ◌≤◌, ◌^◌, ◌↔◌, IsTrue, length};
ghost use Rattle.pool_model.specs.Network.{net_of};
ghost use Rattle.point_checks.specs.Flows.{FlowsFit};
ghost use Rattle.point_checks.specs.Sizes.{AreAtMost};

use crate::maxima::keep_maxima;
use blend_network::Network;

/// The most that flows anywhere, in millionths.
const MAX_FLOW: u128 = 100_000_000_000_000;

/// Whether no flow of feeds `x`, outs `y` and directs `z` is above 10^14 millionths, counted over the base, and none on an arc with a
/// maximum is above base times that maximum. It takes no memory.
pub fn flows_fit(net: &Network, base: u64, x: &[u128], y: &[u128], z: &[u128]) -> bool
    requires base { base ≤ 2 ^ 36 }
    requires feeds { length x.now ≡ (net_of net.now).feeds }
    requires outs { length y.now ≡ (net_of net.now).outs }
    requires directs { length z.now ≡ (net_of net.now).directs }
    // Promise: Flows fit exactly where none is above 10^14 millionths, and none on an arc with a maximum is above base times that maximum
    ensures { IsTrue result ↔ FlowsFit (net_of net.now) base x.now y.now z.now }
{
    let most = most_flow(base);
    let small = are_at_most(x, most) && are_at_most(y, most) && are_at_most(z, most);
    small && keep_maxima(net, base, x, y, z)
}

/// The most that flows anywhere, over a base.
pub fn most_flow(base: u64) -> u128
    requires { base ≤ 2 ^ 36 }
    ensures { result ≡ base * 10 ^ 14 }
{
    u128::from(base) * MAX_FLOW
}

/// Whether no number is above another.
pub fn are_at_most(flows: &[u128], most: u128) -> bool
    ensures { IsTrue result ↔ AreAtMost most flows.now }
{
    flows.iter().all(|flow| *flow <= most)
}

/// Whether no proportion is above another.
pub fn are_proportions(proportions: &[u32], most: u32) -> bool
    ensures { IsTrue result ↔ AreAtMost most proportions.now }
{
    proportions.iter().all(|part| *part <= most)
}
