//! Whether flows keep within the maxima of their arcs.

ghost use Rattle.std.specs.Prelude.{◌≡◌, ℕ, ◌<◌, ◌↔◌, IsTrue, get_or, length};
ghost use Rattle.pool_model.specs.Network.{net_of};
ghost use Rattle.pool_model.specs.Plan.{KeepsMaxima};
ghost use Rattle.point_checks.specs.Flows.{IsWithinMaximum, KeepsMaximum, plan_over};

use crate::sums::room;
use blend_network::Network;

/// Whether no arc with a maximum carries more, by feeds `x`, outs `y` and directs `z` over a base.
pub(crate) fn keep_maxima(net: &Network, base: u64, x: &[u128], y: &[u128], z: &[u128]) -> bool
    requires feeds { length x.now ≡ (net_of net.now).feeds }
    requires outs { length y.now ≡ (net_of net.now).outs }
    requires directs { length z.now ≡ (net_of net.now).directs }
    ensures { IsTrue result ↔ KeepsMaxima (net_of net.now) (plan_over base x.now y.now z.now) }
{
    feeds_keep(net, base, x) && outs_keep(net, base, y) && directs_keep(net, base, z)
}

fn feeds_keep(net: &Network, base: u64, flows: &[u128]) -> bool
    requires { length flows.now ≡ (net_of net.now).feeds }
    ensures { IsTrue result ↔ ((e : ℕ) → e < (net_of net.now).feeds → KeepsMaximum ((net_of net.now).feed_max e) base (get_or flows.now e 0)) }
{
    (0..net.sizes().feeds).all(|feed| feed_keeps(net, base, flows, feed))
}

fn feed_keeps(net: &Network, base: u64, flows: &[u128], feed: u32) -> bool
    requires long { length flows.now ≡ (net_of net.now).feeds }
    requires feed { feed < (net_of net.now).feeds }
    ensures { IsTrue result ↔ KeepsMaximum ((net_of net.now).feed_max feed) base (get_or flows.now feed 0) }
{
    keeps(net.feed_max(feed), base, flows[feed as usize])
}

fn outs_keep(net: &Network, base: u64, flows: &[u128]) -> bool
    requires { length flows.now ≡ (net_of net.now).outs }
    ensures { IsTrue result ↔ ((o : ℕ) → o < (net_of net.now).outs → KeepsMaximum ((net_of net.now).out_max o) base (get_or flows.now o 0)) }
{
    (0..net.sizes().outs).all(|out| out_keeps(net, base, flows, out))
}

fn out_keeps(net: &Network, base: u64, flows: &[u128], out: u32) -> bool
    requires long { length flows.now ≡ (net_of net.now).outs }
    requires out { out < (net_of net.now).outs }
    ensures { IsTrue result ↔ KeepsMaximum ((net_of net.now).out_max out) base (get_or flows.now out 0) }
{
    keeps(net.out_max(out), base, flows[out as usize])
}

fn directs_keep(net: &Network, base: u64, flows: &[u128]) -> bool
    requires { length flows.now ≡ (net_of net.now).directs }
    ensures { IsTrue result ↔ ((e : ℕ) → e < (net_of net.now).directs → KeepsMaximum ((net_of net.now).direct_max e) base (get_or flows.now e 0)) }
{
    (0..net.sizes().directs).all(|direct| direct_keeps(net, base, flows, direct))
}

fn direct_keeps(net: &Network, base: u64, flows: &[u128], direct: u32) -> bool
    requires long { length flows.now ≡ (net_of net.now).directs }
    requires direct { direct < (net_of net.now).directs }
    ensures { IsTrue result ↔ KeepsMaximum ((net_of net.now).direct_max direct) base (get_or flows.now direct 0) }
{
    keeps(net.direct_max(direct), base, flows[direct as usize])
}

/// Whether a flow over a base is within the maximum of its arc, if it has one.
fn keeps(max: Option<i64>, base: u64, flow: u128) -> bool
    ensures { IsTrue result ↔ IsWithinMaximum max base flow }
{
    match max {
        None => true,
        Some(most) => flow <= room(base, most),
    }
}
