//! The rows that are the same in every box, as tables.

ghost use Rattle.std.specs.Prelude.{◌≡◌, ◌+◌, ◌<◌, ◌≤◌, ◌*◌, ◌^◌, length, unsigned_abs};
ghost use Rattle.pool_model.specs.Network.{Net, net_of};
ghost use Rattle.pool_model.specs.Limits.{most_limits, least_limits};
ghost use Rattle.row_model.specs.Boxes.{Box};
ghost use Rattle.row_model.specs.Catalogue.{p_families, row_in, mixing_row, mixed_most_row, mixed_least_row};
ghost use Rattle.blend_network.specs.Views.{shown_limit};
ghost use Rattle.box_space.specs.Tables.{row_of, IsTable};

use crate::limits::in_parts;
use blend_network::{Key, Limit, LimitSide, Network};
use box_space::{Block, Factor, Rate, RowKind, RowTable, Terms};

/// How many of the rows are the same in every box: those before the envelopes.
pub fn exact_rows(net: &Network) -> u32
    ensures count { result ≡ (net_of net.now).pools * (net_of net.now).qualities + (length (most_limits (net_of net.now)) + length (least_limits (net_of net.now))) }
    ensures small { result ≤ 1152 }
{
    let counts = net.sizes();
    mixings(counts.pools, counts.qualities)
        + (net.count_limits(LimitSide::Most) + net.count_limits(LimitSide::Least))
}

/// How many mixing rows there are.
fn mixings(pools: u32, qualities: u32) -> u32
    requires pools { pools ≤ 16 }
    requires qualities { qualities ≤ 8 }
    ensures value { result ≡ pools * qualities }
    ensures small { result ≤ 128 }
{
    pools * qualities
}

/// The row of a number: first mixing by pool and quality, then limits.
pub(crate) fn table_at(net: &Network, n: u32) -> RowTable
    requires { n < (net_of net.now).pools * (net_of net.now).qualities + (length (most_limits (net_of net.now)) + length (least_limits (net_of net.now))) }
    ensures row { (b : Box) → row_of (net_of net.now) result ≡ row_in (p_families (net_of net.now) b) n }
    ensures table { IsTable (net_of net.now) result }
{
    let counts = net.sizes();
    let mixing_rows = mixings(counts.pools, counts.qualities);
    if n < mixing_rows {
        return mixing(n / counts.qualities, n % counts.qualities);
    }
    let n = n - mixing_rows;
    let most = net.count_limits(LimitSide::Most);
    if n < most {
        return mixed_most(net, net.limit_at(LimitSide::Most, n));
    }
    mixed_least(net, net.limit_at(LimitSide::Least, n - most))
}

/// The quality that flows into a pool flows out of it.
fn mixing(pool: u32, quality: u32) -> RowTable
    ensures row { (n : Net) → row_of n result ≡ mixing_row n pool quality }
    ensures table { (n : Net) → pool < n.pools → quality < n.qualities → IsTable n result }
{
    let brought = Factor::OfQuality(quality, Rate::Plain);
    RowTable {
        kind: RowKind::Equal,
        terms: [
            Terms::All(Block::Feeds, Key::FeedsInto, pool, brought),
            Terms::All(Block::Mixed(quality), Key::OutsFrom, pool, Factor::Same(-1)),
            Terms::Nothing,
        ],
        constant: 0,
    }
}

/// A product's mean of a quality is at most its limit.
fn mixed_most(net: &Network, u: Limit) -> RowTable
    requires quality { u.quality < (net_of net.now).qualities }
    requires product { u.product < (net_of net.now).products }
    requires limit { unsigned_abs u.limit ≤ 10 ^ 11 }
    ensures row { row_of (net_of net.now) result ≡ mixed_most_row (net_of net.now) (shown_limit u) }
    ensures table { IsTable (net_of net.now) result }
{
    let limit = in_parts(net, u);
    let retained = Factor::OfQuality(u.quality, Rate::Less);
    let room = Factor::OfQuality(u.quality, Rate::Below(limit));
    RowTable {
        kind: RowKind::AtLeast,
        terms: [
            Terms::All(
                Block::Outs,
                Key::OutsInto,
                u.product,
                Factor::Same(limit.into()),
            ),
            Terms::All(Block::Directs, Key::DirectsInto, u.product, room),
            Terms::All(Block::Mixed(u.quality), Key::OutsInto, u.product, retained),
        ],
        constant: 0,
    }
}

/// A product's mean of a quality is at least its limit.
fn mixed_least(net: &Network, u: Limit) -> RowTable
    requires quality { u.quality < (net_of net.now).qualities }
    requires product { u.product < (net_of net.now).products }
    requires limit { unsigned_abs u.limit ≤ 10 ^ 11 }
    ensures row { row_of (net_of net.now) result ≡ mixed_least_row (net_of net.now) (shown_limit u) }
    ensures table { IsTable (net_of net.now) result }
{
    let limit = in_parts(net, u);
    let retained = Factor::OfQuality(u.quality, Rate::Plain);
    let room = Factor::OfQuality(u.quality, Rate::Above(limit));
    RowTable {
        kind: RowKind::AtLeast,
        terms: [
            Terms::All(
                Block::Outs,
                Key::OutsInto,
                u.product,
                Factor::Same(-i128::from(limit)),
            ),
            Terms::All(Block::Directs, Key::DirectsInto, u.product, room),
            Terms::All(Block::Mixed(u.quality), Key::OutsInto, u.product, retained),
        ],
        constant: 0,
    }
}
