//! The rows that are the same in every box, as tables.

ghost use Rattle.std.specs.Prelude.{◌≡◌, ◌+◌, ◌<◌, ◌≤◌, ◌^◌, length, unsigned_abs};
ghost use Rattle.pool_model.specs.Network.{Net, net_of};
ghost use Rattle.pool_model.specs.Limits.{most_limits, least_limits};
ghost use Rattle.row_model.specs.Boxes.{Box};
ghost use Rattle.row_model.specs.Catalogue.{q_families, row_in, proportions_row, feed_row, path_most_row, path_least_row};
ghost use Rattle.blend_network.specs.Views.{shown_limit};
ghost use Rattle.box_space.specs.Tables.{row_of, IsTable};

use crate::limits::in_parts;
use blend_network::{Key, Limit, LimitSide, Network};
use box_space::{Block, Factor, Rate, RowKind, RowTable, Terms};

/// How many parts a proportion is counted in.
const GRAIN: i128 = 1_048_576;

/// How many of the rows are the same in every box: those before the envelopes.
pub fn exact_rows(net: &Network) -> u32
    ensures count { result ≡ (net_of net.now).pools + ((net_of net.now).feeds + (length (most_limits (net_of net.now)) + length (least_limits (net_of net.now)))) }
    ensures small { result ≤ 1296 }
{
    let counts = net.sizes();
    counts.pools
        + (counts.feeds + (net.count_limits(LimitSide::Most) + net.count_limits(LimitSide::Least)))
}

/// The row of a number: first proportions by pool, then feeds, and limits.
pub(crate) fn table_at(net: &Network, n: u32) -> RowTable
    requires { n < (net_of net.now).pools + ((net_of net.now).feeds + (length (most_limits (net_of net.now)) + length (least_limits (net_of net.now)))) }
    ensures row { (b : Box) → row_of (net_of net.now) result ≡ row_in (q_families (net_of net.now) b) n }
    ensures table { IsTable (net_of net.now) result }
{
    let counts = net.sizes();
    if n < counts.pools {
        return proportions(n);
    }
    let n = n - counts.pools;
    if n < counts.feeds {
        return feed(n);
    }
    let n = n - counts.feeds;
    let most = net.count_limits(LimitSide::Most);
    if n < most {
        return path_most(net, net.limit_at(LimitSide::Most, n));
    }
    path_least(net, net.limit_at(LimitSide::Least, n - most))
}

/// The proportions of a pool's feeds sum to 1.
fn proportions(pool: u32) -> RowTable
    ensures row { (n : Net) → row_of n result ≡ proportions_row n pool }
    ensures table { (n : Net) → pool < n.pools → IsTable n result }
{
    RowTable {
        kind: RowKind::Equal,
        terms: [
            Terms::All(Block::Proportions, Key::FeedsInto, pool, Factor::Same(1)),
            Terms::Nothing,
            Terms::Nothing,
        ],
        constant: -GRAIN,
    }
}

/// What a feed brings goes along its paths.
fn feed(feed: u32) -> RowTable
    ensures row { (n : Net) → row_of n result ≡ feed_row n feed }
    ensures table { (n : Net) → feed < n.feeds → IsTable n result }
{
    RowTable {
        kind: RowKind::Equal,
        terms: [
            Terms::One(Block::Feeds, feed, 1),
            Terms::All(Block::Paths, Key::PathsFrom, feed, Factor::Same(-1)),
            Terms::Nothing,
        ],
        constant: 0,
    }
}

/// A product's mean of a quality is at most its limit.
fn path_most(net: &Network, u: Limit) -> RowTable
    requires quality { u.quality < (net_of net.now).qualities }
    requires product { u.product < (net_of net.now).products }
    requires limit { unsigned_abs u.limit ≤ 10 ^ 11 }
    ensures row { row_of (net_of net.now) result ≡ path_most_row (net_of net.now) (shown_limit u) }
    ensures table { IsTable (net_of net.now) result }
{
    let limit = in_parts(net, u);
    let room = Factor::OfQuality(u.quality, Rate::Below(limit));
    let brought = Factor::OfQuality(u.quality, Rate::Less);
    RowTable {
        kind: RowKind::AtLeast,
        terms: [
            Terms::All(
                Block::Outs,
                Key::OutsInto,
                u.product,
                Factor::Same(limit.into()),
            ),
            Terms::All(Block::Directs, Key::DirectsInto, u.product, room),
            Terms::All(Block::Paths, Key::PathsInto, u.product, brought),
        ],
        constant: 0,
    }
}

/// A product's mean of a quality is at least its limit.
fn path_least(net: &Network, u: Limit) -> RowTable
    requires quality { u.quality < (net_of net.now).qualities }
    requires product { u.product < (net_of net.now).products }
    requires limit { unsigned_abs u.limit ≤ 10 ^ 11 }
    ensures row { row_of (net_of net.now) result ≡ path_least_row (net_of net.now) (shown_limit u) }
    ensures table { IsTable (net_of net.now) result }
{
    let limit = in_parts(net, u);
    let room = Factor::OfQuality(u.quality, Rate::Above(limit));
    let brought = Factor::OfQuality(u.quality, Rate::Plain);
    RowTable {
        kind: RowKind::AtLeast,
        terms: [
            Terms::All(
                Block::Outs,
                Key::OutsInto,
                u.product,
                Factor::Same(-i128::from(limit)),
            ),
            Terms::All(Block::Directs, Key::DirectsInto, u.product, room),
            Terms::All(Block::Paths, Key::PathsInto, u.product, brought),
        ],
        constant: 0,
    }
}
