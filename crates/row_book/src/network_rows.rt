//! The rows of the network, which every form has.

ghost use Rattle.std.specs.Prelude.{◌≡◌, ◌<◌, ◌≤◌};
ghost use Rattle.pool_model.specs.Network.{IsLimited, Net, net_of};
ghost use Rattle.row_model.specs.Catalogue.{network_families, row_count, row_in, source_row, balance_row, pool_row, maximum_row, minimum_row};
ghost use Rattle.box_space.specs.Tables.{row_of, IsTable};

use blend_network::{Key, Network};
use box_space::{Block, Factor, RowKind, RowTable, Terms};

/// How many rows of the network there are.
pub(crate) fn count(net: &Network) -> u32
    ensures count { result ≡ row_count (network_families (net_of net.now)) }
    ensures small { result ≤ 224 }
    ensures limited { IsLimited (net_of net.now) }
{
    let counts = net.sizes();
    counts.sources + (counts.pools + (counts.pools + (counts.products + counts.products)))
}

/// The row of a number: sources, pools twice, products twice.
pub(crate) fn table_at(net: &Network, n: u32) -> RowTable
    requires { n < row_count (network_families (net_of net.now)) }
    ensures row { row_of (net_of net.now) result ≡ row_in (network_families (net_of net.now)) n }
    ensures table { IsTable (net_of net.now) result }
{
    let counts = net.sizes();
    if n < counts.sources {
        return source(net, n);
    }
    let n = n - counts.sources;
    if n < counts.pools {
        return balance(n);
    }
    let n = n - counts.pools;
    if n < counts.pools {
        return pool(net, n);
    }
    let n = n - counts.pools;
    if n < counts.products {
        return maximum(net, n);
    }
    let n = n - counts.products;
    minimum(net, n)
}

/// A source sends no more than its maximum.
fn source(net: &Network, source: u32) -> RowTable
    requires { source < (net_of net.now).sources }
    ensures row { row_of (net_of net.now) result ≡ source_row (net_of net.now) source }
    ensures table { IsTable (net_of net.now) result }
{
    RowTable {
        kind: RowKind::AtLeast,
        terms: [
            Terms::All(Block::Feeds, Key::FeedsFrom, source, Factor::Same(-1)),
            Terms::All(Block::Directs, Key::DirectsFrom, source, Factor::Same(-1)),
            Terms::Nothing,
        ],
        constant: net.source_max(source).into(),
    }
}

/// What flows into a pool flows out of it.
fn balance(pool: u32) -> RowTable
    ensures row { (n : Net) → row_of n result ≡ balance_row n pool }
    ensures table { (n : Net) → pool < n.pools → IsTable n result }
{
    RowTable {
        kind: RowKind::Equal,
        terms: [
            Terms::All(Block::Feeds, Key::FeedsInto, pool, Factor::Same(1)),
            Terms::All(Block::Outs, Key::OutsFrom, pool, Factor::Same(-1)),
            Terms::Nothing,
        ],
        constant: 0,
    }
}

/// No more flows through a pool than its maximum.
fn pool(net: &Network, pool: u32) -> RowTable
    requires { pool < (net_of net.now).pools }
    ensures row { row_of (net_of net.now) result ≡ pool_row (net_of net.now) pool }
    ensures table { IsTable (net_of net.now) result }
{
    RowTable {
        kind: RowKind::AtLeast,
        terms: [
            Terms::All(Block::Outs, Key::OutsFrom, pool, Factor::Same(-1)),
            Terms::Nothing,
            Terms::Nothing,
        ],
        constant: net.pool_max(pool).into(),
    }
}

/// A product takes no more than its maximum.
fn maximum(net: &Network, product: u32) -> RowTable
    requires { product < (net_of net.now).products }
    ensures row { row_of (net_of net.now) result ≡ maximum_row (net_of net.now) product }
    ensures table { IsTable (net_of net.now) result }
{
    RowTable {
        kind: RowKind::AtLeast,
        terms: [
            Terms::All(Block::Outs, Key::OutsInto, product, Factor::Same(-1)),
            Terms::All(Block::Directs, Key::DirectsInto, product, Factor::Same(-1)),
            Terms::Nothing,
        ],
        constant: net.product_max(product).into(),
    }
}

/// A product takes no less than its minimum.
fn minimum(net: &Network, product: u32) -> RowTable
    requires { product < (net_of net.now).products }
    ensures row { row_of (net_of net.now) result ≡ minimum_row (net_of net.now) product }
    ensures table { IsTable (net_of net.now) result }
{
    RowTable {
        kind: RowKind::AtLeast,
        terms: [
            Terms::All(Block::Outs, Key::OutsInto, product, Factor::Same(1)),
            Terms::All(Block::Directs, Key::DirectsInto, product, Factor::Same(1)),
            Terms::Nothing,
        ],
        constant: -i128::from(net.product_min(product)),
    }
}
