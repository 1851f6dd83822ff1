//! The rows that form PQ has beside those of form Q (Tawarmalani and Sahinidis 2002): what flows along an out comes along its
//! paths, and a feed brings no more than its proportion of its pool's maximum.
//!
//! [`count`] says how many rows there are, and [`row`] writes one in place of what stood in the row.

ghost use Rattle.std.specs.Prelude.{◌≡◌, ◌<◌, ◌≤◌};
ghost use Rattle.pool_model.specs.Network.{Net, net_of};
ghost use Rattle.row_model.specs.Catalogue as catalogue;
ghost use Rattle.row_model.specs.Catalogue.{pq_families, row_count, row_in};
ghost use Rattle.box_space.specs.Views.{IsView, shown_box};
ghost use Rattle.box_space.specs.Written.{IsLineOf};
ghost use Rattle.box_space.specs.Tables.{row_of, IsTable};

use blend_network::{Key, Network};
use box_space::{Block, BoxView, Factor, LinRow, RowKind, RowTable, Terms};

/// How many parts a proportion is counted in.
const GRAIN: i128 = 1_048_576;

/// How many rows there are.
pub fn count(net: &Network) -> u32
    ensures count { result ≡ row_count (pq_families (net_of net.now)) }
    ensures small { result ≤ 256 }
{
    let counts = net.sizes();
    counts.outs + counts.feeds
}

/// Writes the row of a number: they are the same in every box.
pub fn row(net: &Network, n: u32, _v: &BoxView, row: &mut LinRow) -> RowKind
    requires view { IsView (net_of net.now) _v.now }
    requires among { n < row_count (pq_families (net_of net.now)) }
    // Promise: Each row of a family is the catalogue's, term by term
    ensures { IsLineOf (net_of net.now) (row_in (pq_families (net_of net.now)) n) row.new result }
{
    let table = table_at(net, n);
    row.write(net, &table)
}

/// The row of a number: first outs, then feeds.
fn table_at(net: &Network, n: u32) -> RowTable
    requires { n < row_count (pq_families (net_of net.now)) }
    ensures row { row_of (net_of net.now) result ≡ row_in (pq_families (net_of net.now)) n }
    ensures table { IsTable (net_of net.now) result }
{
    let counts = net.sizes();
    if n < counts.outs {
        return out_row(n);
    }
    share_row(net, n - counts.outs)
}

/// What flows along an out comes along its paths.
fn out_row(out: u32) -> RowTable
    ensures row { (n : Net) → row_of n result ≡ catalogue.out_row n out }
    ensures table { (n : Net) → out < n.outs → IsTable n result }
{
    RowTable {
        kind: RowKind::Equal,
        terms: [
            Terms::One(Block::Outs, out, -1),
            Terms::All(Block::Paths, Key::PathsAlong, out, Factor::Same(1)),
            Terms::Nothing,
        ],
        constant: 0,
    }
}

/// A feed brings no more than its proportion of its pool's maximum.
fn share_row(net: &Network, feed: u32) -> RowTable
    requires { feed < (net_of net.now).feeds }
    ensures row { row_of (net_of net.now) result ≡ catalogue.share_row (net_of net.now) feed }
    ensures table { IsTable (net_of net.now) result }
{
    let (_, pool) = net.feed(feed);
    RowTable {
        kind: RowKind::AtLeast,
        terms: [
            Terms::All(Block::Paths, Key::PathsFrom, feed, Factor::Same(-GRAIN)),
            Terms::One(Block::Proportions, feed, net.pool_max(pool).into()),
            Terms::Nothing,
        ],
        constant: 0,
    }
}
