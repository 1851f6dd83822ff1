//! The rows of form P, by qualities (Haverly 1978): qualities mix in pools, products keep their limits on qualities, and a
//! pool's quality times an out's flow lies within its envelope.
//!
//! [`count`] says how many rows there are, [`exact_rows`] how many of them come before the envelopes, and [`row`] writes one, in a
//! box, in place of what stood in the row.

mod envelopes;
mod tables;

ghost use Rattle.std.specs.Prelude.{◌≡◌, ◌<◌, ◌≤◌};
ghost use Rattle.pool_model.specs.Network.{net_of};
ghost use Rattle.row_model.specs.Boxes.{Box};
ghost use Rattle.row_model.specs.Catalogue.{p_families, row_count, row_in};
ghost use Rattle.box_space.specs.Views.{IsView, shown_box};
ghost use Rattle.box_space.specs.Written.{IsLineOf};

use blend_network::Network;
use box_space::{BoxView, LinRow, RowKind};
pub use tables::exact_rows;

/// How many rows the form has: in every box as many.
pub fn count(net: &Network) -> u32
    ensures count { (b : Box) → result ≡ row_count (p_families (net_of net.now) b) }
    ensures small { result ≤ 9344 }
{
    exact_rows(net) + envelopes::count(net)
}

/// Writes the row of a number.
pub fn row(net: &Network, n: u32, v: &BoxView, row: &mut LinRow) -> RowKind
    requires view { IsView (net_of net.now) v.now }
    requires among { n < row_count (p_families (net_of net.now) (shown_box v.now)) }
    // Promise: Each row of a family is the catalogue's, term by term
    ensures { IsLineOf (net_of net.now) (row_in (p_families (net_of net.now) (shown_box v.now)) n) row.new result }
{
    let first = exact_rows(net);
    if n < first {
        let table = tables::table_at(net, n);
        return row.write(net, &table);
    }
    envelopes::write(net, n - first, v, row)
}
