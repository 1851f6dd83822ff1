//! The numbering of all rows.

ghost use Rattle.std.specs.Prelude.{◌≡◌, ◌<◌, ◌≤◌, ◌↔◌, IsTrue};
ghost use Rattle.pool_model.specs.Network.{net_of, IsLimited};
ghost use Rattle.row_model.specs.Catalogue as catalogue;
ghost use Rattle.box_space.specs.Views.{IsView, shown_box, shown_kind};
ghost use Rattle.box_space.specs.Written.{IsLineOf};
ghost use Rattle.row_book.specs.Groups.{IsPlaced, takes, group_of, row_by};
ghost use Rattle.row_book.specs.PartRows.{kind_at, IsRow};

use crate::network_rows;
use blend_network::Network;
use box_space::{BoxView, Form, LinRow, RowKind};
use formulations::{p, pq, q};

/// The groups of rows, in the order of their numbers.
#[derive(Clone, Copy, Debug)]
pub enum Group {
    /// The rows of the network, which every form has.
    Network,
    /// Those of form P.
    P,
    /// Those of form Q, which PQ has too.
    Q,
    /// Those that form PQ has beside them.
    Further,
}

/// How many rows there are.
pub fn rows(net: &Network) -> u32
    // Promise: A network has as many rows as its catalogue
    ensures count { result ≡ catalogue.rows (net_of net.now) }
    // Promise: A network has 13,424 rows at most
    ensures few { result ≤ 13424 }
    ensures limited { IsLimited (net_of net.now) }
{
    network_rows::count(net) + (p::count(net) + (q::count(net) + pq::count(net)))
}

/// The group of a row, and its number there.
fn place_of(net: &Network, id: u32) -> (Group, u32)
    requires { id < catalogue.rows (net_of net.now) }
    ensures placed { IsPlaced (net_of net.now) id result.0 result.1 }
    ensures limited { IsLimited (net_of net.now) }
{
    let network = network_rows::count(net);
    if id < network {
        return (Group::Network, id);
    }
    let id = id - network;
    let by_quality = p::count(net);
    if id < by_quality {
        return (Group::P, id);
    }
    let id = id - by_quality;
    let by_proportion = q::count(net);
    if id < by_proportion {
        return (Group::Q, id);
    }
    (Group::Further, id - by_proportion)
}

/// Whether a form has the row of a number. It has none past the last row.
pub fn in_form(net: &Network, form: Form, id: u32) -> bool
    // Promise: A number is that of a row of a form exactly where the catalogue says so
    ensures { IsTrue result ↔ ((id < catalogue.rows (net_of net.now)) × IsTrue (takes form (group_of (net_of net.now) id))) }
{
    id < rows(net) && has(form, place_of(net, id).0)
}

fn has(form: Form, group: Group) -> bool
    ensures { result ≡ takes form group }
{
    match (form, group) {
        (_, Group::Network) => true,
        (Form::P, Group::P) => true,
        (Form::Q | Form::Pq, Group::Q) => true,
        (Form::Pq, Group::Further) => true,
        _ => false,
    }
}

/// Writes the row of a number in a box, in place of what stood in the row: terms by rising variable, each variable once. It
/// costs what the row's terms cost: nothing that grows with the network besides.
pub fn row_at(net: &Network, v: &BoxView, id: u32, row: &mut LinRow) -> RowKind
    requires view { IsView (net_of net.now) v.now }
    requires known { id < catalogue.rows (net_of net.now) }
    // Promise: The row of a number is of its kind in the catalogue
    ensures kind { shown_kind result ≡ kind_at (net_of net.now) (shown_box v.now) id }
    // Promise: The row of a number is the catalogue's, the network's own rows among them
    ensures written { IsRow (net_of net.now) (shown_box v.now) id row.new }
{
    written(net, v, id, row)
}

/// Writes the row of a number, by its group.
fn written(net: &Network, v: &BoxView, id: u32, row: &mut LinRow) -> RowKind
    requires view { IsView (net_of net.now) v.now }
    requires known { id < catalogue.rows (net_of net.now) }
    ensures line { IsLineOf (net_of net.now) (row_by (net_of net.now) (shown_box v.now) id) row.new result }
    ensures limited { IsLimited (net_of net.now) }
{
    let (group, n) = place_of(net, id);
    match group {
        Group::Network => row.write(net, &network_rows::table_at(net, n)),
        Group::P => p::row(net, n, v, row),
        Group::Q => q::row(net, n, v, row),
        Group::Further => pq::row(net, n, v, row),
    }
}
