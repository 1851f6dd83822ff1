//! The sides of the envelopes of proportions times flows.

ghost use Rattle.std.specs.Prelude.{◌≡◌, ◌+◌, ◌/◌, ◌%◌, ◌<◌, ◌≤◌, ◌*◌};
ghost use Rattle.pool_model.specs.Network.{net_of};
ghost use Rattle.row_model.specs.Boxes.{prop_number, flow_number};
ghost use Rattle.row_model.specs.Variables.{path_count};
ghost use Rattle.row_model.specs.Catalogue.{proportion_envelope_row};
ghost use Rattle.mccormick.specs.Views.{shown_ends};
ghost use Rattle.box_space.specs.Views.{IsView, shown_box};
ghost use Rattle.box_space.specs.Written.{IsLineOf};

use blend_network::Network;
use box_space::{Block, BoxView, LinRow, RowKind, flow_coordinate, variable_number};
use mccormick::{Ends, envelope};

/// How many parts a proportion is counted in.
const GRAIN: i64 = 1_048_576;

/// Writes the side of a number: four for each path.
pub(crate) fn write(net: &Network, n: u32, v: &BoxView, row: &mut LinRow) -> RowKind
    requires view { IsView (net_of net.now) v.now }
    requires among { n < path_count (net_of net.now) * 4 }
    ensures { IsLineOf (net_of net.now) (proportion_envelope_row (net_of net.now) (shown_box v.now) (n / 4) (n % 4 + 1)) row.new result }
{
    write_side(net, v, n / 4, (n % 4 + 1) as u8, row)
}

/// Writes a side of the envelope of the flow along a path: its feed's proportion times its out's flow.
fn write_side(net: &Network, v: &BoxView, path: u32, side: u8, row: &mut LinRow) -> RowKind
    requires view { IsView (net_of net.now) v.now }
    requires path { path < path_count (net_of net.now) }
    requires low { 1 ≤ side }
    requires high { side ≤ 4 }
    ensures { IsLineOf (net_of net.now) (proportion_envelope_row (net_of net.now) (shown_box v.now) path side) row.new result }
{
    let (feed, out) = net.path(path);
    let ends = proportion_ends(net, v, feed, out);
    let a = variable_number(net, Block::Proportions, feed);
    let b = variable_number(net, Block::Outs, out);
    let w = variable_number(net, Block::Paths, path);
    envelope(side, GRAIN, a, b, w, &ends, row);
    RowKind::AtLeast
}

/// The ends of a feed's proportion and of an out's flow.
fn proportion_ends(net: &Network, v: &BoxView, feed: u32, out: u32) -> Ends
    requires view { IsView (net_of net.now) v.now }
    requires feed { feed < (net_of net.now).feeds }
    requires out { out < (net_of net.now).outs }
    ensures { shown_ends result ≡ record {
      a_low = (shown_box v.now).low (prop_number (net_of net.now) feed);
      a_high = (shown_box v.now).high (prop_number (net_of net.now) feed);
      b_low = (shown_box v.now).low (flow_number (net_of net.now) out);
      b_high = (shown_box v.now).high (flow_number (net_of net.now) out);
    } }
{
    let flow = flow_coordinate(net, out);
    Ends {
        a_low: v.low_at(feed),
        a_high: v.high_at(feed),
        b_low: v.low_at(flow),
        b_high: v.high_at(flow),
    }
}
