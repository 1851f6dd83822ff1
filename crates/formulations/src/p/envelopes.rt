//! The sides of the envelopes of qualities times flows.

ghost use Rattle.std.specs.Prelude.{◌≡◌, ◌+◌, ◌/◌, ◌%◌, ◌<◌, ◌≤◌, ◌*◌};
ghost use Rattle.pool_model.specs.Network.{net_of};
ghost use Rattle.row_model.specs.Boxes.{qual_number, flow_number};
ghost use Rattle.row_model.specs.Catalogue.{quality_envelope_row};
ghost use Rattle.mccormick.specs.Views.{shown_ends};
ghost use Rattle.box_space.specs.Views.{IsView, shown_box};
ghost use Rattle.box_space.specs.Written.{IsLineOf};

use blend_network::Network;
use box_space::{
    Block, BoxView, LinRow, RowKind, flow_coordinate, quality_coordinate, variable_number,
};
use mccormick::{Ends, envelope};

/// How many sides there are: four for each out and quality.
pub(crate) fn count(net: &Network) -> u32
    ensures value { result ≡ (net_of net.now).outs * ((net_of net.now).qualities * 4) }
    ensures small { result ≤ 8192 }
{
    let counts = net.sizes();
    sides(counts.outs, counts.qualities)
}

fn sides(outs: u32, qualities: u32) -> u32
    requires outs { outs ≤ 256 }
    requires qualities { qualities ≤ 8 }
    ensures value { result ≡ outs * (qualities * 4) }
    ensures small { result ≤ 8192 }
{
    outs * (qualities * 4)
}

/// Writes the side of a number.
pub(crate) fn write(net: &Network, n: u32, v: &BoxView, row: &mut LinRow) -> RowKind
    requires view { IsView (net_of net.now) v.now }
    requires among { n < (net_of net.now).outs * ((net_of net.now).qualities * 4) }
    ensures { IsLineOf (net_of net.now)
        (quality_envelope_row (net_of net.now) (shown_box v.now) (n / ((net_of net.now).qualities * 4)) (n % ((net_of net.now).qualities * 4) / 4)
        (n % 4 + 1)) row.new result }
{
    let counts = net.sizes();
    let (out, quality, side) = envelope_at(n, counts.outs, counts.qualities);
    write_side(net, v, out, quality, side, row)
}

/// The out, the quality and the side of an envelope's row.
fn envelope_at(n: u32, outs: u32, qualities: u32) -> (u32, u32, u8)
    requires qualities { qualities ≤ 8 }
    requires among { n < outs * (qualities * 4) }
    ensures out { result.0 ≡ n / (qualities * 4) }
    ensures quality { result.1 ≡ n % (qualities * 4) / 4 }
    ensures side { result.2 ≡ n % 4 + 1 }
    ensures known_out { result.0 < outs }
    ensures known_quality { result.1 < qualities }
    ensures known_side { result.2 ≤ 4 }
{
    let width = qualities * 4;
    (n / width, n % width / 4, (n % 4 + 1) as u8)
}

/// Writes a side of the envelope of an out's mixed variable: its pool's quality times its flow.
fn write_side(
    net: &Network,
    v: &BoxView,
    out: u32,
    quality: u32,
    side: u8,
    row: &mut LinRow,
) -> RowKind
    requires view { IsView (net_of net.now) v.now }
    requires out { out < (net_of net.now).outs }
    requires quality { quality < (net_of net.now).qualities }
    requires low { 1 ≤ side }
    requires high { side ≤ 4 }
    ensures { IsLineOf (net_of net.now) (quality_envelope_row (net_of net.now) (shown_box v.now) out quality side) row.new result }
{
    let (pool, _) = net.out(out);
    let ends = quality_ends(net, v, pool, out, quality);
    let a = variable_number(net, Block::Qualities(quality), pool);
    let b = variable_number(net, Block::Outs, out);
    let w = variable_number(net, Block::Mixed(quality), out);
    envelope(side, 1, a, b, w, &ends, row);
    RowKind::AtLeast
}

/// The ends of a pool's quality and of an out's flow.
fn quality_ends(net: &Network, v: &BoxView, pool: u32, out: u32, quality: u32) -> Ends
    requires view { IsView (net_of net.now) v.now }
    requires pool { pool < (net_of net.now).pools }
    requires out { out < (net_of net.now).outs }
    requires quality { quality < (net_of net.now).qualities }
    ensures { shown_ends result ≡ record {
      a_low = (shown_box v.now).low (qual_number (net_of net.now) pool quality);
      a_high = (shown_box v.now).high (qual_number (net_of net.now) pool quality);
      b_low = (shown_box v.now).low (flow_number (net_of net.now) out);
      b_high = (shown_box v.now).high (flow_number (net_of net.now) out);
    } }
{
    let held = quality_coordinate(net, pool, quality);
    let flow = flow_coordinate(net, out);
    Ends {
        a_low: v.low_at(held),
        a_high: v.high_at(held),
        b_low: v.low_at(flow),
        b_high: v.high_at(flow),
    }
}
