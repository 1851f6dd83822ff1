//! The numbers of coordinates and variables.

ghost use Rattle.std.specs.Prelude.{◌≡◌, ◌+◌, ◌*◌, ◌<◌, ◌≤◌, ◌^◌, length};
ghost use Rattle.pool_model.specs.Network.{IsLimited, net_of};
ghost use Rattle.pool_model.specs.Paths.{paths_of};
ghost use Rattle.blend_network.specs.Counts.{AreCounts};
ghost use Rattle.row_model.specs.Boxes.{qual_number, flow_number};
ghost use Rattle.box_space.specs.Blocks.{IsBlock, size_of, number_of};

use crate::table::Block;
use blend_network::{Counts, Network};

/// The number of a block's variable among all variables.
pub fn variable_number(net: &Network, block: Block, number: u32) -> u32
    requires block { IsBlock (net_of net.now) block }
    requires among { number < size_of (net_of net.now) block }
    ensures { result ≡ number_of (net_of net.now) block number }
{
    number_by(net, &net.sizes(), block, number)
}

/// The same, by counts that are read already.
pub(crate) fn number_by(net: &Network, counts: &Counts, block: Block, number: u32) -> u32
    requires limited { IsLimited (net_of net.now) }
    requires paths { length (paths_of (net_of net.now)) ≤ 512 }
    requires counts { AreCounts (net_of net.now) counts.now }
    requires block { IsBlock (net_of net.now) block }
    requires among { number < size_of (net_of net.now) block }
    ensures { result ≡ number_of (net_of net.now) block number }
{
    let outs = counts.feeds;
    let directs = outs + counts.outs;
    let paths = directs + counts.directs;
    let proportions = paths + counts.paths;
    let qualities = proportions + counts.feeds;
    match block {
        Block::Feeds => number,
        Block::Outs => outs + number,
        Block::Directs => directs + number,
        Block::Paths => paths + number,
        Block::Proportions => proportions + number,
        Block::Qualities(quality) => qualities + in_grid(number, counts.qualities, quality),
        Block::Mixed(quality) => {
            let mixed = qualities + grid(counts.pools, counts.qualities);
            mixed + in_grid(number, counts.qualities, quality)
        }
    }
}

/// The number of a pool's quality among the coordinates.
pub fn quality_coordinate(net: &Network, pool: u32, quality: u32) -> u32
    requires pool { pool < (net_of net.now).pools }
    requires quality { quality < (net_of net.now).qualities }
    ensures { result ≡ qual_number (net_of net.now) pool quality }
{
    let counts = net.sizes();
    counts.feeds + in_grid(pool, counts.qualities, quality)
}

/// The number of an out's flow among the coordinates.
pub fn flow_coordinate(net: &Network, out: u32) -> u32
    requires { out < (net_of net.now).outs }
    ensures { result ≡ flow_number (net_of net.now) out }
{
    let counts = net.sizes();
    counts.feeds + (grid(counts.pools, counts.qualities) + out)
}

/// How many cells a grid has.
pub(crate) fn grid(rows: u32, width: u32) -> u32
    requires rows { rows ≤ 256 }
    requires width { width ≤ 8 }
    ensures value { result ≡ rows * width }
    ensures small { result ≤ rows * 8 }
{
    rows * width
}

/// The number of a cell in a grid of some width, row by row.
fn in_grid(row: u32, width: u32, column: u32) -> u32
    requires row { row ≤ 256 }
    requires width { width ≤ 8 }
    requires column { column < width }
    ensures value { result ≡ row * width + column }
    ensures small { result ≤ 4096 }
{
    row * width + column
}
