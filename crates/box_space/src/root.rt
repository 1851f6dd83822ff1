//! The root box.

ghost use Rattle.std.specs.Prelude.{◌≡◌, ◌<◌, IfOk, pos, unwrap_or};
ghost use Rattle.pool_model.specs.Network.{IsLimited, net_of};
ghost use Rattle.pool_model.specs.Starting.{least_below};
ghost use Rattle.row_model.specs.Boxes as boxes;
ghost use Rattle.row_model.specs.Boxes.{root_low, root_high, greatest_below};
ghost use Rattle.box_space.specs.Forms.{IsCoord};
ghost use Rattle.box_space.specs.Views.{shown_coord, AreRoot, AreEnds};

use crate::boxes::BoxEnds;
use crate::capped::capped;
use crate::coordinates::{Coord, coord_at, coords};
use blend_network::{Network, lesser_of};
use edge_io::Memory;
use std::alloc::Global;

/// How many parts a proportion is counted in.
const GRAIN: i64 = 1_048_576;

/// The box of all plans that obey.
pub fn root_box(alloc: Global, net: &Network) -> Result<BoxEnds, Memory>
    // Promise: Coordinates, the root box, ends and costs of variables are the definitions'
    ensures root { IfOk result (λ b. AreRoot (net_of net.now) b) }
    ensures proper { IfOk result (λ b. AreEnds (net_of net.now) b) }
    ensures limited { IsLimited (net_of net.now) }
{
    let mut low = Vec::new(alloc);
    let mut high = Vec::new(alloc);
    for n in 0..coords(net) {
        let (least, greatest) = root_ends(net, coord_at(net, n));
        low.push(least)?;
        high.push(greatest)?;
    }
    Ok(BoxEnds { low, high })
}

/// The ends of a coordinate in the root box.
pub fn root_ends(net: &Network, coord: Coord) -> (i64, i64)
    requires { IsCoord (net_of net.now) coord }
    ensures low { result.0 ≡ root_low (net_of net.now) (shown_coord coord) }
    ensures high { result.1 ≡ root_high (net_of net.now) (shown_coord coord) }
{
    match coord {
        Coord::Prop(_) => (0, GRAIN),
        Coord::Qual(pool, quality) => quality_range(net, pool, quality),
        Coord::Flow(out) => {
            let (pool, product) = net.out(out);
            let nodes = net.pool_max(pool).min(net.product_max(product));
            (0, capped(net.out_max(out), nodes))
        }
    }
}

/// The least and the greatest quality of the feeds to a pool.
fn quality_range(net: &Network, pool: u32, quality: u32) -> (i64, i64)
    requires { quality < (net_of net.now).qualities }
    ensures low { result.0 ≡ unwrap_or (least_below (boxes.fed_quality (net_of net.now) pool quality) (net_of net.now).feeds) (pos 0) }
    ensures high { result.1 ≡ unwrap_or (greatest_below (boxes.fed_quality (net_of net.now) pool quality) (net_of net.now).feeds) (pos 0) }
{
    let counts = net.sizes();
    let mut least = None;
    let mut greatest = None;
    for feed in 0..counts.feeds {
        let fed = fed_quality(net, pool, quality, feed);
        least = lesser_of(least, fed);
        greatest = greater(greatest, fed);
    }
    (least.unwrap_or(0), greatest.unwrap_or(0))
}

/// The quality of a feed's source, where the feed goes to the pool.
fn fed_quality(net: &Network, pool: u32, quality: u32, feed: u32) -> Option<i64>
    requires quality { quality < (net_of net.now).qualities }
    requires feed { feed < (net_of net.now).feeds }
    ensures { result ≡ boxes.fed_quality (net_of net.now) pool quality feed }
{
    let (source, to) = net.feed(feed);
    if to == pool {
        Some(net.source_quality(source, quality))
    } else {
        None
    }
}

fn greater(a: Option<i64>, b: Option<i64>) -> Option<i64>
    ensures { result ≡ boxes.greater a b }
{
    match (a, b) {
        (None, b) => b,
        (Some(a), None) => Some(a),
        (Some(a), Some(b)) => Some(a.max(b)),
    }
}
