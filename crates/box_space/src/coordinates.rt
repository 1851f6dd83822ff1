//! Coordinates of a plan, by number and by name, and splits.

ghost use Rattle.std.specs.Prelude.{◌≡◌, ◌<◌, ◌≤◌, ◌↔◌, IsTrue};
ghost use Rattle.pool_model.specs.Network.{net_of, IsLimited};
ghost use Rattle.row_model.specs.Boxes as boxes;
ghost use Rattle.box_space.specs.Views.{shown_coord};
ghost use Rattle.box_space.specs.Forms.{cuts, IsCoord};

use crate::numbers::grid;
use blend_network::Network;

/// A form of the linear program: by qualities (P), by proportions (Q), or by proportions with more rows (Pq).
#[derive(Clone, Copy, Debug, PartialEq, Eq)]
pub enum Form {
    P,
    Q,
    Pq,
}

/// A coordinate of a plan.
#[derive(Clone, Copy, Debug, PartialEq, Eq)]
pub enum Coord {
    /// A feed's proportion in its pool, in parts of 1,048,576.
    Prop(u32),
    /// A pool's quality, by pool and quality, in millionths.
    Qual(u32, u32),
    /// What flows along an out, in millionths.
    Flow(u32),
}

/// A split of a leaf of the tree of boxes, at a coordinate.
#[derive(Clone, Copy, Debug, PartialEq, Eq)]
pub struct Split {
    /// The node that is cut.
    pub leaf: u32,
    /// The number of the coordinate.
    pub coord: u32,
    /// Where it is cut, in the coordinate's unit.
    pub cut: i64,
}

/// How many coordinates there are: proportions by feed, then qualities by pool, then flows by out.
pub fn coords(net: &Network) -> u32
    // Promise: Coordinates, the root box, ends and costs of variables are the definitions'
    ensures count { result ≡ boxes.coords (net_of net.now) }
    ensures small { result ≤ 640 }
    ensures limited { IsLimited (net_of net.now) }
{
    let counts = net.sizes();
    counts.feeds + (grid(counts.pools, counts.qualities) + counts.outs)
}

/// The coordinate of a number.
pub fn coord_at(net: &Network, n: u32) -> Coord
    requires { n < boxes.coords (net_of net.now) }
    // Promise: Coordinates, the root box, ends and costs of variables are the definitions'
    ensures among { IsCoord (net_of net.now) result }
    ensures coordinate { shown_coord result ≡ boxes.coord_at (net_of net.now) n }
{
    let counts = net.sizes();
    if n < counts.feeds {
        return Coord::Prop(n);
    }
    let n = n - counts.feeds;
    let qualities = grid(counts.pools, counts.qualities);
    if n < qualities {
        Coord::Qual(n / counts.qualities, n % counts.qualities)
    } else {
        Coord::Flow(n - qualities)
    }
}

/// Whether a form cuts the coordinate of a number. Past the last coordinate it cuts none.
pub fn of_form(net: &Network, form: Form, n: u32) -> bool
    ensures { IsTrue result ↔ ((n < boxes.coords (net_of net.now)) × IsTrue (cuts form (boxes.coord_at (net_of net.now) n))) }
{
    n < coords(net) && is_cut_by(form, coord_at(net, n))
}

fn is_cut_by(form: Form, coord: Coord) -> bool
    ensures { result ≡ cuts form (shown_coord coord) }
{
    match (form, coord) {
        (Form::P, Coord::Prop(_)) => false,
        (Form::P, Coord::Qual(_, _)) => true,
        (Form::Q | Form::Pq, Coord::Prop(_)) => true,
        (Form::Q | Form::Pq, Coord::Qual(_, _)) => false,
        (_, Coord::Flow(_)) => true,
    }
}
