//! By how much each coordinate of a leaf is missed.
//!
//! The score of a coordinate is the violation of its products, weighed, times the square root of the width that is left of it, times
//! what its earlier cuts gained. Proportions count half as much again. All in whole numbers.

ghost use Rattle.std.specs.Prelude.{◌<◌};
ghost use Rattle.pool_model.specs.Network.{net_of};
ghost use Rattle.row_model.specs.Boxes as boxes;
ghost use Rattle.box_space.specs.Views.{AreEnds};

use crate::gains::Gains;
use crate::square_root::square_root;
use blend_network::Network;
use box_space::{BoxEnds, Coord, Form, can_cut, coord_at, coords, of_form, root_ends};
use edge_io::Memory;
use lp_sparse::fixed::clamped;
use lp_sparse::lookup::at;
use std::alloc::Global;

/// The score of each coordinate of a box, by number: 0 where the form can't cut it, and else above 0.
pub fn misses(
    alloc: Global,
    net: &Network,
    form: Form,
    ends: &BoxEnds,
    violations: &[i128],
    gains: &Gains,
) -> Result<Vec<u64>, Memory>
    requires { AreEnds (net_of net.now) ends.now }
{
    let count = coords(net);
    let mut misses = Vec::with_capacity(alloc, count as usize)?;
    for coord in 0..count {
        let violation = at(violations, coord as usize, 0);
        misses.push(miss(net, form, ends, coord, violation, gains))?;
    }
    Ok(misses)
}

/// The score of a coordinate whose products are violated by so much.
fn miss(
    net: &Network,
    form: Form,
    ends: &BoxEnds,
    coord: u32,
    violation: i128,
    gains: &Gains,
) -> u64
    requires ends { AreEnds (net_of net.now) ends.now }
    requires known { coord < boxes.coords (net_of net.now) }
{
    let view = ends.view();
    if !of_form(net, form, coord) || !can_cut(&view, coord) {
        return 0;
    }
    let (low, high) = (view.low_at(coord), view.high_at(coord));
    let (root_low, root_high) = root_ends(net, coord_at(net, coord));
    let width = i128::from(high).saturating_sub(low.into());
    let root_width = i128::from(root_high).saturating_sub(root_low.into());
    let wide = i128::from(clamped(violation.unbounded_shr(20)));
    let left = wide
        .saturating_mul(width_left(width, root_width))
        .unbounded_shr(20);
    let score = match coord_at(net, coord) {
        Coord::Prop(_) => left.saturating_add(left / 2),
        _ => left,
    };
    let weighed = clamped(gains.weigh(coord, score));
    weighed.max(0).unsigned_abs().saturating_add(1)
}

/// The square root of the part of the root's width that is left, in parts of 2^20.
fn width_left(width: i128, root_width: i128) -> i128 {
    let part = width
        .max(0)
        .unbounded_shl(40)
        .checked_div(root_width.max(1))
        .unwrap_or(0);
    square_root(part.unsigned_abs()).into()
}
