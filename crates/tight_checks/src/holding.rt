//! Whether a mark holds.

ghost use Rattle.std.specs.Prelude.{◌≡◌, ◌↔◌, IsTrue};
ghost use Rattle.pool_model.specs.Network.{net_of};
ghost use Rattle.box_space.specs.Views.{IsView, shown_box};
ghost use Rattle.row_book.specs.Fitting.{Fits};
ghost use Rattle.relaxation_points.specs.Points.{IsLight};
ghost use Rattle.leaf_marks.specs.Marks.{IsMark, IsReason};
ghost use Rattle.leaf_marks.specs.Views.{IsHeld};

use crate::coarse::is_coarse;
use crate::showing::{is_emptied, is_heavy, is_raised};
use blend_network::Network;
use box_space::{BoxView, Form, LinRow};
use exact_run::is_wide;
use leaf_marks::{Mark, Reason};
use relaxation_points::{RelaxPoint, has_shape, is_light, is_witness};
use row_book::Scratch;

/// Whether a point has its shape and weighs too much.
fn is_heavy_point(
    net: &Network,
    form: Form,
    v: &BoxView,
    point: &RelaxPoint,
    row: &mut LinRow,
) -> bool
    requires { IsView (net_of net.now) v.now }
    ensures { IsTrue result ↔ IsHeld (net_of net.now) (λ q. ¬ IsLight (net_of net.now) form (shown_box v.now) q) point.now }
{
    has_shape(net, point) && !is_light(net, form, v, point, row)
}

/// Whether a reason is one.
fn reason_holds(
    net: &Network,
    form: Form,
    v: &BoxView,
    pivots: u32,
    reason: &Reason,
    scratch: &mut Scratch,
    row: &mut LinRow,
) -> bool
    requires view { IsView (net_of net.now) v.now }
    requires fits { Fits (net_of net.now) scratch.old }
    ensures holds { IsTrue result ↔ IsReason (net_of net.now) form (shown_box v.now) pivots reason.now }
    ensures fits { Fits (net_of net.now) scratch.new }
{
    match reason {
        Reason::Pivots(count) => *count == pivots,
        Reason::Wide(wide) => is_wide(wide.operation, wide.left, wide.right),
        Reason::Coarse(times, fraction) => is_coarse(*times, *fraction),
        Reason::HeavyProof(proof) => is_heavy(net, v, proof, scratch),
        Reason::HeavyPoint(point) => is_heavy_point(net, form, v, point, row),
    }
}

/// Whether a mark says what is so of a form's rows in a box, for a bound in picos, asked with so many pivots. The scratch and the row are
/// written over.
pub fn mark_holds(
    net: &Network,
    form: Form,
    v: &BoxView,
    low: i128,
    pivots: u32,
    mark: &Mark,
    scratch: &mut Scratch,
    row: &mut LinRow,
) -> bool
    requires view { IsView (net_of net.now) v.now }
    requires fits { Fits (net_of net.now) scratch.old }
    // Promise: A mark of a leaf is taken exactly where it keeps what it says of the form's rows in the leaf's box
    ensures holds { IsTrue result ↔ IsMark (net_of net.now) form (shown_box v.now) low pivots mark.now }
    ensures fits { Fits (net_of net.now) scratch.new }
{
    match mark {
        Mark::Tight(point) => is_witness(net, form, v, low, point, row),
        Mark::Raised(proof, point) => is_raised(net, form, v, low, proof, point, scratch, row),
        Mark::Empty(proof) => is_emptied(net, form, v, proof, scratch),
        Mark::Loose(reason) => reason_holds(net, form, v, pivots, reason, scratch, row),
    }
}
