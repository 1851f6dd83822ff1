//! What a mark that holds leaves of a bound.

ghost use Rattle.std.specs.Prelude.{◌≡◌, ℕ, Some};
ghost use Rattle.pool_model.specs.Network.{net_of};
ghost use Rattle.box_space.specs.Views.{IsView, shown_box, shown_proof};
ghost use Rattle.box_space.specs.declared.coordinates.Form.{Form as AForm};
ghost use Rattle.row_book.specs.Fitting.{Fits};
ghost use Rattle.leaf_marks.specs.Marks.{IsMark};
ghost use Rattle.tight_checks.specs.Holding.{bound_shown, bound_with};
ghost use Rattle.row_model.specs.Multipliers.{IsInOrder};

use blend_network::Network;
use bounds::raised;
use box_space::{BoxView, Proof};
use leaf_marks::Mark;
use row_book::{Scratch, value};

/// The bound of a box, with what the proof of a mark that holds for it shows: None is that the box holds no plan. The scratch is written over.
pub fn bound_left(
    net: &Network,
    v: &BoxView,
    low: i128,
    mark: &Mark,
    scratch: &mut Scratch,
) -> Option<i128>
    requires view { IsView (net_of net.now) v.now }
    requires fits { Fits (net_of net.now) scratch.old }
    requires holds { (form : AForm) × (pivots : ℕ) × IsMark (net_of net.now) form (shown_box v.now) low pivots mark.now }
    // Promise: A mark that holds leaves of a bound what its proof shows, where it has one
    ensures left { result ≡ bound_with (net_of net.now) (shown_box v.now) (Some low) mark.now }
    ensures fits { Fits (net_of net.now) scratch.new }
{
    match mark {
        Mark::Tight(_) => Some(low),
        Mark::Raised(proof, _) => bound_raised(net, v, low, proof, scratch),
        Mark::Empty(_) => None,
        Mark::Loose(_) => Some(low),
    }
}

/// The bound of a box, with what a proof in order shows.
fn bound_raised(
    net: &Network,
    v: &BoxView,
    low: i128,
    proof: &Proof,
    scratch: &mut Scratch,
) -> Option<i128>
    requires view { IsView (net_of net.now) v.now }
    requires fits { Fits (net_of net.now) scratch.old }
    requires ordered { IsInOrder (net_of net.now) (shown_box v.now) (shown_proof proof.now) }
    ensures raised { result ≡ bound_shown (net_of net.now) (shown_box v.now) (Some low) (Some (shown_proof proof.now)) }
    ensures fits { Fits (net_of net.now) scratch.new }
{
    match value(net, v, proof, scratch) {
        Ok(shown) => raised(Some(low), Some(shown)),
        Err(_) => unreachable!(),
    }
}
