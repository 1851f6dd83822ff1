//! What the proofs of marks name and show.

ghost use Rattle.std.specs.Prelude.{◌≡◌, ◌↔◌, All, IsTrue, map};
ghost use Rattle.pool_model.specs.Network.{net_of};
ghost use Rattle.box_space.specs.Views.{IsView, shown_box, shown_part, shown_proof};
ghost use Rattle.row_book.specs.Faults.{IsFirstFault};
ghost use Rattle.row_book.specs.Fitting.{Fits};
ghost use Rattle.row_book.specs.declared.fault.ProofFault.TheVariants as faults;
ghost use Rattle.relaxation_points.specs.Points.{IsRowOf, NamesRowsOf};
ghost use Rattle.leaf_marks.specs.Marks.{IsEmptied, IsRaised};
ghost use Rattle.leaf_marks.specs.Views.{IsHeld};

use blend_network::Network;
use box_space::{BoxView, Form, LinRow, Part, Proof};
use relaxation_points::{RelaxPoint, is_witness};
use row_book::{ProofFault, Scratch, Shown, in_form, value};

/// Whether each of some multipliers is on a row of the form.
fn are_named(net: &Network, form: Form, parts: &[Part]) -> bool
    ensures { IsTrue result ↔ All (λ q. IsRowOf (net_of net.now) form q.row) (map shown_part parts.now) }
{
    for part in parts {
        if !in_form(net, form, part.row) {
            return false;
        }
    }
    true
}

/// Whether each multiplier of a proof is on a row of the form.
fn names_rows(net: &Network, form: Form, proof: &Proof) -> bool
    ensures { IsTrue result ↔ NamesRowsOf (net_of net.now) form (shown_proof proof.now) }
{
    are_named(net, form, proof.parts.as_slice())
}

/// Whether a proof on the form's rows shows that the box holds no plan.
pub(crate) fn is_emptied(
    net: &Network,
    form: Form,
    v: &BoxView,
    proof: &Proof,
    scratch: &mut Scratch,
) -> bool
    requires view { IsView (net_of net.now) v.now }
    requires fits { Fits (net_of net.now) scratch.old }
    ensures holds { IsTrue result ↔ IsEmptied (net_of net.now) form (shown_box v.now) (shown_proof proof.now) }
    ensures fits { Fits (net_of net.now) scratch.new }
{
    match value(net, v, proof, scratch) {
        Ok(Shown::NoPlan) => names_rows(net, form, proof),
        Ok(Shown::Bound(_)) => false,
        Err(_) => false,
    }
}

/// Whether a fault is that of a proof that weighs too much.
fn is_weight(fault: ProofFault) -> bool
    ensures { IsTrue result ↔ (fault ≡ faults.Wide) }
{
    match fault {
        ProofFault::Wide => true,
        _ => false,
    }
}

/// Whether a proof weighs too much to be added up, and has no fault before that.
pub(crate) fn is_heavy(net: &Network, v: &BoxView, proof: &Proof, scratch: &mut Scratch) -> bool
    requires view { IsView (net_of net.now) v.now }
    requires fits { Fits (net_of net.now) scratch.old }
    ensures holds { IsTrue result ↔ IsFirstFault (net_of net.now) (shown_box v.now) (shown_proof proof.now) faults.Wide }
    ensures fits { Fits (net_of net.now) scratch.new }
{
    match value(net, v, proof, scratch) {
        Ok(_) => false,
        Err(fault) => is_weight(fault),
    }
}

/// Whether a proof on the form's rows shows a bound above this one, and the point is a witness for what it shows.
pub(crate) fn is_raised(
    net: &Network,
    form: Form,
    v: &BoxView,
    low: i128,
    proof: &Proof,
    point: &RelaxPoint,
    scratch: &mut Scratch,
    row: &mut LinRow,
) -> bool
    requires view { IsView (net_of net.now) v.now }
    requires fits { Fits (net_of net.now) scratch.old }
    ensures holds { IsTrue result ↔ IsHeld (net_of net.now) (IsRaised (net_of net.now) form (shown_box v.now) low (shown_proof proof.now)) point.now }
    ensures fits { Fits (net_of net.now) scratch.new }
{
    match value(net, v, proof, scratch) {
        Ok(Shown::Bound(shown)) => {
            if shown <= low {
                return false;
            }
            names_rows(net, form, proof) && is_witness(net, form, v, shown, point, row)
        }
        Ok(Shown::NoPlan) => false,
        Err(_) => false,
    }
}
