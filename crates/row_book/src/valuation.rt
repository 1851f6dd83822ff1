//! What a proof shows of a box, or its first fault.

ghost use Rattle.std.specs.Prelude.{◌≡◌, IfOk, IfErr, ℤ, pos, ◌*ℤ◌, ◌<ℤ◌, ◌≤ℤ◌};
ghost use Rattle.pool_model.specs.Network.{IsLimited, net_of};
ghost use Rattle.pool_model.specs.Plan.{Obeys, Plan, cost_of};
ghost use Rattle.row_model.specs.Boxes.{LiesIn};
ghost use Rattle.row_model.specs.Multipliers as multipliers;
ghost use Rattle.box_space.specs.Views.{shown_proof, shown_box, IsView};
ghost use Rattle.row_book.specs.Faults.{IsFirstFault};
ghost use Rattle.row_book.specs.Fitting.{Fits};
ghost use Rattle.row_book.specs.Views as views;

use crate::fault::ProofFault;
use crate::ordered::check_rows;
use crate::scratch::Scratch;
use crate::shown::Shown;
use crate::summing::number;
use blend_network::Network;
use box_space::{BoxView, Proof};

/// What the proof shows of the box, or its first fault. It takes no memory. It writes each of the proof's rows once, and goes once
/// over its terms, for its kind, the weight and the number together; and it goes three times over the network's variables, and
/// asks for the ends of those alone that cost something, or of whose cost the rows leave something.
pub fn value(
    net: &Network,
    v: &BoxView,
    proof: &Proof,
    scratch: &mut Scratch,
) -> Result<Shown, ProofFault>
    requires view { IsView (net_of net.now) v.now }
    requires fits { Fits (net_of net.now) scratch.old }
    // Promise: A bound that multipliers are answered to show holds for every plan that obeys and lies in the box
    ensures bound { (z : ℤ) → result ≡ Ok (Shown.Bound z) → (p : Plan) → Obeys (net_of net.now) p → LiesIn (net_of net.now) p (shown_box v.now) → (z *ℤ pos p.base) ≤ℤ cost_of (net_of net.now) p }
    // Promise: Where multipliers are answered to show no plan, none that obeys lies in the box
    ensures no_plan { result ≡ Ok Shown.NoPlan → (p : Plan) → Obeys (net_of net.now) p → ¬ LiesIn (net_of net.now) p (shown_box v.now) }
    // Promise: Multipliers are taken only where they are in order in the box, and what is answered is what they show there
    ensures ok { IfOk result
        (λ s. multipliers.IsInOrder (net_of net.now) (shown_box v.now) (shown_proof proof.now)
        × (views.shown_value s ≡ multipliers.shown_by (net_of net.now) (shown_box v.now) (shown_proof proof.now))) }
    // Promise: Of multipliers that are not in order in the box the first fault is answered; no sum leaves 128 bits, and no memory is taken
    ensures fault { IfErr result (IsFirstFault (net_of net.now) (shown_box v.now) (shown_proof proof.now)) }
    ensures fits { Fits (net_of net.now) scratch.new }
    ensures limited { IsLimited (net_of net.now) }
{
    judged(net, v, proof, scratch)
}

/// The same, in the words of the model.
fn judged(
    net: &Network,
    v: &BoxView,
    proof: &Proof,
    scratch: &mut Scratch,
) -> Result<Shown, ProofFault>
    requires view { IsView (net_of net.now) v.now }
    requires fits { Fits (net_of net.now) scratch.old }
    ensures limited { IsLimited (net_of net.now) }
    ensures ok { IfOk result
        (λ s. multipliers.IsInOrder (net_of net.now) (shown_box v.now) (shown_proof proof.now)
        × (views.shown_value s ≡ multipliers.shown_by (net_of net.now) (shown_box v.now) (shown_proof proof.now))) }
    ensures fault { IfErr result (IsFirstFault (net_of net.now) (shown_box v.now) (shown_proof proof.now)) }
    ensures fits { Fits (net_of net.now) scratch.new }
{
    check_rows(net, proof)?;
    let number = number(net, v, proof, scratch)?;
    shown_by(proof.scale, number)
}

/// What a number over a scale shows; ShowsNothing, exactly where the scale is 0 and the number is at most 0.
fn shown_by(scale: u64, number: i128) -> Result<Shown, ProofFault>
    ensures shown { IfOk result (λ s. views.shown_value s ≡ views.shown_at scale number) }
    ensures above { IfOk result (λ _. scale ≡ 0 → pos 0 <ℤ number) }
    ensures fault { IfErr result (λ f. f ≡ ProofFault.ShowsNothing) }
    ensures nothing { IfErr result (λ _. (scale ≡ 0) × (number ≤ℤ pos 0)) }
{
    if scale > 0 {
        Ok(Shown::Bound(number.div_euclid(scale.into())))
    } else if number > 0 {
        Ok(Shown::NoPlan)
    } else {
        Err(ProofFault::ShowsNothing)
    }
}
