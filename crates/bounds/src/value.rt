//! What a proof shows of a box that is held.

ghost use Rattle.std.specs.Prelude.{◌≡◌, IfOk, IfErr};
ghost use Rattle.pool_model.specs.Network.{net_of};
ghost use Rattle.row_model.specs.Boxes.{Box};
ghost use Rattle.row_model.specs.Multipliers.{IsInOrder, shown_by};
ghost use Rattle.box_space.specs.Views.{AreEnds, AreEndsOf, shown_proof};
ghost use Rattle.row_book.specs.Faults.{IsFirstFault};
ghost use Rattle.row_book.specs.Fitting.{Fits};
ghost use Rattle.row_book.specs.Views.{shown_value};

use blend_network::Network;
use box_space::{BoxEnds, Proof};
use row_book::{ProofFault, Scratch, Shown, value};

/// What the proof shows of the box whose ends these are, or its first fault there.
pub fn value_in(
    net: &Network,
    ends: &BoxEnds,
    proof: &Proof,
    scratch: &mut Scratch,
) -> Result<Shown, ProofFault>
    requires ends { AreEnds (net_of net.now) ends.now }
    requires fits { Fits (net_of net.now) scratch.old }
    ensures in_order { (b : Box) → AreEndsOf (net_of net.now) b ends.now → IfOk result (λ _. IsInOrder (net_of net.now) b (shown_proof proof.now)) }
    // Promise: What a proof shows of a box that is held, or its first fault
    ensures shown { (b : Box) → AreEndsOf (net_of net.now) b ends.now → IfOk result (λ s. shown_value s ≡ shown_by (net_of net.now) b (shown_proof proof.now)) }
    // Promise: What a proof shows of a box that is held, or its first fault
    ensures fault { (b : Box) → AreEndsOf (net_of net.now) b ends.now → IfErr result (IsFirstFault (net_of net.now) b (shown_proof proof.now)) }
    ensures fits { Fits (net_of net.now) scratch.new }
{
    value(net, &ends.view(), proof, scratch)
}
