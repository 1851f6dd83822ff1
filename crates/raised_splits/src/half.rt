//! A half of a split, and the proof that it gets.

ghost use Rattle.std.specs.Prelude.{◌≡◌, IfOk, option_map};
ghost use Rattle.std.specs.Option.{ForSome};
ghost use Rattle.pool_model.specs.Network.{net_of};
ghost use Rattle.row_model.specs.Boxes.{Box};
ghost use Rattle.row_model.specs.Multipliers.{IsInOrder, shown_by};
ghost use Rattle.box_space.specs.Views.{AreEnds, AreEndsOf, shown_proof};
ghost use Rattle.row_book.specs.Fitting.{Fits};
ghost use Rattle.row_book.specs.Views.{shown_value};
ghost use Rattle.raised_splits.specs.Raising as given;

use blend_network::Network;
use bounds::{raised, value_in};
use box_space::{BoxEnds, Form, Proof};
use edge_io::Memory;
use leaf_marks::Mark;
use row_book::{Scratch, Shown};
use std::alloc::Global;
use tight_leaf::mark_leaf;

/// The proof that a half gets, below a leaf of this bound: that of its mark, where the mark raises its bound or shows that it holds no plan.
pub(crate) fn raised_half(
    alloc: Global,
    net: &Network,
    form: Form,
    ends: &BoxEnds,
    above: Option<i128>,
    proof: Option<Proof>,
    pivots: u32,
    scratch: &mut Scratch,
) -> Result<Option<Proof>, Memory>
    requires ends { AreEnds (net_of net.now) ends.now }
    requires fits { Fits (net_of net.now) scratch.old }
    ensures raised { (b : Box) → AreEndsOf (net_of net.now) b ends.now → ForSome (option_map shown_proof proof) (IsInOrder (net_of net.now) b)
        → IfOk result (λ o. given.IsRaisedHalf (net_of net.now) form b pivots above (option_map shown_proof proof) (option_map shown_proof o)) }
    ensures fits { Fits (net_of net.now) scratch.new }
{
    let shown = shown_of(net, ends, &proof, scratch);
    let Some(low) = raised(above, shown) else {
        return Ok(proof);
    };
    let view = ends.view();
    let mark = mark_leaf(alloc, net, form, &view, low, None, pivots, scratch)?;
    Ok(proof_by(mark, proof))
}

/// What a half's proof shows of its box, where it has one. A proof in order has no fault.
fn shown_of(
    net: &Network,
    ends: &BoxEnds,
    proof: &Option<Proof>,
    scratch: &mut Scratch,
) -> Option<Shown>
    requires ends { AreEnds (net_of net.now) ends.now }
    requires fits { Fits (net_of net.now) scratch.old }
    ensures shown { (b : Box) → AreEndsOf (net_of net.now) b ends.now → ForSome (option_map shown_proof proof.now) (IsInOrder (net_of net.now) b)
        → option_map shown_value result ≡ option_map (shown_by (net_of net.now) b) (option_map shown_proof proof.now) }
    ensures fits { Fits (net_of net.now) scratch.new }
{
    match proof {
        None => None,
        Some(proof) => match value_in(net, ends, proof, scratch) {
            Ok(shown) => Some(shown),
            Err(_) => None,
        },
    }
}

/// What a mark leaves of a half's proof.
fn proof_by(mark: Mark, proof: Option<Proof>) -> Option<Proof>
    ensures { option_map shown_proof result ≡ given.proof_by mark (option_map shown_proof proof) }
{
    match mark {
        Mark::Raised(better, _) => Some(better),
        Mark::Empty(none) => Some(none),
        Mark::Tight(_) | Mark::Loose(_) => proof,
    }
}
