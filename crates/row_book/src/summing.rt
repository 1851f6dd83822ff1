//! The number of a proof, by one pass over its parts.

ghost use Rattle.std.specs.Prelude.{◌≡◌, ℕ, ◌^◌, ◌<◌, ◌≤◌, [], All, length, get_or, pos, IfOk, IfErr, OnOk};
ghost use Rattle.pool_model.specs.Network.{net_of};
ghost use Rattle.row_model.specs.Catalogue as catalogue;
ghost use Rattle.row_model.specs.Multipliers.{IsRising};
ghost use Rattle.row_model.specs.Variables.{variables};
ghost use Rattle.box_space.specs.Views.{shown_part, shown_proof, shown_box, IsView};
ghost use Rattle.row_book.specs.Faults.{IsFirstFault};
ghost use Rattle.row_book.specs.Fitting.{Fits};
ghost use Rattle.row_book.specs.PartRows.{IsRow};
ghost use Rattle.row_book.specs.PartSums.{AreInOrder, number_of, weight_of};
ghost use Rattle.row_book.specs.Passing.{AreSums, HasRoom, IsAdded};

use crate::catalogue::row_at;
use crate::fault::ProofFault;
use crate::multiplying::{clear, fill_costs, more_product, sum_of_ends};
use crate::ordered::{are_nonzero, may_stand};
use crate::scratch::Scratch;
use crate::sums::Sums;
use crate::weighing::{add_row, weigh_rests};
use blend_network::Network;
use box_space::{BoxView, LinRow, Part, Proof};
use exact_num::{Weight, Wide};

/// The number of a proof whose rows are in order, or the first of the faults Sign, ZeroPart and Wide that it has.
pub(crate) fn number(
    net: &Network,
    v: &BoxView,
    proof: &Proof,
    scratch: &mut Scratch,
) -> Result<i128, ProofFault>
    requires view { IsView (net_of net.now) v.now }
    requires fits { Fits (net_of net.now) scratch.old }
    requires rising { IsRising (shown_proof proof.now).parts }
    requires known { All (λ q. q.row < catalogue.rows (net_of net.now)) (shown_proof proof.now).parts }
    requires few { length proof.now.parts.items ≤ 2 ^ 14 }
    ensures in_order { OnOk result (AreInOrder (net_of net.now) (shown_box v.now) (shown_proof proof.now)) }
    ensures narrow { OnOk result (weight_of (net_of net.now) (shown_box v.now) (shown_proof proof.now) ≤ 2 ^ 126) }
    ensures number { IfOk result (λ z. z ≡ number_of (net_of net.now) (shown_box v.now) (shown_proof proof.now)) }
    ensures fault { IfErr result (IsFirstFault (net_of net.now) (shown_box v.now) (shown_proof proof.now)) }
    ensures fits { Fits (net_of net.now) scratch.new }
{
    let rests = scratch.rests.as_mut_slice();
    let number = number_by(net, v, proof, rests, &mut scratch.row);
    clear(rests);
    number
}

/// The same, by numbers that are 0 and a row, which are written over. Each of the proof's rows is written once.
fn number_by(
    net: &Network,
    v: &BoxView,
    proof: &Proof,
    rests: &mut [i128],
    row: &mut LinRow,
) -> Result<i128, ProofFault>
    requires view { IsView (net_of net.now) v.now }
    requires places { length rests.old ≡ variables (net_of net.now) }
    requires zero { (i : ℕ) → i < variables (net_of net.now) → get_or rests.old i (pos 0) ≡ pos 0 }
    requires rising { IsRising (shown_proof proof.now).parts }
    requires known { All (λ q. q.row < catalogue.rows (net_of net.now)) (shown_proof proof.now).parts }
    requires few { length proof.now.parts.items ≤ 2 ^ 14 }
    ensures in_order { OnOk result (AreInOrder (net_of net.now) (shown_box v.now) (shown_proof proof.now)) }
    ensures narrow { OnOk result (weight_of (net_of net.now) (shown_box v.now) (shown_proof proof.now) ≤ 2 ^ 126) }
    ensures number { IfOk result (λ z. z ≡ number_of (net_of net.now) (shown_box v.now) (shown_proof proof.now)) }
    ensures fault { IfErr result (IsFirstFault (net_of net.now) (shown_box v.now) (shown_proof proof.now)) }
{
    let mut sums = sum_costs(net, v, proof.scale, rests);
    for part in &proof.parts {
        let kind = row_at(net, v, part.row, row);
        if !may_stand(*part, kind) {
            return Err(ProofFault::Sign);
        }
        sums = with_part(net, v, *part, row, rests, sums);
    }
    if !are_nonzero(proof) {
        return Err(ProofFault::ZeroPart);
    }
    let sums = sums?;
    Ok(sum_of_ends(net, v, rests) - sums.constants)
}

/// Writes the scaled cost of each variable over zeros, and weighs them.
fn sum_costs(net: &Network, v: &BoxView, scale: u64, rests: &mut [i128]) -> Result<Sums, Wide>
    requires view { IsView (net_of net.now) v.now }
    requires places { length rests.old ≡ variables (net_of net.now) }
    requires zero { (i : ℕ) → i < variables (net_of net.now) → get_or rests.old i (pos 0) ≡ pos 0 }
    ensures { AreSums (net_of net.now) (shown_box v.now) scale [] rests.new result }
{
    fill_costs(net, scale, rests);
    let mut weight = Weight::new();
    weigh_rests(net, v, rests, &mut weight)?;
    let constants = 0;
    Ok(Sums { weight, constants })
}

/// Adds a part, whose row is written, to the sums and takes it off the rests. Wide sums stay so, and nothing is added to them.
fn with_part(
    net: &Network,
    v: &BoxView,
    part: Part,
    row: &LinRow,
    rests: &mut [i128],
    sums: Result<Sums, Wide>,
) -> Result<Sums, Wide>
    requires view { IsView (net_of net.now) v.now }
    requires places { length rests.old ≡ variables (net_of net.now) }
    requires written { IsRow (net_of net.now) (shown_box v.now) part.row row.now }
    requires room { IfOk sums (HasRoom (net_of net.now) rests.old) }
    ensures { IsAdded (net_of net.now) (shown_box v.now) (shown_part part) rests.old rests.new sums result }
{
    let mut sums = sums?;
    add_row(net, v, part.mult, row, rests, &mut sums.weight)?;
    sums.constants = more_product(sums.constants, part.mult, row.constant());
    Ok(sums)
}
