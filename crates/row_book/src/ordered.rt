//! Whether a proof's row numbers and multipliers are in order.

ghost use Rattle.std.specs.Prelude.{◌≡◌, ◌≢◌, ◌^◌, ◌<◌, ◌≤◌, ◌↔◌, All, length, pos, IsTrue, OnOk, IfErr};
ghost use Rattle.pool_model.specs.Network.{net_of, IsLimited};
ghost use Rattle.row_model.specs.Boxes.{Box};
ghost use Rattle.row_model.specs.Catalogue as catalogue;
ghost use Rattle.row_model.specs.Multipliers.{IsRising, IsSigned};
ghost use Rattle.box_space.specs.Views.{shown_proof, shown_kind};
ghost use Rattle.row_book.specs.Faults.{IsFirstFault};

use crate::catalogue::rows;
use crate::fault::ProofFault;
use blend_network::Network;
use box_space::{Part, Proof, RowKind};

/// Order or UnknownRow, in whatever box, where the rows' numbers show one of them.
pub(crate) fn check_rows(net: &Network, proof: &Proof) -> Result<(), ProofFault>
    ensures limited { IsLimited (net_of net.now) }
    ensures rising { OnOk result (IsRising (shown_proof proof.now).parts) }
    ensures known { OnOk result (All (λ q. q.row < catalogue.rows (net_of net.now)) (shown_proof proof.now).parts) }
    ensures few { OnOk result (length proof.now.parts.items ≤ 2 ^ 14) }
    ensures fault { (b : Box) → IfErr result (IsFirstFault (net_of net.now) b (shown_proof proof.now)) }
{
    let count = rows(net);
    if !is_rising(proof) {
        return Err(ProofFault::Order);
    }
    if !are_rows(proof, count) {
        return Err(ProofFault::UnknownRow);
    }
    Ok(())
}

/// Whether row numbers rise strictly.
fn is_rising(proof: &Proof) -> bool
    ensures { IsTrue result ↔ IsRising (shown_proof proof.now).parts }
{
    let parts = proof.parts.as_slice();
    for i in 1..parts.len() {
        if parts[i].row <= parts[i - 1].row {
            return false;
        }
    }
    true
}

/// Whether each row number is below a count.
fn are_rows(proof: &Proof, count: u32) -> bool
    ensures { IsTrue result ↔ All (λ q. q.row < count) (shown_proof proof.now).parts }
{
    for part in &proof.parts {
        if part.row >= count {
            return false;
        }
    }
    true
}

/// Whether a part's multiplier may stand on a row of this kind.
pub(crate) fn may_stand(part: Part, kind: RowKind) -> bool
    ensures { IsTrue result ↔ IsSigned (shown_kind kind) part.mult }
{
    match kind {
        RowKind::AtLeast => part.mult >= 0,
        RowKind::Equal => true,
    }
}

/// Whether no multiplier is 0.
pub(crate) fn are_nonzero(proof: &Proof) -> bool
    ensures { IsTrue result ↔ All (λ q. q.mult ≢ pos 0) (shown_proof proof.now).parts }
{
    for part in &proof.parts {
        if part.mult == 0 {
            return false;
        }
    }
    true
}
