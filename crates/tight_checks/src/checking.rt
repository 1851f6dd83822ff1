//! Whether a text of marks is taken.

ghost use Rattle.std.specs.Prelude.{◌≡◌, ◌<◌, ◌⊎◌, ◌↔◌, ◌^◌, IsTrue, length, IfOk, IfErr, OnOk};
ghost use Rattle.pool_model.specs.Network.{IsLimited, net_of};
ghost use Rattle.row_model.specs.Trees.{Tree};
ghost use Rattle.cert_format.specs.Valid.{IsValid, tree_of};
ghost use Rattle.cert_format.specs.Views.{shown_cert};
ghost use Rattle.tight_texts.specs.declared.marks.TightText.{TightText as AText};
ghost use Rattle.certificate_leaves.specs.Found.{IsOf};
ghost use Rattle.tight_checks.specs.Holding.{Holds, IsVerdict};
ghost use Rattle.tight_checks.specs.Judging.{AreFoundOf};
ghost use Rattle.tight_checks.specs.Refusals.{IsAccepted, IsFirstRefusal, IsRefused, IsRefusedFor, IsTakenAs, Spells};
ghost use Rattle.tight_checks.specs.Showing.{AreBest, HoldsForPlans};
ghost use Rattle.tight_checks.specs.declared.refusal.TightRefusal.{TightRefusal as ARefusal};
ghost use Rattle.tight_checks.specs.declared.refusal.TightRefusal.TheVariants as refusals;

use crate::counting::verdict_of;
use crate::judging::MarkJudge;
use crate::laws::holding_law;
use crate::nodes::name_leaves;
use crate::refusal::TightRefusal;
use crate::verdict::TightVerdict;
use blend_network::Network;
use cert_format::Certificate;
use certificate_leaves::{CertificateLeaves, leaves_law, leaves_of};
use std::alloc::Global;
use tight_texts::{TightText, read_tight};

/// How many leaves of an accepted certificate have each kind of mark by this text, and the bound that the marks come to; or the first cause to
/// refuse the text.
///
/// It goes once over the text, once over the certificate, and for each mark over the form's rows in the box of the mark's leaf.
pub fn check_tight(
    alloc: Global,
    net: &Network,
    cert: &Certificate,
    bytes: &[u8],
) -> Result<TightVerdict, TightRefusal>
    requires { IsValid (net_of net.now) (shown_cert cert.now) }
    // Promise: A text of marks is accepted only where some marks have it and hold of the certificate's leaves, with how many there are of each
    //   kind and their bound
    ensures accepted { IfOk result (IsAccepted (net_of net.now) (tree_of (shown_cert cert.now)) bytes.now) }
    // Promise: Where a text of marks is accepted, every plan that obeys costs at least its bound, and none obeys where there is none
    ensures plans { IfOk result (λ verdict. HoldsForPlans (net_of net.now) verdict.bound) }
    // Promise: Where a text of marks is accepted, no multipliers on the form's rows show more of a leaf that is marked tight or raised
    ensures best { (text : AText) → Spells bytes.now text → OnOk result (AreBest (net_of net.now) (tree_of (shown_cert cert.now)) text) }
    // Promise: Where a text of marks is refused, the first cause that there is is told, in a fixed order, and of bad marks that of the lowest node
    ensures refused { IfErr result (IsRefused (net_of net.now) (tree_of (shown_cert cert.now)) bytes.now) }
    // Promise: The text of marks that hold is accepted, or memory ran out
    ensures taken { (text : AText) → Spells bytes.now text → Holds (net_of net.now) (tree_of (shown_cert cert.now)) text → IsTakenAs text result }
    // Promise: The text of marks that don't hold is refused for the first cause, or memory ran out
    ensures told { (text : AText) (r : ARefusal) → Spells bytes.now text → IsFirstRefusal (net_of net.now) (tree_of (shown_cert cert.now)) text r → IsRefusedFor r result }
{
    let text = read_tight(alloc, bytes)?;
    holding_law();
    check_marks(alloc, net, cert, &text)
}

/// The verdict on marks that were read, or the first cause to refuse them.
fn check_marks(
    alloc: Global,
    net: &Network,
    cert: &Certificate,
    text: &TightText,
) -> Result<TightVerdict, TightRefusal>
    requires valid { IsValid (net_of net.now) (shown_cert cert.now) }
    requires few { length text.now.marks.items < 2 ^ 32 }
    ensures holds { IfOk result (λ _. Holds (net_of net.now) (tree_of (shown_cert cert.now)) text.now) }
    ensures verdict { IfOk result (IsVerdict text.now) }
    ensures refused { IfErr result (λ r. (r ≡ refusals.Memory) ⊎ IsFirstRefusal (net_of net.now) (tree_of (shown_cert cert.now)) text.now r) }
    ensures limited { OnOk result (IsLimited (net_of net.now)) }
{
    let found = leaves_of(alloc, net, cert)?;
    judge_text(alloc, net, &found, text)
}

/// The same, against the leaves that may hold a plan.
fn judge_text(
    alloc: Global,
    net: &Network,
    found: &CertificateLeaves,
    text: &TightText,
) -> Result<TightVerdict, TightRefusal>
    requires of { IsOf (net_of net.now) found.now }
    requires found { (tree : Tree) × AreFoundOf (net_of net.now) tree found.now }
    requires few { length text.now.marks.items < 2 ^ 32 }
    ensures holds { (tree : Tree) → AreFoundOf (net_of net.now) tree found.now → IfOk result (λ _. Holds (net_of net.now) tree text.now) }
    ensures verdict { IfOk result (IsVerdict text.now) }
    ensures refused { (tree : Tree) → AreFoundOf (net_of net.now) tree found.now
        → IfErr result (λ r. (r ≡ refusals.Memory) ⊎ IsFirstRefusal (net_of net.now) tree text.now r) }
{
    if !name_leaves(text.marks.as_slice(), found.leaves()) {
        leaves_law();
        return Err(TightRefusal::Leaves);
    }
    let mut judge = MarkJudge::new(alloc, net)?;
    let least = judge.least_bound(net, found, text)?;
    if !is_same(least, text.bound) {
        return Err(TightRefusal::WrongBound);
    }
    Ok(verdict_of(text))
}

/// Whether two bounds are the same.
fn is_same(a: Option<i128>, b: Option<i128>) -> bool
    ensures { IsTrue result ↔ (a ≡ b) }
{
    match (a, b) {
        (None, None) => true,
        (None, Some(_)) => false,
        (Some(_), None) => false,
        (Some(a), Some(b)) => a == b,
    }
}
