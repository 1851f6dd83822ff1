//! The marks of the leaves of a certificate.

ghost use Rattle.std.specs.Prelude.{◌≡◌, ◌<◌, option_map, IfOk, OnOk};
ghost use Rattle.pool_model.specs.Network.{net_of};
ghost use Rattle.row_model.specs.Trees as trees;
ghost use Rattle.cert_format.specs.Valid.{IsValid, tree_of};
ghost use Rattle.cert_format.specs.Views.{shown_cert, shown_claim};
ghost use Rattle.plan_core.specs.Views.{shown_plan};
ghost use Rattle.tight_leaf.specs.Ends.{IsPlanGiven};
ghost use Rattle.certificate_leaves.specs.Found.{IsOf};
ghost use Rattle.tight_checks.specs.Judging.{AreFoundOf};
ghost use Rattle.tight_checks.specs.Refusals.{Spells};
ghost use Rattle.tight_texts.specs.Texts.{marks_text};
ghost use Rattle.tight_texts.specs.Views.{shown_marks};
ghost use Rattle.tight_commands.specs.Marked.{AddsMark, AreMarksOf, AreMarksUpTo, HasRoom, claimed_plan};

use crate::ranges::marks_law;
use blend_network::Network;
use bounds::lesser_bound;
use box_space::{BoxEnds, Form, root_box, vars};
use cert_format::{Certificate, Claim};
use certificate_leaves::{CertificateLeaves, leaves_of};
use edge_io::Memory;
use leaf_order::OpenLeaf;
use plan_core::WrittenPlan;
use row_book::{Scratch, rows};
use std::alloc::Global;
use tight_checks::bound_left;
use tight_leaf::mark_leaf;
use tight_texts::{LeafMark, TightText};

/// The room in which leaves are marked, which is taken once.
#[derive(Drop)]
struct MarkRoom {
    ends: BoxEnds,
    scratch: Scratch,
}

impl MarkRoom {
    fn new(alloc: Global, net: &Network) -> Result<MarkRoom, Memory>
        ensures { IfOk result (HasRoom (net_of net.now)) }
    {
        Ok(MarkRoom {
            ends: root_box(alloc, net)?,
            scratch: Scratch::new(alloc, net)?,
        })
    }

    /// Marks a leaf behind those that are marked, and lowers the bound to what its mark leaves.
    fn mark(
        &mut self,
        alloc: Global,
        net: &Network,
        found: &CertificateLeaves,
        plan: Option<&WrittenPlan>,
        leaf: OpenLeaf,
        text: &mut TightText,
    ) -> Result<(), Memory>
        requires of { IsOf (net_of net.now) found.now }
        requires there { leaf.node < trees.nodes found.now.splits.list }
        requires plan { IsPlanGiven (net_of net.now) (option_map (λ w. shown_plan w.now) plan) }
        requires room { HasRoom (net_of net.now) self.old }
        ensures adds { OnOk result (AddsMark (net_of net.now) (trees.box_of (net_of net.now) found.now.splits.list leaf.node) (option_map (λ w. shown_plan w.now) plan.entry) leaf text.old text.new) }
        ensures room { HasRoom (net_of net.now) self.new }
    {
        found.write_box(net, leaf.node, &mut self.ends);
        let v = self.ends.view();
        let mark = mark_leaf(
            alloc,
            net,
            text.form,
            &v,
            leaf.bound,
            plan,
            text.pivots,
            &mut self.scratch,
        )?;
        let left = bound_left(net, &v, leaf.bound, &mark, &mut self.scratch);
        text.marks.push(LeafMark {
            node: leaf.node,
            mark,
        })?;
        text.bound = lesser_bound(text.bound, left);
        Ok(())
    }
}

/// What is said of the leaves of a certificate that is valid for the network, by the rows of a form and in at most so many pivots a leaf. It goes
/// once over the certificate, and once over its leaves.
pub(crate) fn marks_of(
    alloc: Global,
    net: &Network,
    form: Form,
    pivots: u32,
    cert: &Certificate,
) -> Result<TightText, Memory>
    requires { IsValid (net_of net.now) (shown_cert cert.now) }
    ensures marks { IfOk result (AreMarksOf (net_of net.now) form pivots (shown_cert cert.now)) }
    ensures spelled { IfOk result (λ text. Spells (marks_text (shown_marks text)) text) }
{
    let found = leaves_of(alloc, net, cert)?;
    let text = marks_on(alloc, net, form, pivots, cert, &found)?;
    let _rows = rows(net);
    let _variables = vars(net);
    marks_law(&text);
    Ok(text)
}

/// What is said of the leaves that were found of a certificate.
fn marks_on(
    alloc: Global,
    net: &Network,
    form: Form,
    pivots: u32,
    cert: &Certificate,
    found: &CertificateLeaves,
) -> Result<TightText, Memory>
    requires valid { IsValid (net_of net.now) (shown_cert cert.now) }
    requires of { IsOf (net_of net.now) found.now }
    requires found { AreFoundOf (net_of net.now) (tree_of (shown_cert cert.now)) found.now }
    ensures { IfOk result (AreMarksUpTo (net_of net.now) form pivots (shown_cert cert.now) found.now.leaves) }
{
    let mut room = MarkRoom::new(alloc, net)?;
    let plan = plan_of(&cert.claim);
    let mut text = TightText {
        form,
        pivots,
        marks: Vec::new(alloc),
        bound: None,
    };
    for leaf in found.leaves() {
        room.mark(alloc, net, found, plan, *leaf, &mut text)?;
    }
    Ok(text)
}

/// The plan of a claim, where it has one.
fn plan_of(claim: &Claim) -> Option<&WrittenPlan>
    ensures { option_map (λ w. shown_plan w.now) result ≡ claimed_plan (shown_claim claim.now) }
{
    match claim {
        Claim::Gap { plan, .. } => Some(plan),
        Claim::Bound { .. } | Claim::NoPlan => None,
    }
}
