//! A certificate out of a tree.

ghost use Rattle.std.specs.Prelude.{◌≡◌, ◌++◌, OnOk, ◌<◌, ◌^◌, ◌*◌, map, length, get_or, option_map, None, IfOk, neg_ℤ, pos, ◌-ℤ◌, ◌*ℤ◌, ◌≤ℤ◌, ◌≤◌, unsigned_abs};
ghost use Rattle.std.specs.Option.{ForSome};
ghost use Rattle.pool_model.specs.Network.{IsLimited, net_of};
ghost use Rattle.pool_model.specs.Plan.{Obeys, IsWritten, plan_of as written_plan};
ghost use Rattle.pool_model.specs.Claim.{IsBound};
ghost use Rattle.plan_core.specs.Faults.{IsCostOf};
ghost use Rattle.plan_core.specs.Views.{shown_plan};
ghost use Rattle.box_space.specs.Views.{shown_proof};
ghost use Rattle.box_tree.specs.Kept.{searched_of, IsOf};
ghost use Rattle.cert_format.specs.Cert.{IsCert};
ghost use Rattle.cert_format.specs.Text.{text_of};
ghost use Rattle.cert_format.specs.Valid.{IsValid};
ghost use Rattle.cert_format.specs.Views.{shown_cert, shown_claim, shown_node_proof};
ghost use Rattle.cert_lengths.specs.Lengths.{HasFewRows, most_bytes};
ghost use Rattle.tree_certificate.specs.Certificates.{cert_of, claim_of as claim_by, gap_of, line_of, node_proofs as lines_of};

use blend_network::Network;
use box_space::Proof;
use box_tree::{Best, Tree};
use cert_format::{Certificate, Claim, NodeProof, cert_law};
use edge_io::Memory;
use plan_core::{Cost, WrittenPlan, check_plan};
use std::alloc::{AllocError, Global};

/// The certificate of a tree and its cheapest plan: it is valid for the network, and it has a text.
pub fn certificate_of(alloc: Global, net: &Network, tree: Tree) -> Result<Certificate, Memory>
    requires { IsOf (net_of net.now) tree }
    // Promise: The certificate of a tree is the definition's: its splits, its proofs in order, and what the cheapest plan and the bound
    //   show together
    ensures found { IfOk result (λ c. shown_cert c ≡ cert_of (net_of net.now) (searched_of tree.kept)) }
    // Promise: The certificate of a tree is valid, and has a text
    ensures valid { IfOk result (λ c. IsValid (net_of net.now) (shown_cert c)) }
    // Promise: The certificate of a tree is valid, and has a text
    ensures held { IfOk result (λ c. IsCert (shown_cert c)) }
    // Promise: The text of the certificate of a tree has at most 1,073,741,824 bytes, where twice its cuts and one, times the rows of the
    //   network, is at most 32,000,000
    ensures short { IfOk result (λ c. HasFewRows (net_of net.now) (length (shown_cert c).splits) → length (text_of (shown_cert c)) ≤ most_bytes) }
    ensures limited { IsLimited (net_of net.now) }
{
    let shape = net.counts();
    let bound = tree.bound();
    let parts = tree.into_parts();
    let certificate = Certificate {
        shape,
        claim: claim_of(net, plan_of(parts.best), bound),
        splits: parts.splits,
        proofs: node_proofs(alloc, parts.proofs)?,
    };
    cert_law(&certificate);
    Ok(certificate)
}

/// The plan alone.
fn plan_of(best: Option<Best>) -> Option<WrittenPlan>
    ensures { option_map shown_plan result ≡ option_map (λ b. shown_plan b.plan) best }
{
    match best {
        None => None,
        Some(best) => Some(best.plan),
    }
}

/// What the cheapest plan and the tree's bound show together.
fn claim_of(net: &Network, best: Option<WrittenPlan>, bound: Option<i128>) -> Claim
    requires written { ForSome (option_map shown_plan best) (IsWritten (net_of net.now)) }
    requires obeys { ForSome (option_map shown_plan best) (λ w. Obeys (net_of net.now) (written_plan (net_of net.now) w)) }
    requires holds { ForSome bound (IsBound (net_of net.now)) }
    requires low { ForSome bound (λ z. neg_ℤ (pos (256 * 10 ^ 24)) ≤ℤ z) }
    ensures { shown_claim result ≡ claim_by (net_of net.now) (option_map shown_plan best) bound }
{
    match (best, bound) {
        (_, None) => Claim::NoPlan,
        (None, Some(bound)) => Claim::Bound { bound },
        (Some(plan), Some(bound)) => gap(net, plan, bound),
    }
}

/// A plan that obeys with its cost, a bound, and the exact gap between them.
fn gap(net: &Network, plan: WrittenPlan, bound: i128) -> Claim
    requires written { IsWritten (net_of net.now) (shown_plan plan) }
    requires obeys { Obeys (net_of net.now) (written_plan (net_of net.now) (shown_plan plan)) }
    requires holds { IsBound (net_of net.now) bound }
    requires low { neg_ℤ (pos (256 * 10 ^ 24)) ≤ℤ bound }
    ensures { shown_claim result ≡ gap_of (net_of net.now) (shown_plan plan) bound }
{
    let cost = cost_of(net, &plan);
    Claim::Gap {
        plan,
        cost: cost.num,
        base: cost.base,
        bound,
        gap: gap_between(cost, bound),
    }
}

/// What a plan that obeys costs.
fn cost_of(net: &Network, plan: &WrittenPlan) -> Cost
    requires written { IsWritten (net_of net.now) (shown_plan plan.now) }
    requires obeys { Obeys (net_of net.now) (written_plan (net_of net.now) (shown_plan plan.now)) }
    ensures cost { IsCostOf (net_of net.now) (shown_plan plan.now) result }
    ensures size { unsigned_abs result.num ≤ 2 ^ 124 }
{
    check_plan(net, plan).unwrap()
}

/// What lies between a bound and a cost above it, over the cost's base.
fn gap_between(cost: Cost, bound: i128) -> i128
    requires size { unsigned_abs cost.num ≤ 2 ^ 124 }
    requires few { cost.base ≤ 65536 * 1048576 }
    requires low { neg_ℤ (pos (256 * 10 ^ 24)) ≤ℤ bound }
    requires above { (bound *ℤ pos cost.base) ≤ℤ cost.num }
    ensures { result ≡ cost.num -ℤ bound *ℤ pos cost.base }
{
    cost.num - bound * i128::from(cost.base)
}

/// The lines of the nodes that have a proof, in order of the nodes.
fn node_proofs(alloc: Global, mut proofs: Vec<Option<Proof>>) -> Result<Vec<NodeProof>, AllocError>
    requires { length proofs.items < 2 ^ 32 }
    ensures { IfOk result (λ lines. map shown_node_proof lines.items ≡ lines_of (λ node. get_or (map (option_map shown_proof) proofs.items) node None) (length proofs.items)) }
{
    let mut lines = Vec::new(alloc);
    for node in 0..proofs.len() {
        push_proof(&mut lines, node as u32, proofs[node].take())?;
    }
    Ok(lines)
}

/// Adds the line of a node, where it has a proof.
fn push_proof(lines: &mut Vec<NodeProof>, node: u32, proof: Option<Proof>) -> Result<(), AllocError>
    ensures { OnOk result (map shown_node_proof lines.new.items ≡ map shown_node_proof lines.old.items ++ line_of node (option_map shown_proof proof)) }
{
    if let Some(proof) = proof {
        lines.push(NodeProof { node, proof })?;
    }
    Ok(())
}
