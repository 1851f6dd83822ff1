//! What is held lies in the ranges of its types, so a certificate that is held has a text. These walks read, and do nothing
//! else.

ghost use Rattle.std.specs.Prelude.{◌<◌, ◌^◌, All};
ghost use Rattle.plan_core.specs.Views.{shown_plan};
ghost use Rattle.box_space.specs.Views.{shown_part, shown_split};
ghost use Rattle.cert_writing.specs.Cert.{IsShaped, IsPlanInRange, IsClaimInRange, IsSplitInRange, IsPartInRange, IsProofInRange, IsCert};
ghost use Rattle.cert_writing.specs.Views.{shown_claim, shown_node_proof, shown_cert};

use crate::certificate::{Certificate, Claim, NodeProof};
use box_space::{Part, Split};
use plan_core::WrittenPlan;

/// A certificate that is held, and whose lists have the lengths that they should, has a text: what `write_cert` writes of it
/// is read as this certificate and as no other.
pub fn cert_law(cert: &Certificate)
    requires { IsShaped (shown_cert cert.now) }
    // Promise: A certificate that the program holds, with lists of the lengths that it says, has a text
    ensures { IsCert (shown_cert cert.now) }
{
    numbers(&cert.shape);
    claim(&cert.claim);
    splits(cert.splits.as_slice());
    proofs(cert.proofs.as_slice());
}

fn claim(claim: &Claim)
    ensures { IsClaimInRange (shown_claim claim.now) }
{
    match claim {
        Claim::Gap {
            plan: written,
            cost,
            base,
            bound,
            gap,
        } => {
            plan(written);
            let _cost = *cost;
            let _base = *base;
            let _bound = *bound;
            let _gap = *gap;
        }
        Claim::Bound { bound } => {
            let _bound = *bound;
        }
        Claim::NoPlan => {}
    }
}

fn plan(plan: &WrittenPlan)
    ensures { IsPlanInRange (shown_plan plan.now) }
{
    let _base = plan.base;
    let _flow_base = plan.flow_base;
    numbers(plan.weights.as_slice());
    flows(plan.outflows.as_slice());
    flows(plan.direct.as_slice());
}

/// Splits that are held are in range.
pub fn splits(splits: &[Split])
    ensures { All (λ s. IsSplitInRange (shown_split s)) splits.now }
{
    for each in splits {
        split(each);
    }
}

/// A split that is held is in range.
pub fn split(split: &Split)
    ensures { IsSplitInRange (shown_split split.now) }
{
    let _leaf = split.leaf;
    let _coord = split.coord;
    let _cut = split.cut;
}

fn proofs(proofs: &[NodeProof])
    ensures { All (λ p. IsProofInRange (shown_node_proof p)) proofs.now }
{
    for each in proofs {
        proof(each);
    }
}

fn proof(proof: &NodeProof)
    ensures { IsProofInRange (shown_node_proof proof.now) }
{
    let _node = proof.node;
    let _scale = proof.proof.scale;
    parts(proof.proof.parts.as_slice());
}

/// Parts that are held are in range.
pub fn parts(parts: &[Part])
    ensures { All (λ p. IsPartInRange (shown_part p)) parts.now }
{
    for each in parts {
        part(each);
    }
}

fn part(part: &Part)
    ensures { IsPartInRange (shown_part part.now) }
{
    let _row = part.row;
    let _mult = part.mult;
}

/// Numbers that are held are in range.
pub fn numbers(numbers: &[u32])
    ensures { All (λ n. n < 2 ^ 32) numbers.now }
{
    for number in numbers {
        let _number = *number;
    }
}

fn flows(flows: &[u64])
    ensures { All (λ n. n < 2 ^ 64) flows.now }
{
    for flow in flows {
        let _flow = *flow;
    }
}
