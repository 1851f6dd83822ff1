//! What a certificate says.

use box_space::{Proof, Split};
use plan_core::WrittenPlan;

/// A certificate of a network.
#[derive(Debug, Drop)]
pub struct Certificate {
    /// How many sources, pools, products, qualities, feeds, outs and directs the network has.
    pub shape: [u32; 7],
    pub claim: Claim,
    /// The cuts of the tree of boxes, in order: number t, from 0, cuts its leaf into the nodes 2t + 1 and 2t + 2.
    pub splits: Vec<Split>,
    /// Proofs on boxes of the tree, by their nodes.
    pub proofs: Vec<NodeProof>,
}

/// A proof on the box of a node.
#[derive(Debug, Drop)]
pub struct NodeProof {
    pub node: u32,
    pub proof: Proof,
}

/// What a certificate claims.
#[derive(Debug, Drop)]
pub enum Claim {
    /// This plan obeys the network and costs `cost / base` picos, every plan that obeys costs at least `bound` picos,
    /// and `gap / base` picos lie between the two.
    Gap {
        plan: WrittenPlan,
        cost: i128,
        base: u64,
        bound: i128,
        gap: i128,
    },
    /// Every plan that obeys the network costs at least `bound` picos.
    Bound {
        bound: i128,
    },
    /// No plan obeys the network.
    NoPlan,
}
