//! Why a certificate is refused.

ghost use Rattle.std.specs.Prelude.{◌≡◌};
ghost use Rattle.pool_model.specs.Network.{Net};
ghost use Rattle.cert_format.specs.Cert.{Cert};
ghost use Rattle.proof_lines.specs.Refusals.{rank as cause_rank, Refuses};
ghost use Rattle.proof_lines.specs.declared.refusal.Refusal.TheVariants as refusals;

use cert_format::TextFault;
use edge_io::Memory;
use faults::Ranked;
use plan_core::PlanFault;
use row_book::ProofFault;
use std::alloc::AllocFailed;

/// Why a certificate is refused. The causes are looked for in this order, and the first is answered.
#[derive(Clone, Copy, Debug, PartialEq, Eq)]
pub enum Refusal {
    /// No certificate has this text.
    Text(TextFault),
    /// The shape is not the network's counts.
    Shape,
    /// The plan breaks a rule of the network.
    Plan(PlanFault),
    /// This split, from 0, names no leaf, no coordinate or a cut that is not strictly inside the leaf's box; or there are as many
    /// before it as there may be.
    Split(u32),
    /// This proof line, from 0, names no node, or one that is not above that of the line before.
    ProofPlace(u32),
    /// The proof of this node is not in order in the node's box.
    Proof(u32, ProofFault),
    /// It is claimed that no plan obeys while a leaf may hold one, or something else while no leaf may.
    WrongKind,
    /// The cost over the base is not the plan's, as it is counted.
    WrongCost,
    /// The bound is not the tree's.
    WrongBound,
    /// The gap is not the cost less the bound, over the base.
    WrongGap,
    /// There was no memory.
    Memory,
}

impl Ranked for Refusal {
    ghost rank = { cause_rank };

    ghost Subject = { Net × Cert };

    ghost Holds = { λ s. Refuses s.0 s.1 };
}

impl From<Memory> for Refusal {
    ghost from_gives = { λ _ r. r ≡ refusals.Memory };

    fn from(_e: Memory) -> Refusal {
        Refusal::Memory
    }
}

impl<T: Drop> From<AllocFailed<T>> for Refusal {
    ghost from_gives = { λ _ r. r ≡ refusals.Memory };

    fn from(_e: AllocFailed<T>) -> Refusal {
        Refusal::Memory
    }
}
