//! Entries of a search, and why one is refused.

ghost use Rattle.std.specs.Prelude.{◌≡◌};
ghost use Rattle.pool_model.specs.Network.{Net};
ghost use Rattle.row_model.specs.Entries.{Entry as ShownEntry, Searched};
ghost use Rattle.box_tree.specs.EntryFaults.{of_split, rank as fault_rank, Holds as IsThere};
ghost use Rattle.box_tree.specs.declared.entry.EntryFault.TheVariants as entry_faults;

use box_space::{Proof, Split};
use edge_io::Memory as NoMemory;
use faults::Ranked;
use plan_core::{PlanFault, WrittenPlan};
use row_book::ProofFault;
use split_tree::SplitFault;
use std::alloc::AllocError;

/// What a search records.
#[derive(Debug, Drop)]
pub enum Entry {
    /// A proof of the root.
    Root(Proof),
    /// A split of a leaf, with proofs of its left and of its right half, where there are some.
    SplitOf(Split, Option<Proof>, Option<Proof>),
    /// A plan that is cheaper than the best so far.
    Improve(WrittenPlan),
}

/// Why an entry is refused: the first cause in this order. The tree is then as it was.
#[derive(Clone, Copy, Debug, PartialEq, Eq)]
pub enum EntryFault {
    /// The split's node is none of the tree, or is cut already.
    NotALeaf,
    /// The split's coordinate is not below the number of coordinates.
    BadCoord,
    /// The cut is not strictly inside the leaf's box.
    CutOutside,
    /// There are as many splits as there may be.
    TooManySplits,
    /// The proof is not in order in its node's box; of two halves, the left one's first.
    BadProof(ProofFault),
    /// The plan breaks a rule of the network.
    BadPlan(PlanFault),
    /// There is a plan already, and this one is not cheaper.
    PlanNotBetter,
    /// The root has a proof already, or is cut.
    RootLate,
    /// There was no memory for the entry. It may come in place of any other answer.
    Memory,
}

impl Ranked for EntryFault {
    ghost rank = { fault_rank };

    ghost Subject = { Net × Searched × ShownEntry };

    ghost Holds = { λ s. IsThere s.0 s.1 s.2 };
}

impl From<SplitFault> for EntryFault {
    ghost from_gives = { λ f e. e ≡ of_split f };

    fn from(fault: SplitFault) -> EntryFault {
        match fault {
            SplitFault::NotALeaf => EntryFault::NotALeaf,
            SplitFault::BadCoord => EntryFault::BadCoord,
            SplitFault::CutOutside => EntryFault::CutOutside,
            SplitFault::TooManySplits => EntryFault::TooManySplits,
        }
    }
}

impl From<ProofFault> for EntryFault {
    ghost from_gives = { λ f e. e ≡ entry_faults.BadProof f };

    fn from(fault: ProofFault) -> EntryFault {
        EntryFault::BadProof(fault)
    }
}

impl From<PlanFault> for EntryFault {
    ghost from_gives = { λ f e. e ≡ entry_faults.BadPlan f };

    fn from(fault: PlanFault) -> EntryFault {
        EntryFault::BadPlan(fault)
    }
}

impl From<NoMemory> for EntryFault {
    ghost from_gives = { λ _ e. e ≡ entry_faults.Memory };

    fn from(_e: NoMemory) -> EntryFault {
        EntryFault::Memory
    }
}

impl From<AllocError> for EntryFault {
    ghost from_gives = { λ _ e. e ≡ entry_faults.Memory };

    fn from(_e: AllocError) -> EntryFault {
        EntryFault::Memory
    }
}
