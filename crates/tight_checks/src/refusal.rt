//! Why a text of marks is refused.

ghost use Rattle.std.specs.Prelude.{◌≡◌};
ghost use Rattle.pool_model.specs.Network.{Net};
ghost use Rattle.row_model.specs.Trees.{Tree};
ghost use Rattle.tight_texts.specs.declared.marks.TightText.{TightText};
ghost use Rattle.tight_checks.specs.Refusals.{number as cause_number, rank as cause_rank, read_refusal, Refuses};
ghost use Rattle.tight_checks.specs.declared.refusal.TightRefusal.TheVariants as refusals;

use edge_io::Memory as NoMemory;
use faults::Ranked;
use std::alloc::{AllocError, AllocFailed};
use tight_texts::ReadFault;

/// Why a text of marks is refused. The causes are looked for in this order, and the first is answered.
#[derive(Clone, Copy, Debug, PartialEq, Eq)]
pub enum TightRefusal {
    /// No marks have this text. This is its first faulty line, from 1.
    Text(u64),
    /// The nodes aren't those of the leaves that may hold a plan, in order.
    Leaves,
    /// The mark of this node doesn't hold; those of the nodes below it do.
    BadMark(u32),
    /// The bound isn't the least that the marks leave.
    WrongBound,
    /// There was no memory.
    Memory,
}

impl TightRefusal {
    /// The number of the cause, from 1, in the order in which they are looked for.
    pub fn number(&self) -> u32
        ensures { result ≡ cause_number self.now }
    {
        match self {
            TightRefusal::Text(_) => 1,
            TightRefusal::Leaves => 2,
            TightRefusal::BadMark(_) => 3,
            TightRefusal::WrongBound => 4,
            TightRefusal::Memory => 5,
        }
    }
}

impl Ranked for TightRefusal {
    ghost rank = { cause_rank };

    ghost Subject = { Net × Tree × TightText };

    ghost Holds = { λ s. Refuses s.0 s.1 s.2 };
}

impl From<ReadFault> for TightRefusal {
    ghost from_gives = { λ e r. r ≡ read_refusal e };

    fn from(e: ReadFault) -> TightRefusal {
        match e {
            ReadFault::Line(line) => TightRefusal::Text(line),
            ReadFault::Memory => TightRefusal::Memory,
        }
    }
}

impl From<NoMemory> for TightRefusal {
    ghost from_gives = { λ _ r. r ≡ refusals.Memory };

    fn from(_e: NoMemory) -> TightRefusal {
        TightRefusal::Memory
    }
}

impl From<AllocError> for TightRefusal {
    ghost from_gives = { λ _ r. r ≡ refusals.Memory };

    fn from(_e: AllocError) -> TightRefusal {
        TightRefusal::Memory
    }
}

impl<T: Drop> From<AllocFailed<T>> for TightRefusal {
    ghost from_gives = { λ _ r. r ≡ refusals.Memory };

    fn from(_e: AllocFailed<T>) -> TightRefusal {
        TightRefusal::Memory
    }
}
