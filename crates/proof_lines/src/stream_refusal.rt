//! Why no certificate in an opened file was accepted.

ghost use Rattle.std.specs.Prelude.{◌≡◌};
ghost use Rattle.proof_lines.specs.Runs.{of_fault, of_refusal};
ghost use Rattle.proof_lines.specs.declared.stream_refusal.StreamRefusal.TheVariants as streams;

use crate::refusal::Refusal;
use cert_stream::ItemFault;
use edge_io::Memory;
use std::alloc::{AllocError, AllocFailed};

/// Why no certificate was accepted.
#[derive(Clone, Copy, Debug, PartialEq, Eq)]
pub enum StreamRefusal {
    /// The shelf failed: its count of faults rose.
    Read,
    /// The file has more bytes than it may have.
    TooLong,
    /// The certificate is refused. Want of memory is not told by this.
    Refused(Refusal),
    /// There was no memory.
    Memory,
}

impl From<ItemFault> for StreamRefusal {
    ghost from_gives = { λ e r. r ≡ of_fault e };

    fn from(fault: ItemFault) -> StreamRefusal {
        match fault {
            ItemFault::Read => StreamRefusal::Read,
            ItemFault::TooLong => StreamRefusal::TooLong,
            ItemFault::Text(fault) => StreamRefusal::Refused(Refusal::Text(fault)),
        }
    }
}

impl From<Refusal> for StreamRefusal {
    ghost from_gives = { λ e r. r ≡ of_refusal e };

    fn from(refusal: Refusal) -> StreamRefusal {
        match refusal {
            Refusal::Memory => StreamRefusal::Memory,
            refusal => StreamRefusal::Refused(refusal),
        }
    }
}

impl From<Memory> for StreamRefusal {
    ghost from_gives = { λ _ r. r ≡ streams.Memory };

    fn from(_e: Memory) -> StreamRefusal {
        StreamRefusal::Memory
    }
}

impl From<AllocError> for StreamRefusal {
    ghost from_gives = { λ _ r. r ≡ streams.Memory };

    fn from(_e: AllocError) -> StreamRefusal {
        StreamRefusal::Memory
    }
}

impl<T: Drop> From<AllocFailed<T>> for StreamRefusal {
    ghost from_gives = { λ _ r. r ≡ streams.Memory };

    fn from(_e: AllocFailed<T>) -> StreamRefusal {
        StreamRefusal::Memory
    }
}
