//! What can go wrong where a file is read.

ghost use Rattle.std.specs.Prelude.{◌≡◌};
ghost use Rattle.shelf_calls.specs.declared.fault.OpenFault.TheVariants as open_faults;
ghost use Rattle.shelf_calls.specs.declared.fault.ShelfFault.TheVariants as faults;

use std::alloc::{AllocError, AllocFailed};

/// Why a file was not read.
#[derive(Clone, Copy, Debug, PartialEq, Eq)]
pub enum ShelfFault {
    /// The shelf failed: its count of faults rose.
    Failed,
    /// The file has more bytes than were asked for at the most.
    TooLong,
    /// There is no memory left.
    Memory,
}

impl From<AllocError> for ShelfFault {
    ghost from_gives = { λ _ e. e ≡ faults.Memory };

    fn from(_e: AllocError) -> ShelfFault {
        ShelfFault::Memory
    }
}

impl<T: Drop> From<AllocFailed<T>> for ShelfFault {
    ghost from_gives = { λ _ e. e ≡ faults.Memory };

    fn from(_e: AllocFailed<T>) -> ShelfFault {
        ShelfFault::Memory
    }
}

/// Why a file was not opened.
#[derive(Clone, Copy, Debug, PartialEq, Eq)]
pub enum OpenFault {
    /// The shelf failed: its count of faults rose.
    Failed,
    /// There is no memory left.
    Memory,
}

impl From<AllocError> for OpenFault {
    ghost from_gives = { λ _ e. e ≡ open_faults.Memory };

    fn from(_e: AllocError) -> OpenFault {
        OpenFault::Memory
    }
}

/// A shelf gave no more of the file that it had opened: its count of faults rose.
#[derive(Clone, Copy, Debug, PartialEq, Eq)]
pub struct ReadFailed;
