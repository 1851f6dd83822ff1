//! Why a call of the system failed.

ghost use Rattle.std.specs.Prelude.{◌≡◌};
ghost use Rattle.edge_io.specs.declared.call.CallFault.TheVariants as faults;

use std::alloc::AllocError;
use std::io;
use std::io::ErrorKind;

/// Why a call of the system failed.
#[derive(Clone, Copy, Debug, PartialEq, Eq)]
pub enum CallFault {
    /// A signal broke it off before it had done anything.
    Interrupted,
    /// There is no memory left.
    Memory,
    /// Anything else.
    Failed,
}

impl From<io::Error> for CallFault {
    fn from(e: io::Error) -> CallFault {
        match e.kind() {
            ErrorKind::Interrupted => CallFault::Interrupted,
            ErrorKind::OutOfMemory => CallFault::Memory,
            _ => CallFault::Failed,
        }
    }
}

impl From<AllocError> for CallFault {
    ghost from_gives = { λ _ e. e ≡ faults.Memory };

    fn from(_e: AllocError) -> CallFault {
        CallFault::Memory
    }
}
