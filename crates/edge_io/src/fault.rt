//! What can go wrong where bytes are written, and want of memory.

use std::alloc::{AllocError, AllocFailed};

/// There is no memory left.
#[derive(Clone, Copy, Debug, PartialEq, Eq)]
pub struct Memory;

impl From<AllocError> for Memory {
    fn from(_e: AllocError) -> Memory {
        Memory
    }
}

impl<T: Drop> From<AllocFailed<T>> for Memory {
    fn from(_e: AllocFailed<T>) -> Memory {
        Memory
    }
}

/// A sink took nothing of a piece.
#[derive(Clone, Copy, Debug, PartialEq, Eq)]
pub struct SinkFailed;

/// A sink did not take all that was written to it.
#[derive(Clone, Copy, Debug, PartialEq, Eq)]
pub struct WriteFault;

impl From<SinkFailed> for WriteFault {
    fn from(_e: SinkFailed) -> WriteFault {
        WriteFault
    }
}
