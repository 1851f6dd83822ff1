//! Why a journal is not opened.

ghost use Rattle.std.specs.Prelude.{◌≡◌};
ghost use Rattle.journal_format.specs.declared.fault.JournalFault.TheVariants as faults;
ghost use Rattle.journal_format.specs.declared.fault.EntryUnread.TheVariants as unread;

use disk_calls::DiskFailed;
use std::alloc::{AllocError, AllocFailed};

/// Why a journal is not opened: the first cause in this order. The file may have been put on the disk, or be partly born.
#[derive(Clone, Copy, Debug, PartialEq, Eq)]
pub enum JournalFault {
    /// The disk failed. It may come in place of any other answer.
    Disk,
    /// The file has more than one byte, byte 0 is not 0, and the bytes 1 to 7 are not the magic.
    NotAJournal,
    /// The file is born with this version, which is neither 1 nor 2; where the byte is missing the version is 0.
    UnknownVersion(u8),
    /// The file is born with another text.
    OtherNetwork,
    /// The record of this number, from 0 and with the Turn, has an open gate. It holds no entry's bytes, and it is not the one Turn that
    /// its file may have.
    BadRecord(u64),
    /// There was no memory. It may come in place of any other answer.
    Memory,
}

impl From<DiskFailed> for JournalFault {
    ghost from_gives = { λ _ e. e ≡ faults.Disk };

    fn from(_e: DiskFailed) -> JournalFault {
        JournalFault::Disk
    }
}

impl From<AllocError> for JournalFault {
    ghost from_gives = { λ _ e. e ≡ faults.Memory };

    fn from(_e: AllocError) -> JournalFault {
        JournalFault::Memory
    }
}

impl<T: Drop> From<AllocFailed<T>> for JournalFault {
    ghost from_gives = { λ _ e. e ≡ faults.Memory };

    fn from(_e: AllocFailed<T>) -> JournalFault {
        JournalFault::Memory
    }
}

/// Why bytes are not read as an entry.
#[derive(Clone, Copy, Debug, PartialEq, Eq)]
pub enum EntryUnread {
    /// They are no entry's.
    Malformed,
    /// There was no memory. It may come in place of any other answer.
    Memory,
}

impl From<AllocError> for EntryUnread {
    ghost from_gives = { λ _ e. e ≡ unread.Memory };

    fn from(_e: AllocError) -> EntryUnread {
        EntryUnread::Memory
    }
}

impl<T: Drop> From<AllocFailed<T>> for EntryUnread {
    ghost from_gives = { λ _ e. e ≡ unread.Memory };

    fn from(_e: AllocFailed<T>) -> EntryUnread {
        EntryUnread::Memory
    }
}
