//! Why a file is refused, and where in it the fault stands.

ghost use Rattle.std.specs.Prelude.{◌≡◌};
ghost use Rattle.json_walk.specs.declared.fault.ReadNet.TheVariants.{Memory};

use network_parts::NetFault;
use std::alloc::{AllocError, AllocFailed};

/// One of the five lists of the file, or what stands around them.
#[derive(Clone, Copy, Debug, PartialEq, Eq)]
pub enum Section {
    Top,
    Qualities,
    Sources,
    Pools,
    Products,
    Arcs,
}

/// Where in the file: a section, and the number of the element in it, from 0. At the top the number is 0.
#[derive(Clone, Copy, Debug, PartialEq, Eq)]
pub struct Place {
    pub section: Section,
    pub index: u32,
}

impl Place {
    ghost use Rattle.json_walk.specs.Walk.{place, top};

    /// Around the lists.
    pub fn top() -> Place
        ensures { result ≡ top }
    {
        Place {
            section: Section::Top,
            index: 0,
        }
    }

    /// An element of a list. A file is too short for 2^32 elements.
    pub fn new(section: Section, index: usize) -> Place
        ensures { result ≡ place section index }
    {
        let index = if index < u32::MAX as usize {
            index as u32
        } else {
            u32::MAX
        };
        Place { section, index }
    }
}

/// Why no network was read.
#[derive(Clone, Copy, Debug, PartialEq, Eq)]
pub enum ReadNet {
    /// The text is longer than `MAX_TEXT`.
    TooLong,
    /// The bytes are no JSON text.
    NotJson,
    /// No object, list, text or number where one has to stand, or a list of an arc that isn't two elements.
    WrongKind(Place),
    /// An object has a member that the format doesn't know there.
    UnknownMember(Place),
    /// An object lacks a member.
    Missing(Place),
    /// The version is a number other than 1 and 2.
    WrongVersion,
    /// A quantity or a ratio is a number with a point or an exponent, or outside 64 bits.
    NotWhole(Place),
    /// A quantity is a text that stands for none.
    BadQuantity(Place),
    /// The rows are no network: their first fault.
    Net(NetFault),
    /// Memory ran out.
    Memory,
}

impl ReadNet {
    ghost use Rattle.json_walk.specs.NetCause.{number};

    /// The number of the cause, as messages tell it: 1 for the first.
    pub fn number(&self) -> u32
        ensures { result ≡ number self.now }
    {
        match self {
            ReadNet::TooLong => 1,
            ReadNet::NotJson => 2,
            ReadNet::WrongKind(_) => 3,
            ReadNet::UnknownMember(_) => 4,
            ReadNet::Missing(_) => 5,
            ReadNet::WrongVersion => 6,
            ReadNet::NotWhole(_) => 7,
            ReadNet::BadQuantity(_) => 8,
            ReadNet::Net(_) => 9,
            ReadNet::Memory => 10,
        }
    }
}

/// Want of memory in the making of a network is want of memory here.
impl From<NetFault> for ReadNet {
    ghost use Rattle.json_walk.specs.NetCause.{cause_of};

    ghost from_gives = { λ fault e. e ≡ cause_of fault };

    fn from(fault: NetFault) -> ReadNet {
        match fault {
            NetFault::Memory => ReadNet::Memory,
            _ => ReadNet::Net(fault),
        }
    }
}

impl From<AllocError> for ReadNet {
    ghost from_gives = { λ _ e. e ≡ Memory };

    fn from(_e: AllocError) -> ReadNet {
        ReadNet::Memory
    }
}

impl<T: Drop> From<AllocFailed<T>> for ReadNet {
    ghost from_gives = { λ _ e. e ≡ Memory };

    fn from(_e: AllocFailed<T>) -> ReadNet {
        ReadNet::Memory
    }
}
