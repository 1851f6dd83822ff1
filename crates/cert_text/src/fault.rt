//! Why a text could not be read.

ghost use Rattle.std.specs.Prelude.{◌≡◌};
ghost use Rattle.cert_text.specs.declared.fault.Halt.TheVariants as halts;
ghost use Rattle.cert_text.specs.declared.fault.Stop.TheVariants as stops;

use std::alloc::{AllocError, AllocFailed};

/// The first faulty line of a text, from 1: the first such that no text of the format begins with the lines up to it.
#[derive(Clone, Copy, Debug, PartialEq, Eq)]
pub struct TextFault {
    pub line: u64,
}

/// The source could not give its next byte. Which fault it was, the source itself tells.
#[derive(Clone, Copy, Debug, PartialEq, Eq)]
pub struct SourceFailed;

/// Why a reader stopped.
#[derive(Clone, Copy, Debug, PartialEq, Eq)]
pub enum Stop {
    /// The text is faulty.
    Text(TextFault),
    /// The source failed.
    Source,
}

impl From<TextFault> for Stop {
    ghost from_gives = { λ f e. e ≡ stops.Text f };

    fn from(f: TextFault) -> Stop {
        Stop::Text(f)
    }
}

impl From<SourceFailed> for Stop {
    ghost from_gives = { λ _ e. e ≡ stops.Source };

    fn from(_e: SourceFailed) -> Stop {
        Stop::Source
    }
}

/// Why a whole text could not be read into memory.
#[derive(Clone, Copy, Debug, PartialEq, Eq)]
pub enum ReadFault {
    /// It is no text of its kind. This is its first faulty line, from 1: the first such that no text of the kind begins with the lines up
    /// to it.
    Line(u64),
    /// There was no memory for what it says.
    Memory,
}

/// Why a reader that takes memory stopped.
#[derive(Drop)]
pub enum Halt {
    Read(Stop),
    Memory,
}

impl From<Stop> for Halt {
    ghost from_gives = { λ s e. e ≡ halts.Read s };

    fn from(s: Stop) -> Halt {
        Halt::Read(s)
    }
}

impl From<AllocError> for Halt {
    ghost from_gives = { λ _ e. e ≡ halts.Memory };

    fn from(_e: AllocError) -> Halt {
        Halt::Memory
    }
}

impl<T: Drop> From<AllocFailed<T>> for Halt {
    ghost from_gives = { λ _ e. e ≡ halts.Memory };

    fn from(_e: AllocFailed<T>) -> Halt {
        Halt::Memory
    }
}
