//! Why a step has no end.

ghost use Rattle.std.specs.Prelude.{◌≡◌};
ghost use Rattle.exact_pivots.specs.declared.stop.Stop.TheVariants as stops;

use exact_run::TooWide;
use std::alloc::{AllocError, AllocFailed};

/// Why there is no state after a step.
#[derive(Clone, Copy, Debug, PartialEq, Eq)]
pub enum Stop {
    /// An operation of the step is too wide for 128 bits.
    Wide(TooWide),
    /// Memory runs out.
    Memory,
}

impl From<AllocError> for Stop {
    ghost from_gives = { λ _ s. s ≡ stops.Memory };

    fn from(_error: AllocError) -> Stop {
        Stop::Memory
    }
}

impl<T: Drop> From<AllocFailed<T>> for Stop {
    ghost from_gives = { λ _ s. s ≡ stops.Memory };

    fn from(_error: AllocFailed<T>) -> Stop {
        Stop::Memory
    }
}

impl From<TooWide> for Stop {
    ghost from_gives = { λ w s. s ≡ stops.Wide w };

    fn from(wide: TooWide) -> Stop {
        Stop::Wide(wide)
    }
}
