//! Why a run gives no mark but a loose one, or none at all.

ghost use Rattle.std.specs.Prelude.{◌≡◌};
ghost use Rattle.leaf_marks.specs.declared.mark.Reason.TheVariants as reasons;
ghost use Rattle.tight_leaf.specs.declared.stop.Stop.TheVariants as stops;

use common_denominators::Coarse;
use edge_io::Memory;
use leaf_marks::Reason;
use std::alloc::{AllocError, AllocFailed};

/// Why the way to a mark ends early.
#[derive(Debug, Drop)]
pub(crate) enum Stop {
    /// The leaf stays loose.
    Loose(Reason),
    /// Memory runs out.
    Memory,
}

impl From<Coarse> for Stop {
    ghost from_gives = { λ c s. s ≡ stops.Loose (reasons.Coarse c.times c.fraction) };

    fn from(coarse: Coarse) -> Stop {
        Stop::Loose(Reason::Coarse(coarse.times, coarse.fraction))
    }
}

impl From<AllocError> for Stop {
    ghost from_gives = { λ _ s. s ≡ stops.Memory };

    fn from(_error: AllocError) -> Stop {
        Stop::Memory
    }
}

impl<T: Drop> From<AllocFailed<T>> for Stop {
    ghost from_gives = { λ _ s. s ≡ stops.Memory };

    fn from(_error: AllocFailed<T>) -> Stop {
        Stop::Memory
    }
}

impl From<Memory> for Stop {
    ghost from_gives = { λ _ s. s ≡ stops.Memory };

    fn from(_error: Memory) -> Stop {
        Stop::Memory
    }
}
