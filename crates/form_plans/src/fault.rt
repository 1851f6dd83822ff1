//! Why a point has no plan.

ghost use Rattle.std.specs.Prelude.{◌≡◌};
ghost use Rattle.form_plans.specs.declared.fault.FormFault.TheVariants as faults;

use edge_io::Memory;
use std::alloc::AllocError;

/// Why a point of a program stands for no written plan.
#[derive(Clone, Copy, Debug, PartialEq, Eq)]
pub enum FormFault {
    /// It is no point of the program within the limits.
    NotAPoint,
    /// A base of its plan passes the limit of written plans: no written plan has the point's flows.
    TooFine,
    /// There is no memory left.
    Memory,
}

impl From<Memory> for FormFault {
    ghost from_gives = { λ _ e. e ≡ faults.Memory };

    fn from(_e: Memory) -> FormFault {
        FormFault::Memory
    }
}

impl From<AllocError> for FormFault {
    ghost from_gives = { λ _ e. e ≡ faults.Memory };

    fn from(_e: AllocError) -> FormFault {
        FormFault::Memory
    }
}
