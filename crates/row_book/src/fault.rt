//! Why multipliers on rows show nothing.

ghost use Rattle.std.specs.Prelude.{◌≡◌};
ghost use Rattle.pool_model.specs.Network.{Net};
ghost use Rattle.row_model.specs.Boxes.{Box};
ghost use Rattle.row_model.specs.Multipliers.{Proof};
ghost use Rattle.row_book.specs.Faults.{rank as fault_rank, Holds as IsThere};
ghost use Rattle.row_book.specs.declared.fault.ProofFault.TheVariants as faults;

use exact_num::Wide as PassesLimit;
use faults::Ranked;

/// Why a proof is not in order in a box. All parts are looked at for the first cause before the second, and so on.
#[derive(Clone, Copy, Debug, PartialEq, Eq)]
pub enum ProofFault {
    /// Row numbers don't rise strictly.
    Order,
    /// A row number is not below the number of rows.
    UnknownRow,
    /// A multiplier on a row that is at least 0 is below 0.
    Sign,
    /// A multiplier is 0.
    ZeroPart,
    /// The weight passes 2^126.
    Wide,
    /// The scale is 0, and the number is at most 0.
    ShowsNothing,
}

impl Ranked for ProofFault {
    ghost rank = { fault_rank };

    ghost Subject = { Net × Box × Proof };

    ghost Holds = { λ s. IsThere s.0 s.1 s.2 };
}

impl From<PassesLimit> for ProofFault {
    ghost from_gives = { λ _ e. e ≡ faults.Wide };

    fn from(_e: PassesLimit) -> ProofFault {
        ProofFault::Wide
    }
}

impl ProofFault {
    ghost use Rattle.row_book.specs.Faults.{number};

    /// The number of the cause, as messages tell it: 1 for the first.
    pub fn number(&self) -> u32
        ensures { result ≡ number self.now }
    {
        match self {
            ProofFault::Order => 1,
            ProofFault::UnknownRow => 2,
            ProofFault::Sign => 3,
            ProofFault::ZeroPart => 4,
            ProofFault::Wide => 5,
            ProofFault::ShowsNothing => 6,
        }
    }
}
