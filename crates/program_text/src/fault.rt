//! Why a program was not written.

ghost use Rattle.std.specs.Prelude.{◌≡◌};
ghost use Rattle.program_text.specs.declared.fault.FormulationFault.TheVariants as faults;

use edge_io::WriteFault;

/// Why the text of a program was not written, or not all of it.
#[derive(Clone, Copy, Debug, PartialEq, Eq)]
pub enum FormulationFault {
    /// There was no memory for the root box and a row; nothing was written.
    Memory,
    /// The sink failed, and has taken a front of the text.
    Write,
}

impl From<edge_io::Memory> for FormulationFault {
    ghost from_gives = { λ _ e. e ≡ faults.Memory };

    fn from(_e: edge_io::Memory) -> FormulationFault {
        FormulationFault::Memory
    }
}

impl From<WriteFault> for FormulationFault {
    ghost from_gives = { λ _ e. e ≡ faults.Write };

    fn from(_e: WriteFault) -> FormulationFault {
        FormulationFault::Write
    }
}
