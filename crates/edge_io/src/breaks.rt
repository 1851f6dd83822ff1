//! Which calls of a system in memory are broken off.

ghost use Rattle.std.specs.Prelude.{◌≡◌, IfErr};
ghost use Rattle.edge_io.specs.declared.call.CallFault.TheVariants as faults;

use crate::call::CallFault;

/// Which calls of a system in memory a signal breaks off, by their numbers from 0.
#[derive(Drop)]
pub struct Breaks {
    broken_off: Vec<u64>,
    calls: u64,
}

impl Breaks {
    /// The calls of these numbers are broken off.
    pub fn new(broken_off: Vec<u64>) -> Breaks {
        Breaks {
            broken_off,
            calls: 0,
        }
    }

    /// Counts a call, which may be broken off.
    pub fn pass(&mut self) -> Result<(), CallFault>
        ensures { IfErr result (λ fault. fault ≡ faults.Interrupted) }
    {
        let call = self.calls;
        self.calls = call.saturating_add(1);
        if self.broken_off.contains(&call) {
            return Err(CallFault::Interrupted);
        }
        Ok(())
    }
}
