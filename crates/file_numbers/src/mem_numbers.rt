//! Numbers of files in memory.

ghost use Rattle.std.specs.Prelude.{◌≡◌, ◌<◌, ◌≤◌, ℕ, true, false, length, get_or, IsTrue, OnOk, OnErr};
ghost use Rattle.edge_io.specs.Counts.{Grows, Rose};
ghost use Rattle.file_numbers.specs.MemNumbers.{used_in, faults_of};
ghost use Rattle.file_numbers.specs.Numbers.{TakesLowest};

use crate::numbers::NumberCalls;
use edge_io::CallFault;

/// Numbers of files that tell which of them are in use. The null device can be opened so many times, and then no more; why not is told
/// beforehand.
#[derive(Drop)]
pub struct MemNumbers {
    used: Vec<bool>,
    room: u64,
    fault: CallFault,
    faults: u64,
}

impl MemNumbers {
    /// The first numbers, and whether each is in use; those behind them are free. The null device can be opened `room` times, and fails
    /// by `fault` from then on.
    pub fn new(used: Vec<bool>, room: u64, fault: CallFault) -> MemNumbers {
        MemNumbers {
            used,
            room,
            fault,
            faults: 0,
        }
    }

    /// The first numbers, and whether each is in use.
    pub fn used(&self) -> &[bool] {
        &self.used
    }

    /// Takes the lowest number that is free.
    fn take(&mut self) -> Result<(), CallFault>
        ensures lowest { OnOk result (TakesLowest (used_in self.old) (used_in self.new)) }
        ensures unchanged { OnErr result (used_in self.new ≡ used_in self.old) }
        ensures same_faults { faults_of self.new ≡ faults_of self.old }
    {
        let number = lowest_free(&self.used);
        if number < self.used.len() {
            self.used[number] = true;
            return Ok(());
        }
        self.used.push(true).map_err(|_| CallFault::Memory)
    }

    /// Counts a failure, and hands it on.
    fn fail(&mut self, fault: CallFault) -> CallFault
        ensures counted { Rose (faults_of self.old) (faults_of self.new) }
        ensures grows { Grows (faults_of self.old) (faults_of self.new) }
        ensures same { used_in self.new ≡ used_in self.old }
    {
        self.faults = self.faults.saturating_add(1);
        fault
    }
}

/// The lowest number that is not in use.
fn lowest_free(used: &[bool]) -> usize
    ensures within { result ≤ length used.now }
    ensures below { (n : ℕ) → n < result → IsTrue (get_or used.now n false) }
    ensures free { get_or used.now result false ≡ false }
{
    for (number, is_used) in used.iter().enumerate() {
        if !*is_used {
            return number;
        }
    }
    used.len()
}

impl NumberCalls for MemNumbers {
    ghost tells = { true };

    ghost used = { used_in };

    ghost faults = { faults_of };

    fn open_null(&mut self) -> Result<(), CallFault> {
        if self.room == 0 {
            let fault = self.fault;
            return Err(self.fail(fault));
        }
        self.room -= 1;
        match self.take() {
            Ok(()) => Ok(()),
            Err(fault) => Err(self.fail(fault)),
        }
    }
}
