//! A disk over a file of the system.

ghost use Rattle.std.specs.Prelude.{◌≡◌, ◌+◌, ◌^◌, ◌≤◌, Ok, None, OnOk, OnErr, IfOk, IsErr};
ghost use Rattle.edge_io.specs.Counts.{Grows, Rose};
ghost use Rattle.disk_calls.specs.Disks.{Among, LeavesNothingNew, GoesOn};
ghost use Rattle.disk_calls.specs.Calls.{disk_over};

use crate::calls::FileCalls;
use crate::disk::{Disk, DiskFailed, MAX_LENGTH};
use crate::opening::{length_of, open_durably};
use crate::reading::read_whole;
use crate::writing::write_whole;
use edge_io::CallFault;

/// A disk over the system's calls on a file. It tells what they tell.
#[derive(Drop)]
pub struct FileDisk<S: FileCalls> {
    system: S,
    faults: u64,
}

impl<S: FileCalls> FileDisk<S> {
    /// Over the calls of a system.
    pub fn new(system: S) -> FileDisk<S>
        ensures sound { (⟦<FileDisk<S> as Disk>⟧.told result).faults ≡ 0 }
        ensures names { (⟦<FileDisk<S> as Disk>⟧.told result).admits ≡ (S.told system).admits }
        ensures telling { (⟦<FileDisk<S> as Disk>⟧.told result).tells ≡ (S.told system).tells }
        ensures images { Among (S.told system).may_leave (⟦<FileDisk<S> as Disk>⟧.told result).may_leave }
    {
        FileDisk { system, faults: 0 }
    }

    /// The calls below.
    pub fn system(&self) -> &S {
        &self.system
    }

    /// Hands an outcome on. A failure is counted, and the file is let go.
    fn settle<T: Drop>(&mut self, outcome: Result<T, CallFault>) -> Result<T, DiskFailed>
        ensures value { IfOk result (λ x. outcome ≡ Ok x) }
        ensures same { OnOk result (self.new ≡ self.old) }
        ensures only { OnErr result (IsErr outcome) }
        ensures unknown { OnErr result ((S.told self.new.system).reads ≡ None) }
        ensures counted { OnErr result (Rose self.old.faults self.new.faults) }
        ensures faults_grow { Grows self.old.faults self.new.faults }
        ensures crash { LeavesNothingNew (S.told self.old.system) (S.told self.new.system) }
        ensures goes_on { GoesOn (S.told self.old.system) (S.told self.new.system) }
    {
        match outcome {
            Ok(value) => Ok(value),
            Err(_) => {
                self.system.close();
                self.faults = self.faults.saturating_add(1);
                Err(DiskFailed)
            }
        }
    }
}

impl<S: FileCalls> Disk for FileDisk<S> {
    ghost told = { λ d. disk_over (S.told d.system) (S.named d.system) d.faults };

    fn attach(&mut self, name: &str) -> Result<(), DiskFailed> {
        let outcome = open_durably(&mut self.system, name);
        self.settle(outcome)
    }

    fn len(&mut self) -> Result<u64, DiskFailed> {
        let outcome = length_of(&mut self.system);
        self.settle(outcome)
    }

    fn read_at(&mut self, at: u64, into: &mut [u8]) -> Result<(), DiskFailed> {
        let outcome = read_whole(&mut self.system, at, into);
        self.settle(outcome)
    }

    fn write_at(&mut self, at: u64, bytes: &[u8]) -> Result<(), DiskFailed> {
        let outcome = write_whole(&mut self.system, at, bytes);
        self.settle(outcome)
    }

    fn cut(&mut self, to: u64) -> Result<(), DiskFailed> {
        let outcome = if to > MAX_LENGTH {
            Err(CallFault::Failed)
        } else {
            self.system.ftruncate(to)
        };
        self.settle(outcome)
    }

    fn sync(&mut self) -> Result<(), DiskFailed> {
        let outcome = self.system.fsync();
        self.settle(outcome)
    }
}
