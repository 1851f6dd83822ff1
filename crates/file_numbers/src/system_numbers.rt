//! The numbers of the system, as the runtime gives them.

ghost use Rattle.std.specs.Prelude.{true, false};

use crate::numbers::NumberCalls;
use edge_io::CallFault;
use std::alloc::Global;
use std::fs;
use std::rt::Files;

/// The numbers of the system. They tell nothing.
///
/// The system is trusted to keep the clauses of `NumberCalls`.
#[derive(Drop)]
pub struct SystemNumbers<R: Files> {
    files: R,
    kept: Vec<R::File>,
}

impl<R: Files> SystemNumbers<R> {
    /// Over the files of the runtime.
    pub fn new(alloc: Global, files: R) -> SystemNumbers<R> {
        SystemNumbers {
            files,
            kept: Vec::new(alloc),
        }
    }
}

impl<R: Files> NumberCalls for SystemNumbers<R> {
    ghost tells = { false };

    ghost used = { λ _ _. true };

    ghost faults = { λ _. 0 };

    fn open_null(&mut self) -> Result<(), CallFault> {
        let file = fs::open(&self.files, "/dev/null")?;
        self.kept.push(file).map_err(|_| CallFault::Memory)
    }
}
