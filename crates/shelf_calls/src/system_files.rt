//! The calls of the system, as the runtime makes them.

ghost use Rattle.std.specs.Prelude.{true, false, []};

use crate::calls::{FilesCalls, ReadCalls};
use edge_io::CallFault;
use std::fs;
use std::io::Read;
use std::rt::Files;

/// An open file of the system, which tells nothing.
#[derive(Drop)]
pub struct SystemReading<F: Read> {
    file: F,
}

impl<F: Read> ReadCalls for SystemReading<F> {
    ghost tells = { false };

    ghost rest = { λ _. [] };

    fn read(&mut self, into: &mut [u8]) -> Result<usize, CallFault> {
        Ok(self.file.read(into)?)
    }
}

/// The files of the system, by their paths. They admit every name and tell nothing.
///
/// The system is trusted to keep the clauses of `FilesCalls` and `ReadCalls`.
#[derive(Drop)]
pub struct SystemFiles<R: Files> {
    files: R,
}

impl<R: Files> SystemFiles<R> {
    /// Over the files of the runtime.
    pub fn new(files: R) -> SystemFiles<R> {
        SystemFiles { files }
    }
}

impl<R: Files> FilesCalls for SystemFiles<R> {
    type File = SystemReading<R::File>;

    ghost files = { λ _. [] };

    ghost admits = { λ _ _. true };

    fn open(&self, name: &str) -> Result<SystemReading<R::File>, CallFault> {
        let file = fs::open(&self.files, name)?;
        Ok(SystemReading { file })
    }
}
