//! The calls of the system, as the runtime makes them.

ghost use Rattle.std.specs.Prelude.{true};
ghost use Rattle.disk_calls.specs.Disks.{untold};

use crate::calls::FileCalls;
use edge_io::CallFault;
use std::fs::{OpenFile, OpenOptions};
use std::io::{Read, Seek, SeekFrom, Write};
use std::path::Path;
use std::rt::Files;

/// The system's calls on a file. They admit every name and tell nothing.
///
/// The system is trusted to keep the clauses of `FileCalls`. Nobody else writes the file.
#[derive(Drop)]
pub struct SystemFile<R: Files> {
    files: R,
    file: Option<R::File>,
}

impl<R: Files> SystemFile<R> {
    /// Over the files of the runtime. None is open.
    pub fn new(files: R) -> SystemFile<R> {
        SystemFile { files, file: None }
    }

    /// The file that is open.
    fn opened(&mut self) -> Result<&mut R::File, CallFault> {
        self.file.as_mut().ok_or(CallFault::Failed)
    }
}

/// The folder of a file.
fn folder_of(name: &str) -> &str {
    match Path::new(name).parent() {
        Some(parent) if !parent.as_str().is_empty() => parent.as_str(),
        _ => ".",
    }
}

impl<R: Files> FileCalls for SystemFile<R> {
    ghost told = { λ _. untold 0 };

    ghost named = { λ _. true };

    fn open(&mut self, name: &str) -> Result<(), CallFault> {
        let mut how = OpenOptions::new();
        how.read(true).write(true).create(true);
        self.file = Some(how.open(&self.files, name)?);
        Ok(())
    }

    fn close(&mut self) {
        self.file = None;
    }

    fn sync_folder(&mut self, name: &str) -> Result<(), CallFault> {
        let mut how = OpenOptions::new();
        how.read(true);
        Ok(how.open(&self.files, folder_of(name))?.sync_all()?)
    }

    fn fstat(&mut self) -> Result<u64, CallFault> {
        Ok(self.opened()?.metadata()?.len())
    }

    fn pread(&mut self, at: u64, into: &mut [u8]) -> Result<usize, CallFault> {
        let file = self.opened()?;
        file.seek(SeekFrom::Start(at))?;
        Ok(file.read(into)?)
    }

    fn pwrite(&mut self, at: u64, bytes: &[u8]) -> Result<usize, CallFault> {
        let file = self.opened()?;
        file.seek(SeekFrom::Start(at))?;
        Ok(file.write(bytes)?)
    }

    fn ftruncate(&mut self, to: u64) -> Result<(), CallFault> {
        Ok(self.opened()?.set_len(to)?)
    }

    fn fsync(&mut self) -> Result<(), CallFault> {
        Ok(self.opened()?.sync_all()?)
    }
}
