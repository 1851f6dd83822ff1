//! A shelf in memory.

ghost use Rattle.std.specs.Prelude.{◌≡◌, ◌+◌, ◌-◌, ◌^◌, ◌<◌, ◌≤◌, ◌⊎◌, ◌↔◌, [], ◌++◌, Some, None, min, length, take, vec_len, Contains, IsTrue, IsErr, IfOk, OnOk, OnErr};
ghost use Rattle.std.specs.Option.{option_copied};
ghost use Rattle.edge_io.specs.Counts.{Grows, Rose};
ghost use Rattle.shelf_calls.specs.Files.{file_of, HasMore};
ghost use Rattle.shelf_calls.specs.MemFiles.{files_of};
ghost use Rattle.shelf_calls.specs.Told.{Keeps};

use crate::fault::{OpenFault, ReadFailed, ShelfFault};
use crate::opened::Opened;
use crate::shelf::Shelf;
use std::alloc::Global;

/// A shelf of files that it was given, which fails where it was told to. It admits every name.
#[derive(Drop)]
pub struct MemShelf {
    files: Vec<(String, Vec<u8>)>,
    failing: Vec<u64>,
    opened: Option<Opened>,
    piece: usize,
    calls: u64,
    taken: u64,
    faults: u64,
    ghost has_pieces: { 0 < piece },
}

impl MemShelf {
    ghost use Rattle.shelf_calls.specs.MemShelves.{contents_of, failing_of, rest_of, piece_of, calls_of, taken_of, faults_of};

    /// Over these files, names with bytes; of two files of one name the first counts. The calls of the numbers in
    /// `failing`, from 0, fail; another fails only where the shelf has no file of the name.
    pub fn new(files: Vec<(String, Vec<u8>)>, failing: Vec<u64>) -> MemShelf
        ensures files { contents_of result ≡ files_of files.items }
        ensures told { failing_of result ≡ failing.items }
        ensures none_open { rest_of result ≡ [] }
        ensures large_pieces { piece_of result ≡ 2 ^ 64 - 1 }
        ensures first { calls_of result ≡ 0 }
        ensures unread { taken_of result ≡ 0 }
        ensures sound { faults_of result ≡ 0 }
    {
        MemShelf {
            files,
            failing,
            opened: None,
            piece: usize::MAX,
            calls: 0,
            taken: 0,
            faults: 0,
        }
    }

    /// From now on a call hands out at most this many bytes of an opened file.
    pub fn pieces(&mut self, most: usize)
        requires { 0 < most }
        ensures piece { piece_of self.new ≡ most }
        ensures files { contents_of self.new ≡ contents_of self.old }
        ensures rest { rest_of self.new ≡ rest_of self.old }
        ensures told { failing_of self.new ≡ failing_of self.old }
        ensures calls { calls_of self.new ≡ calls_of self.old }
        ensures taken { taken_of self.new ≡ taken_of self.old }
        ensures faults { faults_of self.new ≡ faults_of self.old }
    {
        self.piece = most;
    }

    /// Counts a call, and says whether it was told to fail.
    fn is_told(&mut self) -> bool
        ensures told { IsTrue result → Contains (failing_of self.old) (calls_of self.old) }
        ensures only { Contains (failing_of self.old) (calls_of self.old) → IsTrue result }
        ensures next { self.new ≡ record self.old { calls = min (self.old.calls + 1) (2 ^ 64 - 1) } }
    {
        let call = self.calls;
        self.calls = call.saturating_add(1);
        self.failing.contains(&call)
    }

    /// Counts a failure.
    fn fail(&mut self)
        ensures counted { Rose self.old.faults self.new.faults }
        ensures grows { Grows self.old.faults self.new.faults }
        ensures rest { self.new ≡ record self.old { faults = self.new.faults } }
    {
        self.faults = self.faults.saturating_add(1);
    }
}

impl Shelf for MemShelf {
    ghost use Rattle.shelf_calls.specs.MemShelves.{contents_of, failing_of, rest_of, piece_of, calls_of, taken_of, faults_of, told_of};
    ghost use Rattle.shelf_calls.specs.Opened.{IsAllOf, IsUsedUp};

    ghost told = { told_of };

    fn read_all(&mut self, alloc: Global, name: &str, most: usize) -> Result<Vec<u8>, ShelfFault>
        // What every shelf does.
        ensures found { IfOk result (λ v. file_of (contents_of self.old) name.now ≡ Some v.items) }
        ensures short { IfOk result (λ v. vec_len v ≤ most) }
        ensures failed { result ≡ Err ShelfFault.Failed → Rose (faults_of self.old) (faults_of self.new) }
        ensures too_long { result ≡ Err ShelfFault.TooLong →
            HasMore (contents_of self.old) name.now most }
        ensures quiet { (result ≡ Err ShelfFault.Failed) ⊎ (faults_of self.new ≡ faults_of self.old) }
        ensures kept { Keeps (told_of self.old) (told_of self.new) }
        ensures same_rest { rest_of self.new ≡ rest_of self.old }
        ensures same_piece { piece_of self.new ≡ piece_of self.old }

        // When this one fails.
        ensures told { Contains (failing_of self.old) (calls_of self.old) → result ≡ Err ShelfFault.Failed }
        ensures absent { file_of (contents_of self.old) name.now ≡ None → result ≡ Err ShelfFault.Failed }
        ensures only { result ≡ Err ShelfFault.Failed →
            Contains (failing_of self.old) (calls_of self.old) ⊎ (file_of (contents_of self.old) name.now ≡ None) }
        ensures next { calls_of self.new ≡ min (calls_of self.old + 1) (2 ^ 64 - 1) }
        ensures same { failing_of self.new ≡ failing_of self.old }

        // The bytes of a file that is given are counted.
        ensures counted { IfOk result (λ v. taken_of self.new ≡ min (taken_of self.old + vec_len v) (2 ^ 64 - 1)) }
        ensures uncounted { OnErr result (taken_of self.new ≡ taken_of self.old) }
    {
        if self.is_told() {
            self.fail();
            return Err(ShelfFault::Failed);
        }
        let Some(bytes) = find_file(&self.files, name) else {
            self.fail();
            return Err(ShelfFault::Failed);
        };
        if bytes.len() > most {
            return Err(ShelfFault::TooLong);
        }
        let bytes = Vec::from_slice(alloc, bytes)?;
        self.taken = self.taken.saturating_add(bytes.len() as u64);
        Ok(bytes)
    }

    fn open_read(&mut self, alloc: Global, name: &str) -> Result<(), OpenFault>
        // What every shelf does.
        ensures opened { OnOk result (IsAllOf (contents_of self.old) name.now (Some (rest_of self.new))) }
        ensures failed { result ≡ Err OpenFault.Failed → Rose (faults_of self.old) (faults_of self.new) }
        ensures quiet { (result ≡ Err OpenFault.Failed) ⊎ (faults_of self.new ≡ faults_of self.old) }
        ensures kept { Keeps (told_of self.old) (told_of self.new) }

        // When this one fails, and what it leaves as it was.
        ensures told { Contains (failing_of self.old) (calls_of self.old) → result ≡ Err OpenFault.Failed }
        ensures absent { file_of (contents_of self.old) name.now ≡ None → result ≡ Err OpenFault.Failed }
        ensures only { result ≡ Err OpenFault.Failed →
            Contains (failing_of self.old) (calls_of self.old) ⊎ (file_of (contents_of self.old) name.now ≡ None) }
        ensures rest_kept { OnErr result (rest_of self.new ≡ rest_of self.old) }
        ensures next { calls_of self.new ≡ min (calls_of self.old + 1) (2 ^ 64 - 1) }
        ensures same { failing_of self.new ≡ failing_of self.old }
        ensures same_piece { piece_of self.new ≡ piece_of self.old }
        ensures uncounted { taken_of self.new ≡ taken_of self.old }
    {
        if self.is_told() {
            self.fail();
            return Err(OpenFault::Failed);
        }
        let Some(bytes) = find_file(&self.files, name) else {
            self.fail();
            return Err(OpenFault::Failed);
        };
        let bytes = Vec::from_slice(alloc, bytes)?;
        self.opened = Some(Opened::new(bytes));
        Ok(())
    }

    fn read_some(&mut self, into: &mut [u8]) -> Result<usize, ReadFailed>
        // What every shelf does.
        ensures part { IfOk result (λ n. n ≤ length into.new) }
        ensures handed { IfOk result (λ n. rest_of self.old ≡ take n into.new ++ rest_of self.new) }
        ensures some { IfOk result (λ n. n ≡ 0 → (length into.new ≡ 0) ⊎ IsUsedUp (Some (rest_of self.old))) }
        ensures failed { OnErr result (Rose (faults_of self.old) (faults_of self.new)) }
        ensures quiet { OnOk result (faults_of self.new ≡ faults_of self.old) }
        ensures kept { Keeps (told_of self.old) (told_of self.new) }

        // How much it hands out, when this one fails, and what it leaves as it was.
        ensures count { IfOk result (λ n. n ≡ min (min (length (rest_of self.old)) (length into.new)) (piece_of self.old)) }
        ensures told { Contains (failing_of self.old) (calls_of self.old) → IsErr result }
        ensures only { OnErr result (Contains (failing_of self.old) (calls_of self.old)) }
        ensures rest_kept { OnErr result (rest_of self.new ≡ rest_of self.old) }
        ensures next { calls_of self.new ≡ min (calls_of self.old + 1) (2 ^ 64 - 1) }
        ensures same { failing_of self.new ≡ failing_of self.old }
        ensures same_piece { piece_of self.new ≡ piece_of self.old }
        ensures counted { IfOk result (λ n. taken_of self.new ≡ min (taken_of self.old + n) (2 ^ 64 - 1)) }
        ensures uncounted { OnErr result (taken_of self.new ≡ taken_of self.old) }
    {
        if self.is_told() {
            self.fail();
            return Err(ReadFailed);
        }
        let count = match &mut self.opened {
            Some(file) => file.hand_out(into, self.piece),
            None => 0,
        };
        self.taken = self.taken.saturating_add(count as u64);
        Ok(count)
    }
}

/// The bytes of the first file of that name.
pub(crate) fn find_file<'a>(files: &'a [(String, Vec<u8>)], name: &str) -> Option<&'a [u8]>
    ensures { option_copied result ≡ file_of (files_of files.now) name.now }
{
    for (held, bytes) in files {
        if held.as_str() == name {
            return Some(bytes.as_slice());
        }
    }
    None
}
