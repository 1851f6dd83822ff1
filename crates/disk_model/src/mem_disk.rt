//! A disk in memory.

ghost use Rattle.std.specs.Prelude.{◌≡◌, ◌+◌, ◌^◌, ◌<◌, ◌≤◌, ◌⊎◌, ◌++◌, ◌∷◌, [], None, false, length, take, drop, Contains, IsTrue, IfOk, IfSome, OnOk, OnErr, IsErr, option_map, Some};
ghost use Rattle.edge_io.specs.Counts.{Grows, Rose};
ghost use Rattle.disk_calls.specs.Disks.{written, Torn, Shortened, Only, Reaches, LeavesBy, LeavesNothingNew, Elapses, IsSameDevice, GoesOn, Finds, Fails};
ghost use Rattle.disk_calls.specs.Calls.{Opens, Notes};
ghost use Rattle.disk_model.specs.Steps.{held, file_after, after_step, Lands, Replayed, Takes};

use crate::step::{Step, WHOLLY};
use disk_calls::{Disk, DiskFailed, MAX_LENGTH};
use edge_io::Memory;
use std::alloc::{AllocError, Global};

/// A disk of one file in memory, which every name attaches. It keeps each step that the file has gone, and so answers for
/// every moment.
#[derive(Drop)]
pub struct MemDisk {
    alloc: Global,
    start: Vec<u8>,
    steps: Vec<Step>,
    changed: Option<Vec<u8>>,
    attached: bool,
    found: Vec<Vec<u8>>,
    failing: Vec<u64>,
    calls: u64,
    faults: u64,
    ghost follows: { held start.items changed ≡ file_after steps.items start.items },
}

impl MemDisk {
    ghost use Rattle.disk_model.specs.MemDisks.{told_of, bytes_of, IsImageAt, synced_at, file_at, failing_of, calls_of, IsSameFile, IsCounted, KeepsCounts};

    /// A file with these bytes, all of them on the disk. Nothing is attached yet.
    pub fn new(alloc: Global, bytes: Vec<u8>) -> MemDisk
        ensures file { bytes_of result ≡ bytes.items }
        ensures durable { Only bytes.items (told_of result).may_leave }
        ensures unknown { (told_of result).reads ≡ None }
        ensures first { (told_of result).moment ≡ 0 }
        ensures sound { (told_of result).faults ≡ 0 }
        // Promise: A disk that is told to fail fails there
        ensures told { failing_of result ≡ [] }
    {
        MemDisk::failing(alloc, bytes, Vec::new(alloc))
    }

    /// The same, where the calls of the numbers in `failing`, from 0, fail. A write or a cut that is told to fail has reached the file all
    /// the same; another call has done nothing.
    pub fn failing(alloc: Global, bytes: Vec<u8>, failing: Vec<u64>) -> MemDisk
        ensures file { bytes_of result ≡ bytes.items }
        ensures durable { Only bytes.items (told_of result).may_leave }
        ensures unknown { (told_of result).reads ≡ None }
        ensures first { (told_of result).moment ≡ 0 }
        ensures sound { (told_of result).faults ≡ 0 }
        // Promise: A disk that is told to fail fails there
        ensures told { failing_of result ≡ failing.items }
        ensures no_call { calls_of result ≡ 0 }
    {
        MemDisk {
            alloc,
            start: bytes,
            steps: Vec::new(alloc),
            changed: None,
            attached: false,
            found: Vec::new(alloc),
            failing,
            calls: 0,
            faults: 0,
        }
    }

    /// The bytes of the file.
    fn bytes(&self) -> &[u8]
        ensures { result.now ≡ bytes_of self.now }
    {
        match &self.changed {
            Some(changed) => changed,
            None => &self.start,
        }
    }

    /// One image of a moment; a moment after now counts as now. Choice 0 is the file of the last sync before it, choice 1
    /// the file that a read gave then, and the later choices go through the ways in which the steps since that sync may
    /// land: not at all, wholly, a front of the bytes of a write, such a front with other bytes in the rest of the range,
    /// and each length that a cut may leave.
    pub fn image(&self, moment: u64, choice: u64) -> Result<Vec<u8>, Memory>
        ensures image { IfOk result (λ v. IsImageAt self.now moment v.items) }
        ensures synced { choice ≡ 0 → IfOk result (λ v. v.items ≡ synced_at self.now moment) }
        ensures written { choice ≡ 1 → IfOk result (λ v. v.items ≡ file_at self.now moment) }
    {
        let now = (moment as usize).min(self.steps.len());
        let mut file = Vec::from_slice(self.alloc, &self.start)?;
        let mut image = Vec::from_slice(self.alloc, &self.start)?;
        self.replay(now, choice, &mut file, &mut image)?;
        Ok(image)
    }

    /// Takes a file and an image of it, both as they were at the start, over the first steps.
    fn replay(
        &self,
        now: usize,
        choice: u64,
        file: &mut Vec<u8>,
        image: &mut Vec<u8>,
    ) -> Result<(), AllocError>
        requires gone { now ≤ length self.now.steps.items }
        requires file { file.old.items ≡ self.now.start.items }
        requires image { image.old.items ≡ self.now.start.items }
        ensures { OnOk result (Replayed self.now.start.items self.now.steps.items choice now file.new.items image.new.items) }
    {
        let mut rest = choice;
        for step in &self.steps[..now] {
            go_on(self.alloc, step, choice, &mut rest, file, image)?;
        }
        Ok(())
    }

    /// The moment now.
    pub fn moment(&self) -> u64
        ensures { result ≡ (told_of self.now).moment }
    {
        self.steps.len() as u64
    }

    /// Counts a call, which fails where it did not work or was told to fail: then what reads give is not known from now on.
    #[tactic(auto, using(crate::proofs::Calls::quiet_crash, crate::proofs::Calls::quiet_goes))]
    fn count(&mut self, worked: bool) -> Result<(), DiskFailed>
        ensures worked { OnOk result (IsTrue worked) }
        ensures same { OnOk result (self.new.attached ≡ self.old.attached) }
        ensures failed { OnErr result (Fails (told_of self.old) (told_of self.new)) }
        ensures crash { LeavesNothingNew (told_of self.old) (told_of self.new) }
        ensures goes_on { GoesOn (told_of self.old) (told_of self.new) }
        ensures told { Contains (failing_of self.old) (calls_of self.old) → IsErr result }
        ensures only { OnErr result (Contains (failing_of self.old) (calls_of self.old) ⊎ (worked ≡ false)) }
        ensures counted { IsCounted self.old self.new }
        ensures same_file { IsSameFile self.old self.new }
    {
        let call = self.calls;
        self.calls = call.saturating_add(1);
        if !worked {
            return Err(self.fail());
        }
        if self.failing.contains(&call) {
            return Err(self.fail());
        }
        Ok(())
    }

    /// Counts a failure: what reads give is not known from now on.
    fn fail(&mut self) -> DiskFailed
        ensures counted { Rose self.old.faults self.new.faults }
        ensures grows { Grows self.old.faults self.new.faults }
        ensures unknown { self.new.attached ≡ false }
        ensures same_file { IsSameFile self.old self.new }
        ensures same_found { self.new.found ≡ self.old.found }
        ensures same_failing { self.new.failing ≡ self.old.failing }
        ensures same_calls { self.new.calls ≡ self.old.calls }
    {
        self.faults = self.faults.saturating_add(1);
        self.attached = false;
        DiskFailed
    }

    /// Goes a step.
    fn go(&mut self, step: Step) -> Result<(), AllocError>
        ensures bytes { OnOk result (bytes_of self.new ≡ after_step step (bytes_of self.old)) }
        ensures crash { LeavesBy (Lands step) (told_of self.old) (told_of self.new) }
        ensures goes_on { GoesOn (told_of self.old) (told_of self.new) }
        ensures durable { OnOk result (step ≡ Step.Sync → Only (bytes_of self.old) (told_of self.new).may_leave) }
        ensures unchanged { OnErr result (bytes_of self.new ≡ bytes_of self.old) }
        ensures next_moment { OnOk result ((told_of self.new).moment ≡ (told_of self.old).moment + 1) }
        ensures kept { KeepsCounts self.old self.new }
    {
        let next = step.land(self.alloc, self.bytes(), WHOLLY)?;
        self.steps.push(step)?;
        self.changed = Some(next);
        Ok(())
    }

    /// Goes a write, where the file stays within the longest and memory lasts: whether it did.
    fn put(&mut self, at: u64, bytes: &[u8]) -> bool
        ensures bytes { IsTrue result → bytes_of self.new ≡ written (bytes_of self.old) at bytes.now }
        ensures short { IsTrue result → at + length bytes.now ≤ 2 ^ 62 }
        ensures crash { LeavesBy (Torn at (length bytes.now)) (told_of self.old) (told_of self.new) }
        ensures goes_on { GoesOn (told_of self.old) (told_of self.new) }
        ensures next_moment { IsTrue result → (told_of self.new).moment ≡ (told_of self.old).moment + 1 }
        ensures kept { KeepsCounts self.old self.new }
    {
        if at.saturating_add(bytes.len() as u64) > MAX_LENGTH {
            return false;
        }
        match Vec::from_slice(self.alloc, bytes) {
            Ok(kept) => self.go(Step::Write(at as usize, kept)).is_ok(),
            Err(_) => false,
        }
    }

    /// Notes the file as what an attach found, where the call is not told to fail, the file is no longer than the longest and memory lasts:
    /// whether it did.
    fn note(&mut self) -> bool
        ensures noted { IsTrue result → (told_of self.new).attached ≡ (told_of self.old).attached ++ bytes_of self.old ∷ [] }
        ensures not_noted { result ≡ false → (told_of self.new).attached ≡ (told_of self.old).attached }
        ensures untold { IsTrue result → ¬ Contains (failing_of self.old) (calls_of self.old) }
        ensures same_file { IsSameFile self.old self.new }
        ensures kept { KeepsCounts self.old self.new }
    {
        if self.failing.contains(&self.calls) || self.bytes().len() as u64 > MAX_LENGTH {
            return false;
        }
        match Vec::from_slice(self.alloc, self.bytes()) {
            Ok(file) => self.found.push(file).is_ok(),
            Err(_) => false,
        }
    }

    /// Opens the file, and notes nothing.
    pub(crate) fn hold(&mut self) -> Result<(), DiskFailed>
        ensures opens { OnOk result (Opens (told_of self.old) (told_of self.new)) }
        ensures crash { LeavesNothingNew (told_of self.old) (told_of self.new) }
        ensures goes_on { GoesOn (told_of self.old) (told_of self.new) }
        ensures same_file { IsSameFile self.old self.new }
        ensures told { Contains (failing_of self.old) (calls_of self.old) → IsErr result }
        ensures counted { IsCounted self.old self.new }
    {
        self.count(true)?;
        self.attached = true;
        Ok(())
    }

    /// Notes the file as found.
    pub(crate) fn find(&mut self) -> Result<(), DiskFailed>
        ensures notes { OnOk result (Notes (told_of self.old) (told_of self.new)) }
        ensures same { OnOk result ((told_of self.new).reads ≡ (told_of self.old).reads) }
        ensures not_noted { OnErr result ((told_of self.new).attached ≡ (told_of self.old).attached) }
        ensures crash { LeavesNothingNew (told_of self.old) (told_of self.new) }
        ensures time { Elapses (told_of self.old) (told_of self.new) }
        ensures same_device { IsSameDevice (told_of self.old) (told_of self.new) }
        ensures same_file { IsSameFile self.old self.new }
        ensures told { Contains (failing_of self.old) (calls_of self.old) → IsErr result }
        ensures counted { IsCounted self.old self.new }
    {
        let noted = self.note();
        self.count(noted)
    }

    /// Lets the file go: what reads give is not known from now on.
    pub(crate) fn let_go(&mut self)
        ensures unknown { (told_of self.new).reads ≡ None }
        ensures crash { LeavesNothingNew (told_of self.old) (told_of self.new) }
        ensures goes_on { GoesOn (told_of self.old) (told_of self.new) }
        ensures same_file { IsSameFile self.old self.new }
        ensures same_failing { failing_of self.new ≡ failing_of self.old }
        ensures same_calls { calls_of self.new ≡ calls_of self.old }
    {
        self.attached = false;
    }

    /// The length of the file, where it is open.
    pub(crate) fn reach(&self) -> Option<usize>
        ensures { result ≡ option_map length (told_of self.now).reads }
    {
        if !self.attached {
            return None;
        }
        Some(self.bytes().len())
    }

    /// Goes a sync, where the call is not told to fail and memory lasts: whether it did.
    fn settle(&mut self) -> bool
        ensures bytes { bytes_of self.new ≡ bytes_of self.old }
        ensures durable { IsTrue result → Only (bytes_of self.old) (told_of self.new).may_leave }
        ensures crash { LeavesNothingNew (told_of self.old) (told_of self.new) }
        ensures goes_on { GoesOn (told_of self.old) (told_of self.new) }
        ensures next_moment { IsTrue result → (told_of self.new).moment ≡ (told_of self.old).moment + 1 }
        ensures kept { KeepsCounts self.old self.new }
    {
        if self.failing.contains(&self.calls) {
            return false;
        }
        self.go(Step::Sync).is_ok()
    }
}

impl Disk for MemDisk {
    ghost use Rattle.disk_model.specs.MemDisks.{told_of, bytes_of, failing_of, calls_of, IsSameFile, IsCounted};

    ghost told = { told_of };

    fn attach(&mut self, _name: &str) -> Result<(), DiskFailed>
        // What every disk does.
        ensures open { OnOk result (Finds (told_of self.old) (told_of self.new)) }
        ensures crash { LeavesNothingNew (told_of self.old) (told_of self.new) }
        ensures time { Elapses (told_of self.old) (told_of self.new) }
        ensures same_device { IsSameDevice (told_of self.old) (told_of self.new) }
        ensures failed { OnErr result (Fails (told_of self.old) (told_of self.new)) }
        ensures not_attached { OnErr result ((told_of self.new).attached ≡ (told_of self.old).attached) }

        // What this one gives, and when it fails.
        ensures whole { OnOk result ((told_of self.new).reads ≡ Some (bytes_of self.old)) }
        ensures same_file { IsSameFile self.old self.new }
        ensures told { Contains (failing_of self.old) (calls_of self.old) → IsErr result }
        ensures counted { IsCounted self.old self.new }
    {
        let noted = self.note();
        self.count(noted)?;
        self.attached = true;
        Ok(())
    }

    fn len(&mut self) -> Result<u64, DiskFailed>
        // What every disk does.
        ensures length { IfOk result (λ n. IfSome (told_of self.old).reads (λ file. n ≡ length file)) }
        ensures short { IfOk result (λ n. n ≤ 2 ^ 62) }
        ensures same { OnOk result ((told_of self.new).reads ≡ (told_of self.old).reads) }
        ensures crash { LeavesNothingNew (told_of self.old) (told_of self.new) }
        ensures goes_on { GoesOn (told_of self.old) (told_of self.new) }
        ensures failed { OnErr result (Fails (told_of self.old) (told_of self.new)) }

        // What this one gives, and when it fails.
        ensures same_file { IsSameFile self.old self.new }
        ensures told { Contains (failing_of self.old) (calls_of self.old) → IsErr result }
        ensures only { OnErr result (Contains (failing_of self.old) (calls_of self.old) ⊎ (2 ^ 62 < length (bytes_of self.old))) }
        ensures counted { IsCounted self.old self.new }
    {
        let length = self.bytes().len() as u64;
        self.count(length <= MAX_LENGTH)?;
        Ok(length)
    }

    fn read_at(&mut self, at: u64, into: &mut [u8]) -> Result<(), DiskFailed>
        requires { Reaches (told_of self.old) (at + length into.old) }
        // What every disk does.
        ensures bytes { OnOk result (IfSome (told_of self.old).reads (λ file. into.new ≡ take (length into.old) (drop at file))) }
        ensures same { OnOk result ((told_of self.new).reads ≡ (told_of self.old).reads) }
        ensures crash { LeavesNothingNew (told_of self.old) (told_of self.new) }
        ensures goes_on { GoesOn (told_of self.old) (told_of self.new) }
        ensures failed { OnErr result (Fails (told_of self.old) (told_of self.new)) }

        // What this one gives, and when it fails.
        ensures same_file { IsSameFile self.old self.new }
        ensures told { Contains (failing_of self.old) (calls_of self.old) → IsErr result }
        ensures only { OnErr result (Contains (failing_of self.old) (calls_of self.old)) }
        ensures counted { IsCounted self.old self.new }
    {
        self.count(true)?;
        let start = at as usize;
        into.copy_from_slice(&self.bytes()[start..start + into.len()]);
        Ok(())
    }

    fn write_at(&mut self, at: u64, bytes: &[u8]) -> Result<(), DiskFailed>
        requires { Reaches (told_of self.old) at }
        // What every disk does.
        ensures written { OnOk result ((told_of self.new).reads ≡ option_map (λ file. written file at bytes.now) (told_of self.old).reads) }
        ensures short { OnOk result (at + length bytes.now ≤ 2 ^ 62) }
        ensures crash { LeavesBy (Torn at (length bytes.now)) (told_of self.old) (told_of self.new) }
        ensures goes_on { GoesOn (told_of self.old) (told_of self.new) }
        ensures failed { OnErr result (Fails (told_of self.old) (told_of self.new)) }

        // What this one gives, and when it fails.
        ensures next_moment { OnOk result ((told_of self.new).moment ≡ (told_of self.old).moment + 1) }
        ensures told { Contains (failing_of self.old) (calls_of self.old) → IsErr result }
        ensures counted { IsCounted self.old self.new }
    {
        let gone = self.put(at, bytes);
        self.count(gone)
    }

    fn cut(&mut self, to: u64) -> Result<(), DiskFailed>
        requires { Reaches (told_of self.old) to }
        // What every disk does.
        ensures cut { OnOk result ((told_of self.new).reads ≡ option_map (λ file. take to file) (told_of self.old).reads) }
        ensures crash { LeavesBy (Shortened to) (told_of self.old) (told_of self.new) }
        ensures goes_on { GoesOn (told_of self.old) (told_of self.new) }
        ensures failed { OnErr result (Fails (told_of self.old) (told_of self.new)) }

        // What this one gives, and when it fails.
        ensures next_moment { OnOk result ((told_of self.new).moment ≡ (told_of self.old).moment + 1) }
        ensures told { Contains (failing_of self.old) (calls_of self.old) → IsErr result }
        ensures counted { IsCounted self.old self.new }
    {
        let gone = self.go(Step::Cut(to as usize)).is_ok();
        self.count(gone)
    }

    fn sync(&mut self) -> Result<(), DiskFailed>
        // What every disk does.
        ensures durable { OnOk result (IfSome (told_of self.old).reads (λ file. Only file (told_of self.new).may_leave)) }
        ensures same { OnOk result ((told_of self.new).reads ≡ (told_of self.old).reads) }
        ensures crash { LeavesNothingNew (told_of self.old) (told_of self.new) }
        ensures goes_on { GoesOn (told_of self.old) (told_of self.new) }
        ensures failed { OnErr result (Fails (told_of self.old) (told_of self.new)) }

        // What this one gives, and when it fails.
        ensures next_moment { OnOk result ((told_of self.new).moment ≡ (told_of self.old).moment + 1) }
        ensures same_bytes { bytes_of self.new ≡ bytes_of self.old }
        ensures told { Contains (failing_of self.old) (calls_of self.old) → IsErr result }
        ensures counted { IsCounted self.old self.new }
    {
        let gone = self.settle();
        self.count(gone)
    }
}

/// Takes the file over a step, and the image as the choice says.
fn go_on(
    alloc: Global,
    step: &Step,
    choice: u64,
    rest: &mut u64,
    file: &mut Vec<u8>,
    image: &mut Vec<u8>,
) -> Result<(), AllocError>
    ensures { OnOk result (Takes step.now choice file.old.items image.old.items file.new.items image.new.items) }
{
    match step {
        Step::Sync => {
            *rest = choice;
            *image = Vec::from_slice(alloc, file)?;
            Ok(())
        }
        _ => {
            let way = choose(choice, rest, step.ways(file.len()));
            *image = step.land(alloc, image, way)?;
            *file = step.land(alloc, file, WHOLLY)?;
            Ok(())
        }
    }
}

/// How the next step lands in an image of that choice; `rest` is what is left of the choice.
fn choose(choice: u64, rest: &mut u64, ways: u64) -> u64
    requires { 0 < ways }
    ensures none { choice ≡ 0 → result ≡ 0 }
    ensures whole { choice ≡ 1 → result ≡ 1 }
{
    if choice <= WHOLLY {
        return choice;
    }
    let way = *rest % ways;
    *rest /= ways;
    way
}
