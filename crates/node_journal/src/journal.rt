//! The journal: opened on a file, and entries put behind it, with a Turn before the first where the file has version 1.

ghost use Rattle.std.specs.Prelude.{◌≡◌, ◌↔◌, ◌+◌, ◌-◌, ◌^◌, ◌<◌, ◌≤◌, ◌⊎◌, [], ◌∷◌, ◌++◌, ℕ, List, Some, false, length, take, drop, map, is_err, IsTrue, IfOk, IfErr, IfSome, OnOk, OnErr, IsErrOf};
ghost use Rattle.edge_io.specs.Counts.{Rose};
ghost use Rattle.disk_calls.specs.Disks.{Reaches, LeavesOnly, IsSameDisk};
ghost use Rattle.row_model.specs.Entries as entries;
ghost use Rattle.box_tree.specs.Views.{shown_entry};
ghost use Rattle.journal_format.specs.Payload.{payload, IsNarrow};
ghost use Rattle.journal_format.specs.Histories.{framed};
ghost use Rattle.journal_format.specs.Files.{newborn, behind_gate, IsClosed, IsShut, IsUnborn, SaysZeroed, Stands, TurnsAt, IsKept, IsOwn, IsOwnFor};
ghost use Rattle.journal_format.specs.Faults.{Has, HoldsAllowed, IsFree, IsDecided};
ghost use Rattle.journal_format.specs.Records.{IsKeptAt, IsHeaded};
ghost use Rattle.node_journal.specs.Journals.{IsSound, IsLeft, IsBeforeOrAfter, IsShutBehind, IsPutBehind, IsOpenedAs};
ghost use Rattle.node_journal.specs.Settled.{IsOnDisk, IsSettled, IsQuiet};

use crate::birth::give_birth;
use crate::found::Found;
use crate::front::find_state;
use crate::records::read_records;
use crate::synced::{measure, write_synced};
use box_tree::Entry;
use disk_calls::{Disk, DiskFailed};
use journal_format::{
    FRONT, JournalFault, Page, State, Version, newborn_file, payload_len, put_behind_gate,
    turn_behind_gate,
};
use std::alloc::Global;
use std::marker::Model;

/// How many bytes a record has beside its payload, with the closed gate behind it, and without its own gate.
const FRAME: usize = 5;

/// A journal that is open: where its last gate stands, which is closed, the version that what stands behind it has, and the room that a
/// record is put together in.
#[derive(Drop)]
pub struct Journal {
    gate: u64,
    version: Version,
    page: Page,
    failed: bool,
}

impl Model for Journal {
    ghost use Rattle.std.specs.Prelude.{◌≡◌, ◌+◌, ◌-◌, ◌^◌, ◌≤◌};
    ghost use Rattle.node_journal.specs.Journals.{Ready, IsSound};

    ghost Value = { Ready };

    ghost view = { λ j. record { next = record { gate = j.gate; version = j.version }; largest = j.page.room - 5; failed = j.failed } };

    ghost invariant = { λ j. IsSound j.gate j.page.room };
}

/// A journal that was opened, the entries of its file, in order, and the number of the Turn's record, from 0, where the file has one.
#[derive(Drop)]
pub struct Opened {
    pub journal: Journal,
    pub entries: Vec<Entry>,
    pub turn_at: Option<u64>,
}

impl Journal {
    /// Whether a call failed. The journal has to be opened again then.
    pub fn has_failed(&self) -> bool
        ensures { result ≡ self.now.failed }
    {
        self.failed
    }

    /// Whether the file has version 1 and no Turn yet. A Turn is recorded then before the next entry.
    pub fn needs_turn(&self) -> bool
        ensures { IsTrue result ↔ self.now.next.version ≡ Version.One }
    {
        match self.version {
            Version::One => true,
            Version::Two => false,
        }
    }

    /// Records the Turn of a file of version 1. What follows it has version 2, and the file stands for the entries that it stood for. At
    /// `DiskFailed` the journal has failed, and is opened again. No memory is taken.
    pub fn turn<D: Disk>(&mut self, disk: &mut D) -> Result<(), DiskFailed>
        // The disk reads as this journal left it, and a crash leaves that.
        requires left { IsTrue (D.told disk.old).tells → IsLeft self.old (D.told disk.old) }
        requires usable { self.old.failed ≡ false }
        requires due { self.old.next.version ≡ Version.One }

        // Promise: After a Turn the one file that a crash leaves stands for the entries from before, and needs no Turn
        ensures acknowledged { OnOk result ((text file : List ℕ) (list : List entries.Entry) →
            IsOnDisk file (D.told disk.old) → IsKeptAt self.old.next text list file →
            (after : List ℕ) × IsOnDisk after (D.told disk.new) × IsKeptAt self.new.next text list after) }
        ensures turned { OnOk result (self.new.next.version ≡ Version.Two) }
        // Promise: A crash at any moment of a Turn leaves the entries from before
        ensures any_moment { (text file : List ℕ) (list : List entries.Entry) →
            IsOnDisk file (D.told disk.old) → IsKeptAt self.old.next text list file →
            LeavesOnly (D.told disk.old) (D.told disk.new) (IsKept text list) }

        ensures usable { self.new.failed ≡ is_err result }
        ensures same_largest { self.new.largest ≡ self.old.largest }
        // Promise: A Turn fails only where the disk's count of faults rose, and takes no memory
        ensures failed { OnErr result (Rose (D.told disk.old).faults (D.told disk.new).faults) }
        ensures same_disk { IsSameDisk (D.told disk.old) (D.told disk.new) }
    {
        let gate = self.gate;
        let behind = turn_behind_gate();
        match write_record(disk, gate, &behind) {
            Ok(()) => {
                self.gate = gate + behind.len() as u64;
                self.version = Version::Two;
                Ok(())
            }
            Err(DiskFailed) => {
                self.failed = true;
                Err(DiskFailed)
            }
        }
    }

    /// Records an entry. At `Ok` it is acknowledged: every crash from then on leaves a file that has it. After `DiskFailed` the
    /// journal has failed, and is opened again. No memory is taken.
    pub fn append<D: Disk>(&mut self, disk: &mut D, entry: &Entry) -> Result<(), DiskFailed>
        // The disk reads as this journal left it, and a crash leaves that.
        requires left { IsTrue (D.told disk.old).tells → IsLeft self.old (D.told disk.old) }
        requires usable { self.old.failed ≡ false }
        // The file goes on in version 2: no Turn is needed.
        requires turned { self.old.next.version ≡ Version.Two }
        requires short { length (payload Version.Two (shown_entry entry.now)) ≤ self.old.largest }
        requires narrow { IsNarrow (shown_entry entry.now) }

        // Promise: Once an entry is acknowledged, the one file that a crash leaves has it behind those from before
        ensures acknowledged { OnOk result ((text file : List ℕ) (list : List entries.Entry) →
            IsOnDisk file (D.told disk.old) → IsKeptAt self.old.next text list file →
            (after : List ℕ) × IsOnDisk after (D.told disk.new) × IsKeptAt self.new.next text (list ++ shown_entry entry.now ∷ []) after) }
        // A crash at any moment of the call leaves the entries from before it, with the new one or without.
        // Promise: A crash at any moment of an append leaves the entries from before, with the new one or without, and never a part of one
        ensures any_moment { (text file : List ℕ) (list : List entries.Entry) →
            IsOnDisk file (D.told disk.old) → IsKeptAt self.old.next text list file →
            LeavesOnly (D.told disk.old) (D.told disk.new) (IsBeforeOrAfter text list (shown_entry entry.now)) }

        ensures usable { self.new.failed ≡ is_err result }
        ensures turned { self.new.next.version ≡ Version.Two }
        ensures same_largest { self.new.largest ≡ self.old.largest }
        // Promise: An append fails only where the disk's count of faults rose, and takes no memory
        ensures failed { OnErr result (Rose (D.told disk.old).faults (D.told disk.new).faults) }
        ensures same_disk { IsSameDisk (D.told disk.old) (D.told disk.new) }
    {
        let gate = self.gate;
        let size = payload_len(entry) as u32;
        put_behind_gate(&mut self.page, size, entry);
        match write_record(disk, gate, self.page.bytes()) {
            Ok(()) => {
                self.gate = gate + FRAME as u64 + u64::from(size);
                Ok(())
            }
            Err(DiskFailed) => {
                self.failed = true;
                Err(DiskFailed)
            }
        }
    }

    /// Opens the journal of a text on the file that is attached. A file in which no journal has come to be yet is made one without
    /// entries. `largest` is the length of the longest payload that a record may have. It begins with a sync.
    pub fn open<D: Disk>(
        alloc: Global,
        disk: &mut D,
        text: &[u8],
        largest: u32,
    ) -> Result<Opened, JournalFault>
        requires attached { Reaches (D.told disk.old) 0 }
        requires text { length text.now ≤ 2 ^ 20 }
        requires largest { largest ≤ 2 ^ 20 }

        // What the file stands for is what is answered, and it holds that now.
        // Promise: What is answered at an opening is the list that the file stands for
        ensures entries { IfOk result (λ o. (file : List ℕ) → (D.told disk.old).reads ≡ Some file → Stands file text.now (map shown_entry o.entries.items)) }
        // Promise: What is answered at an opening with the entries is the number of the Turn's record, where the file has one
        ensures turn_at { IfOk result (λ o. (file : List ℕ) → (D.told disk.old).reads ≡ Some file → TurnsAt file text.now o.turn_at) }
        ensures allowed { OnOk result ((file : List ℕ) → (D.told disk.old).reads ≡ Some file → HoldsAllowed text.now largest file) }
        // Promise: After an opening the file holds the list that it stood for, with a closed gate behind it, and every crash leaves that
        //   file
        ensures left { IfOk result (λ o. (file : List ℕ) → (D.told disk.old).reads ≡ Some file →
            (now : List ℕ) × IsOnDisk now (D.told disk.new) × IsKeptAt o.journal.next text.now (map shown_entry o.entries.items) now) }
        ensures usable { IfOk result (λ o. o.journal.failed ≡ false) }
        ensures largest { IfOk result (λ o. o.journal.largest ≡ largest) }

        // The fault is one that the file has, or of the disk, or of memory.
        // Promise: The file of a journal is refused only for a fault that it has, or since disk or memory failed
        ensures refused { IfErr result (λ e. (file : List ℕ) → (D.told disk.old).reads ≡ Some file → IsFree e ⊎ Has text.now largest file e) }
        // A fault that it has is answered, and of a file that stands for entries none but those two can be.
        // Promise: A fault that the file of a journal has is answered: a file has one at most
        ensures decided { (file : List ℕ) → (D.told disk.old).reads ≡ Some file → IsDecided text.now largest file result }
        // Promise: A file that stands for entries no longer than allowed is not refused
        ensures taken { (file : List ℕ) → (D.told disk.old).reads ≡ Some file → HoldsAllowed text.now largest file → IfErr result IsFree }

        // A crash at any moment leaves what it might have left before, or a file that is the journal's and stands for the same.
        // Promise: A crash at any moment of an opening leaves a file from before it, or one that a journal of this network may leave and
        //   that stands for the same list
        ensures any_moment { (file : List ℕ) (list : List entries.Entry) → (D.told disk.old).reads ≡ Some file → IsOwn text.now file → Stands file text.now list →
            LeavesOnly (D.told disk.old) (D.told disk.new) (λ c. (D.told disk.old).may_leave c ⊎ IsOwnFor text.now list c) }
        // A file that is refused is left as it is.
        // Promise: A file that is refused is left as it is
        ensures untouched { IfErr result (λ e. IsFree e ⊎ IsQuiet (D.told disk.old) (D.told disk.new)) }

        // Where memory runs out the file reads as it did.
        // Promise: Where memory runs out during an opening, the file reads as it did
        ensures kept { IsErrOf result JournalFault.Memory → (D.told disk.new).reads ≡ (D.told disk.old).reads }

        // Promise: A failure of the disk is told only where its count of faults rose
        ensures failed { IsErrOf result JournalFault.Disk → Rose (D.told disk.old).faults (D.told disk.new).faults }
        ensures same_disk { IsSameDisk (D.told disk.old) (D.told disk.new) }
    {
        let room = vec![in alloc; 0_u8; largest as usize + FRAME]?;
        let whole = newborn_file(alloc, text)?;
        let end = measure(disk)?;
        open_measured(alloc, disk, end, &whole, room)
    }

    /// A journal whose last gate stands at this place, and that goes on in this version.
    fn at(gate: u64, version: Version, room: Vec<u8>) -> Journal
        requires { IsSound gate (length room.items) }
        ensures { result ≡ record { next = record { gate = gate; version = version }; largest = length room.items - 5; failed = false } }
    {
        Journal {
            gate,
            version,
            page: Page::new(room),
            failed: false,
        }
    }
}

/// Opens the journal on a file that is on the disk and has this length; `whole` is the file of a journal without entries.
fn open_measured<D: Disk>(
    alloc: Global,
    disk: &mut D,
    end: u64,
    whole: &[u8],
    room: Vec<u8>,
) -> Result<Opened, JournalFault>
    requires settled { IsTrue (D.told disk.old).tells → IsSettled (D.told disk.old) }
    requires size { IfSome (D.told disk.old).reads (λ file. end ≡ length file) }
    requires end { end ≤ 2 ^ 62 }
    requires whole { (text : List ℕ) × (whole.now ≡ newborn text) }
    requires short { length whole.now ≤ 2 ^ 21 }
    requires room { IsSound 0 (length room.items) }
    ensures opened { IfOk result (λ o. (text file : List ℕ) → IsOnDisk file (D.told disk.old) → whole.now ≡ newborn text →
        IsOpenedAs text (length room.items - 5) file (map shown_entry o.entries.items) o.turn_at o.journal.next (D.told disk.new)) }
    ensures journal { IfOk result (λ o. o.journal ≡ record { next = o.journal.next; largest = length room.items - 5; failed = false }) }
    ensures refused { IfErr result (λ e. (text file : List ℕ) → IsOnDisk file (D.told disk.old) → whole.now ≡ newborn text →
        IsFree e ⊎ Has text (length room.items - 5) file e) }
    ensures any_moment { (text file : List ℕ) (list : List entries.Entry) → IsOnDisk file (D.told disk.old) → whole.now ≡ newborn text →
        IsOwn text file → Stands file text list → LeavesOnly (D.told disk.old) (D.told disk.new) (λ c. (D.told disk.old).may_leave c ⊎ IsOwnFor text list c) }
    ensures untouched { IfErr result (λ e. IsFree e ⊎ IsQuiet (D.told disk.old) (D.told disk.new)) }
    ensures kept { IsErrOf result JournalFault.Memory → (D.told disk.new).reads ≡ (D.told disk.old).reads }
    ensures failed { IsErrOf result JournalFault.Disk → Rose (D.told disk.old).faults (D.told disk.new).faults }
    ensures same_disk { IsSameDisk (D.told disk.old) (D.told disk.new) }
{
    let start = whole.len() - 1;
    let state = find_state(alloc, disk, end, &whole[FRONT..start])?;
    match state {
        State::Born(version) => recover(alloc, disk, version, start as u64, end, room),
        State::Unborn => bear(alloc, disk, false, whole, room),
        State::Zeroed => bear(alloc, disk, true, whole, room),
    }
}

/// Makes an unborn file a journal without entries.
fn bear<D: Disk>(
    alloc: Global,
    disk: &mut D,
    zeroed: bool,
    whole: &[u8],
    room: Vec<u8>,
) -> Result<Opened, JournalFault>
    requires settled { IsTrue (D.told disk.old).tells → IsSettled (D.told disk.old) }
    requires whole { 1 ≤ length whole.now }
    requires short { length whole.now ≤ 2 ^ 21 }
    requires room { IsSound 0 (length room.items) }
    requires zeroed { (file : List ℕ) → (D.told disk.old).reads ≡ Some file → SaysZeroed zeroed file }
    ensures opened { IfOk result (λ o. (text file : List ℕ) → IsOnDisk file (D.told disk.old) → whole.now ≡ newborn text → IsUnborn file →
        IsOpenedAs text (length room.items - 5) file (map shown_entry o.entries.items) o.turn_at o.journal.next (D.told disk.new)) }
    ensures journal { IfOk result (λ o. o.journal ≡ record { next = o.journal.next; largest = length room.items - 5; failed = false }) }
    ensures free { IfErr result IsFree }
    ensures any_moment { (text file : List ℕ) → IsOnDisk file (D.told disk.old) → IsUnborn file → IsOwn text file →
        whole.now ≡ newborn text → LeavesOnly (D.told disk.old) (D.told disk.new) (IsOwnFor text []) }
    ensures kept { IsErrOf result JournalFault.Memory → (D.told disk.new).reads ≡ (D.told disk.old).reads }
    ensures failed { IsErrOf result JournalFault.Disk → Rose (D.told disk.old).faults (D.told disk.new).faults }
    ensures same_disk { IsSameDisk (D.told disk.old) (D.told disk.new) }
{
    give_birth(disk, zeroed, whole)?;
    Ok(Opened {
        journal: Journal::at(whole.len() as u64 - 1, Version::Two, room),
        entries: Vec::new(alloc),
        turn_at: None,
    })
}

/// Reads the entries of a file that was born in this version and whose records begin at `start`, and sees that a closed gate stands
/// behind them.
fn recover<D: Disk>(
    alloc: Global,
    disk: &mut D,
    version: Version,
    start: u64,
    end: u64,
    room: Vec<u8>,
) -> Result<Opened, JournalFault>
    requires settled { IsTrue (D.told disk.old).tells → IsSettled (D.told disk.old) }
    requires size { IfSome (D.told disk.old).reads (λ file. end ≡ length file) }
    requires start { start ≤ end }
    requires end { end ≤ 2 ^ 62 }
    requires room { IsSound 0 (length room.items) }
    ensures opened { IfOk result (λ o. (text file : List ℕ) → IsOnDisk file (D.told disk.old) → IsHeaded version text start file →
        IsOpenedAs text (length room.items - 5) file (map shown_entry o.entries.items) o.turn_at o.journal.next (D.told disk.new)) }
    ensures journal { IfOk result (λ o. o.journal ≡ record { next = o.journal.next; largest = length room.items - 5; failed = false }) }
    ensures refused { IfErr result (λ e. (text file : List ℕ) → IsOnDisk file (D.told disk.old) → IsHeaded version text start file →
        IsFree e ⊎ Has text (length room.items - 5) file e) }
    ensures quiet { (text file : List ℕ) (list : List entries.Entry) → IsOnDisk file (D.told disk.old) → IsHeaded version text start file →
        IsKept text list file → IsQuiet (D.told disk.old) (D.told disk.new) }
    ensures untouched { IfErr result (λ e. IsFree e ⊎ IsQuiet (D.told disk.old) (D.told disk.new)) }
    ensures kept { IsErrOf result JournalFault.Memory → (D.told disk.new).reads ≡ (D.told disk.old).reads }
    ensures failed { IsErrOf result JournalFault.Disk → Rose (D.told disk.old).faults (D.told disk.new).faults }
    ensures same_disk { IsSameDisk (D.told disk.old) (D.told disk.new) }
{
    let mut payload = vec![in alloc; 0_u8; (room.len() - FRAME).max(1)]?;
    let found = read_records(alloc, disk, version, start, end, payload.as_mut_slice())?;
    shut(disk, found.spot.at, end)?;
    let Found {
        entries,
        turn_at,
        spot,
    } = found;
    Ok(Opened {
        journal: Journal::at(spot.at, spot.version, room),
        entries,
        turn_at,
    })
}

/// Writes a closed gate where a file ends without one.
fn shut<D: Disk>(disk: &mut D, gate: u64, end: u64) -> Result<(), DiskFailed>
    requires settled { IsTrue (D.told disk.old).tells → IsSettled (D.told disk.old) }
    requires size { IfSome (D.told disk.old).reads (λ file. end ≡ length file) }
    requires within { gate ≤ end }
    ensures on_disk { OnOk result ((file : List ℕ) → IsOnDisk file (D.told disk.old) → end ≡ length file → IsClosed (drop gate file) →
        (now : List ℕ) × IsOnDisk now (D.told disk.new) × (take gate now ≡ take gate file) × IsShut (drop gate now)) }
    ensures quiet { gate < end → IsQuiet (D.told disk.old) (D.told disk.new) }
    ensures failed { OnErr result (Rose (D.told disk.old).faults (D.told disk.new).faults) }
    ensures same_disk { IsSameDisk (D.told disk.old) (D.told disk.new) }
{
    if gate < end {
        return Ok(());
    }
    write_synced(disk, gate, &[0])
}

/// Writes a record behind the last gate, and then opens that gate; each is on the disk before what follows.
fn write_record<D: Disk>(disk: &mut D, gate: u64, behind: &[u8]) -> Result<(), DiskFailed>
    requires near { gate ≤ 2 ^ 62 }
    requires left { IsTrue (D.told disk.old).tells → (front file : List ℕ) × IsOnDisk file (D.told disk.old) × (gate ≡ length front) × IsShutBehind front file }
    ensures on_disk { OnOk result ((front file bytes : List ℕ) →
        IsOnDisk file (D.told disk.old) → gate ≡ length front → IsShutBehind front file → behind.now ≡ behind_gate bytes →
        (now : List ℕ) × IsOnDisk now (D.told disk.new) × (gate + length behind.now ≡ length (front ++ framed bytes)) × IsShutBehind (front ++ framed bytes) now) }
    ensures any_moment { (front file bytes : List ℕ) →
        IsOnDisk file (D.told disk.old) → gate ≡ length front → IsShutBehind front file → behind.now ≡ behind_gate bytes →
        LeavesOnly (D.told disk.old) (D.told disk.new) (IsPutBehind front bytes) }
    ensures short { OnOk result (gate + length behind.now ≤ 2 ^ 62) }
    ensures failed { OnErr result (Rose (D.told disk.old).faults (D.told disk.new).faults) }
    ensures same_disk { IsSameDisk (D.told disk.old) (D.told disk.new) }
{
    write_synced(disk, gate + 1, behind)?;
    write_synced(disk, gate, &[1])
}
