//! The journal of a network with one arc, stopped in each call of the disk.

ghost use Rattle.std.specs.Prelude.{◌≤◌, ◌^◌, length, IsTrue, IfOk};
ghost use Rattle.box_tree.specs.Views.{shown_entry};
ghost use Rattle.journal_format.specs.Payload.{IsNarrow};

use box_tree::Entry;
use disk_calls::Disk;
use node_journal::{Journal, JournalFault, payload_len};
use plan_core::WrittenPlan;
use std::alloc::{AllocError, Global};
use std::test::Fail;
use worked_devices::{TestDisk, disk_of, file_of};
use worked_networks::CANONICAL_ONE_DIRECT as TEXT;

/// How long a payload may be here.
const LARGEST: u32 = 1000;

/// The plan that ships 100.
fn ships_all(alloc: Global) -> Result<Entry, AllocError>
    ensures { IfOk result (λ e. IsNarrow (shown_entry e)) }
{
    Ok(Entry::Improve(WrittenPlan {
        base: 1,
        flow_base: 1,
        weights: Vec::new(alloc),
        outflows: Vec::new(alloc),
        direct: vec![in alloc; 100_000_000]?,
    }))
}

/// How many entries the journal of a file has that is on the disk.
fn reopen<D: Disk>(alloc: Global, disk: &mut D) -> Result<usize, JournalFault>
    requires { (name : _) → IsTrue ((D.told disk.old).admits name) }
{
    disk.attach("journal")?;
    let opened = Journal::open(alloc, disk, TEXT, LARGEST)?;
    Ok(opened.entries.len())
}

/// Opens the journal of the file and records the plan.
fn record<D: Disk>(alloc: Global, disk: &mut D) -> Result<(), JournalFault>
    requires { (name : _) → IsTrue ((D.told disk.old).admits name) }
{
    let entry = ships_all(alloc)?;
    disk.attach("journal")?;
    let mut opened = Journal::open(alloc, disk, TEXT, LARGEST)?;
    if payload_len(&entry) > u64::from(LARGEST) || opened.journal.needs_turn() {
        return Err(JournalFault::Memory);
    }
    opened.journal.append(disk, &entry)?;
    Ok(())
}

/// Whether each image of a moment opens as a journal of at least so many entries, and of one at the most.
fn holds(alloc: Global, disk: &TestDisk, moment: u64, least: usize) -> bool {
    for choice in 0..32 {
        match entries_of(alloc, disk, moment, choice) {
            Ok(count) if least <= count && count <= 1 => {}
            _ => return false,
        }
    }
    true
}

/// How many entries the journal has that is on an image.
fn entries_of(
    alloc: Global,
    disk: &TestDisk,
    moment: u64,
    choice: u64,
) -> Result<usize, JournalFault> {
    match file_of(disk).image(moment, choice) {
        Ok(image) => entries_in(alloc, &image),
        Err(_) => Err(JournalFault::Memory),
    }
}

/// How many entries the journal of a file of these bytes has.
fn entries_in(alloc: Global, file: &[u8]) -> Result<usize, JournalFault> {
    let mut disk = disk_of(alloc, &[file], 100)?;
    reopen(alloc, &mut disk)
}

/// Whether each moment of a disk leaves no part of an entry: at each there is one or none, and one at the end of a run that recorded it.
fn is_whole(alloc: Global, disk: &TestDisk, recorded: bool) -> bool {
    let last = file_of(disk).moment();
    for moment in 0..last {
        if !holds(alloc, disk, moment, 0) {
            return false;
        }
    }
    holds(alloc, disk, last, usize::from(recorded))
}

/// Whether a run that is stopped in this call leaves no part of an entry. One that is not stopped makes 17 calls.
fn is_whole_after(alloc: Global, call: u64) -> Result<bool, AllocError> {
    let mut disk = disk_of(alloc, &[], call)?;
    let recorded = record(alloc, &mut disk).is_ok();
    Ok(recorded == (call == 17) && is_whole(alloc, &disk, recorded))
}

#[test]
fn a_stop_in_any_call_leaves_no_part_of_an_entry(rt: HostRuntime) -> Result<(), Fail> {
    for call in 0..18 {
        assert!(rt; is_whole_after(rt.alloc(), call)?, "in call {call}");
    }
    Ok(())
}
