//! The records of a file, read one after another, each once.

ghost use Rattle.std.specs.Prelude.{◌≡◌, ◌+◌, ◌-◌, ◌^◌, ◌<◌, ◌≤◌, ◌⊎◌, ℕ, List, Some, None, length, min, take, drop, map, IfOk, IfErr, IfSome, OnOk, OnErr, MatchResult, MatchOption, IsErrOf};
ghost use Rattle.edge_io.specs.Counts.{Rose};
ghost use Rattle.disk_calls.specs.Disks.{Reaches, IsSameDisk};
ghost use Rattle.journal_format.specs.Payload.{turn_payload};
ghost use Rattle.journal_format.specs.Reading.{payload_at};
ghost use Rattle.journal_format.specs.Files.{IsClosed};
ghost use Rattle.journal_format.specs.Faults.{IsFree};
ghost use Rattle.journal_format.specs.Records.{Opens, FailsAt, IsBadBehind};
ghost use Rattle.node_journal.specs.Found.{Spells, IsRecordAt, IsFoundFrom};
ghost use Rattle.node_journal.specs.Settled.{IsQuiet};

use crate::found::{Found, Record, Spot};
use crate::synced::read_back;
use disk_calls::{Disk, DiskFailed};
use journal_format::{
    EntryUnread, HEAD, JournalFault, RecordHead, Version, is_turn, opening_of, read_payload,
};
use std::alloc::Global;

/// What the records hold from a place on, in a file that was born in this version, up to the first gate that is not open. `room` has
/// the size of the largest payload, and of one byte at least.
pub(crate) fn read_records<D: Disk>(
    alloc: Global,
    disk: &mut D,
    born: Version,
    start: u64,
    end: u64,
    room: &mut [u8],
) -> Result<Found, JournalFault>
    requires within { start ≤ end }
    requires short { end ≤ 2 ^ 62 }
    requires room { 1 ≤ length room.old }
    requires known { Reaches (D.told disk.old) end }
    ensures read { IfOk result (λ x. (file : List ℕ) → (D.told disk.old).reads ≡ Some file → end ≡ length file →
        IsFoundFrom born (length room.old) start file x × IsClosed (drop x.spot.at file)) }
    ensures bad { IfErr result (λ e. (file : List ℕ) → (D.told disk.old).reads ≡ Some file → end ≡ length file →
        IsFree e ⊎ IsBadBehind born (length room.old) start file e) }
    ensures reached { IfOk result (λ x. x.spot.at ≤ end) }
    ensures same { OnOk result ((D.told disk.new).reads ≡ (D.told disk.old).reads) }
    ensures kept { IsErrOf result JournalFault.Memory → (D.told disk.new).reads ≡ (D.told disk.old).reads }
    ensures quiet { IsQuiet (D.told disk.old) (D.told disk.new) }
    ensures same_disk { IsSameDisk (D.told disk.old) (D.told disk.new) }
    ensures failed { IsErrOf result JournalFault.Disk → Rose (D.told disk.old).faults (D.told disk.new).faults }
{
    let mut entries = Vec::new(alloc);
    let mut turn_at = None;
    let mut spot = Spot {
        at: start,
        version: born,
        number: 0,
    };
    while let Some((record, after)) = next_record(alloc, disk, spot, end, room)? {
        match record {
            Record::Entry(entry) => entries.push(entry)?,
            Record::Turn => {
                turn_at = Some(spot.number);
                spot.version = Version::Two;
            }
        }
        spot.at = after;
        spot.number += 1;
    }
    Ok(Found {
        entries,
        turn_at,
        spot,
    })
}

/// The record at a spot, and where the next one stands; None where no gate stands open there.
fn next_record<D: Disk>(
    alloc: Global,
    disk: &mut D,
    spot: Spot,
    end: u64,
    room: &mut [u8],
) -> Result<Option<(Record, u64)>, JournalFault>
    requires within { spot.at ≤ end }
    requires short { end ≤ 2 ^ 62 }
    requires room { 1 ≤ length room.old }
    requires known { Reaches (D.told disk.old) end }
    ensures read { (file : List ℕ) → (D.told disk.old).reads ≡ Some file → end ≡ length file →
        MatchResult result
        (λ o. MatchOption o (IsClosed (drop spot.at file)) (λ x. IsRecordAt spot.version (length room.old) spot.at file x.0 x.1))
        (FailsAt spot.version (length room.old) spot.number (drop spot.at file)) }
    ensures reached { IfOk result (λ o. IfSome o (λ x. (spot.at < x.1) × (x.1 ≤ end))) }
    ensures same { OnOk result ((D.told disk.new).reads ≡ (D.told disk.old).reads) }
    ensures kept { IsErrOf result JournalFault.Memory → (D.told disk.new).reads ≡ (D.told disk.old).reads }
    ensures quiet { IsQuiet (D.told disk.old) (D.told disk.new) }
    ensures same_disk { IsSameDisk (D.told disk.old) (D.told disk.new) }
    ensures failed { IsErrOf result JournalFault.Disk → Rose (D.told disk.old).faults (D.told disk.new).faults }
{
    match opening_at(disk, spot.at, end)? {
        RecordHead::Closed => Ok(None),
        RecordHead::CutShort => Err(JournalFault::BadRecord(spot.number)),
        RecordHead::Payload(size) => {
            let record = open_record(alloc, disk, spot, end, size, room)?;
            Ok(Some(record))
        }
    }
}

/// What stands before the payload of the record at a place.
fn opening_at<D: Disk>(disk: &mut D, at: u64, end: u64) -> Result<RecordHead, DiskFailed>
    requires within { at ≤ end }
    requires short { end ≤ 2 ^ 62 }
    requires known { Reaches (D.told disk.old) end }
    ensures opens { IfOk result (λ o. (file : List ℕ) → (D.told disk.old).reads ≡ Some file → end ≡ length file → Opens (drop at file) o) }
    ensures same { OnOk result ((D.told disk.new).reads ≡ (D.told disk.old).reads) }
    ensures quiet { IsQuiet (D.told disk.old) (D.told disk.new) }
    ensures same_disk { IsSameDisk (D.told disk.old) (D.told disk.new) }
    ensures failed { OnErr result (Rose (D.told disk.old).faults (D.told disk.new).faults) }
{
    let mut head = [0; HEAD];
    let size = (end - at).min(HEAD as u64) as usize;
    opening_in(disk, at, end, &mut head[..size])
}

/// The same; `head` has room for the first five bytes, or for all that there are.
fn opening_in<D: Disk>(
    disk: &mut D,
    at: u64,
    end: u64,
    head: &mut [u8],
) -> Result<RecordHead, DiskFailed>
    requires within { at ≤ end }
    requires size { length head.old ≡ min (end - at) HEAD }
    requires known { Reaches (D.told disk.old) end }
    ensures opens { IfOk result (λ o. (file : List ℕ) → (D.told disk.old).reads ≡ Some file → end ≡ length file → Opens (drop at file) o) }
    ensures same { OnOk result ((D.told disk.new).reads ≡ (D.told disk.old).reads) }
    ensures quiet { IsQuiet (D.told disk.old) (D.told disk.new) }
    ensures same_disk { IsSameDisk (D.told disk.old) (D.told disk.new) }
    ensures failed { OnErr result (Rose (D.told disk.old).faults (D.told disk.new).faults) }
{
    read_back(disk, at, head)?;
    Ok(opening_of(head))
}

/// The record at a spot whose gate is open and whose payload has this length, and where the next one stands.
fn open_record<D: Disk>(
    alloc: Global,
    disk: &mut D,
    spot: Spot,
    end: u64,
    size: u32,
    room: &mut [u8],
) -> Result<(Record, u64), JournalFault>
    requires within { spot.at ≤ end }
    requires short { end ≤ 2 ^ 62 }
    requires room { 1 ≤ length room.old }
    requires known { Reaches (D.told disk.old) end }
    ensures read { (file : List ℕ) → (D.told disk.old).reads ≡ Some file → end ≡ length file → Opens (drop spot.at file) (RecordHead.Payload size) →
        MatchResult result (λ x. IsRecordAt spot.version (length room.old) spot.at file x.0 x.1)
        (FailsAt spot.version (length room.old) spot.number (drop spot.at file)) }
    ensures reached { IfOk result (λ x. (spot.at < x.1) × (x.1 ≤ end)) }
    ensures same { OnOk result ((D.told disk.new).reads ≡ (D.told disk.old).reads) }
    ensures kept { IsErrOf result JournalFault.Memory → (D.told disk.new).reads ≡ (D.told disk.old).reads }
    ensures quiet { IsQuiet (D.told disk.old) (D.told disk.new) }
    ensures same_disk { IsSameDisk (D.told disk.old) (D.told disk.new) }
    ensures failed { IsErrOf result JournalFault.Disk → Rose (D.told disk.old).faults (D.told disk.new).faults }
{
    let place = spot.at + HEAD as u64;
    let after = place + u64::from(size);
    if size as usize > room.len() || after > end {
        return Err(JournalFault::BadRecord(spot.number));
    }
    match record_at(alloc, disk, spot.version, place, &mut room[..size as usize])? {
        Some(record) => Ok((record, after)),
        None => Err(JournalFault::BadRecord(spot.number)),
    }
}

/// The record whose payload stands at a place, as many bytes as there is room for; None where they are no entry's, and not the one Turn
/// that a file may have.
fn record_at<D: Disk>(
    alloc: Global,
    disk: &mut D,
    version: Version,
    at: u64,
    room: &mut [u8],
) -> Result<Option<Record>, JournalFault>
    requires { Reaches (D.told disk.old) (at + length room.old) }
    ensures read { IfOk result (λ o. (file : List ℕ) → (D.told disk.old).reads ≡ Some file →
        MatchOption o
        ((payload_at version (take (length room.old) (drop at file)) ≡ None) × (version ≡ Version.One → ¬ (take (length room.old) (drop at file) ≡ turn_payload)))
        (Spells version (take (length room.old) (drop at file)))) }
    ensures free { IfErr result IsFree }
    ensures same { OnOk result ((D.told disk.new).reads ≡ (D.told disk.old).reads) }
    ensures kept { IsErrOf result JournalFault.Memory → (D.told disk.new).reads ≡ (D.told disk.old).reads }
    ensures quiet { IsQuiet (D.told disk.old) (D.told disk.new) }
    ensures same_disk { IsSameDisk (D.told disk.old) (D.told disk.new) }
    ensures failed { IsErrOf result JournalFault.Disk → Rose (D.told disk.old).faults (D.told disk.new).faults }
{
    read_back(disk, at, room)?;
    record_in(alloc, version, room)
}

/// The record whose payload these bytes are.
fn record_in(alloc: Global, version: Version, bytes: &[u8]) -> Result<Option<Record>, JournalFault>
    ensures read { IfOk result (λ o. MatchOption o
        ((payload_at version bytes.now ≡ None) × (version ≡ Version.One → ¬ (bytes.now ≡ turn_payload)))
        (Spells version bytes.now)) }
    ensures memory { IfErr result (λ e. e ≡ JournalFault.Memory) }
{
    let turns = match version {
        Version::One => is_turn(bytes),
        Version::Two => false,
    };
    if turns {
        return Ok(Some(Record::Turn));
    }
    match read_payload(alloc, version, bytes) {
        Ok(entry) => Ok(Some(Record::Entry(entry))),
        Err(EntryUnread::Malformed) => Ok(None),
        Err(EntryUnread::Memory) => Err(JournalFault::Memory),
    }
}
