//! Disks in memory: where they fail, which images a crash leaves, and one that reads as anything.

ghost use Rattle.std.specs.Prelude.{IsTrue, OnOk};
ghost use Rattle.disk_calls.specs.Disks.{Reaches};

use disk_calls::{Disk, DiskFailed, MAX_LENGTH, append_byte};
use disk_model::{MemDisk, WildDisk};
use std::alloc::Global;
use std::test::Fail;

/// Opens the file.
pub(crate) fn open<D: Disk>(disk: &mut D) -> Result<(), DiskFailed>
    requires { (name : _) → IsTrue ((D.told disk.old).admits name) }
    ensures known { OnOk result (Reaches (D.told disk.new) 0) }
{
    disk.attach("file")
}

/// Writes where the file reaches.
fn put<D: Disk>(disk: &mut D, at: u64, bytes: &[u8]) -> Result<(), DiskFailed>
    requires { Reaches (D.told disk.old) 0 }
    ensures known { OnOk result (Reaches (D.told disk.new) 0) }
{
    if at > disk.len()? {
        return Err(DiskFailed);
    }
    disk.write_at(at, bytes)
}

/// Cuts where the file reaches.
fn trim<D: Disk>(disk: &mut D, to: u64) -> Result<(), DiskFailed>
    requires { Reaches (D.told disk.old) 0 }
    ensures known { OnOk result (Reaches (D.told disk.new) 0) }
{
    if to > disk.len()? {
        return Err(DiskFailed);
    }
    disk.cut(to)
}

/// Seven calls: attach, len, write, sync, len, cut, sync.
pub(crate) fn script<D: Disk>(disk: &mut D) -> Result<(), DiskFailed>
    requires { (name : _) → IsTrue ((D.told disk.old).admits name) }
{
    open(disk)?;
    put(disk, 2, b"cd")?;
    disk.sync()?;
    trim(disk, 1)?;
    disk.sync()
}

/// A file of two bytes, of which one call fails.
fn failing(alloc: Global, call: u64) -> Result<MemDisk, Fail> {
    let bytes = Vec::from_slice(alloc, b"ab")?;
    Ok(MemDisk::failing(alloc, bytes, [call].to_vec(alloc)?))
}

/// Whether a choice of a moment has these bytes as its image.
pub(crate) fn is_image(disk: &MemDisk, moment: u64, choice: u64, bytes: &[u8]) -> bool {
    match disk.image(moment, choice) {
        Ok(image) => image.as_slice() == bytes,
        Err(_) => false,
    }
}

/// The image of one moment by each of the first choices.
pub(crate) fn shows(disk: &MemDisk, moment: u64, images: [&[u8]; 8]) -> bool {
    for (choice, bytes) in images.iter().enumerate() {
        if !is_image(disk, moment, choice as u64, bytes) {
            return false;
        }
    }
    true
}

/// What a disk answers of which a call fails: on the calls, on an attach behind them, and on the length that it finds.
type Failed = (
    Result<(), DiskFailed>,
    Result<(), DiskFailed>,
    Result<u64, DiskFailed>,
);

/// What a disk in memory answers on the seven calls, of which one fails, and behind them.
fn failed(alloc: Global, call: u64) -> Result<Failed, Fail> {
    let mut disk = failing(alloc, call)?;
    Ok((script(&mut disk), open(&mut disk), disk.len()))
}

#[test]
fn fails_where_told(rt: HostRuntime) -> Result<(), Fail> {
    for (call, length) in [(0, 2), (1, 2), (2, 4), (3, 4), (4, 4), (5, 1), (6, 1)] {
        let told = failed(rt.alloc(), call)?;
        assert_eq!(rt; told, (Err(DiskFailed), Ok(()), Ok(length)));
    }
    Ok(())
}

/// How many moments a disk has, and whether its images are those that the seven calls leave.
fn script_images(disk: &MemDisk) -> (u64, [bool; 5]) {
    let (short, whole) = (b"ab".as_slice(), b"abcd".as_slice());
    let (cut, part) = (b"a".as_slice(), b"abc".as_slice());
    let (torn, half) = (b"ab\x9c\x9b".as_slice(), b"abc\x9b".as_slice());
    let written = [short, whole, short, torn, part, half, whole, whole];
    let shortened = [whole, cut, short, part, whole, whole, cut, short];
    let shown = [
        shows(disk, 0, [short; 8]),
        shows(disk, 1, written),
        shows(disk, 2, [whole; 8]),
        shows(disk, 3, shortened),
        shows(disk, 4, [cut; 8]),
    ];
    (disk.moment(), shown)
}

/// How the seven calls end where none fails, and what they leave.
fn left(alloc: Global) -> Result<(Result<(), DiskFailed>, (u64, [bool; 5])), Fail> {
    let mut disk = failing(alloc, 7)?;
    let done = script(&mut disk);
    Ok((done, script_images(&disk)))
}

#[test]
fn leaves_images(rt: HostRuntime) -> Result<(), Fail> {
    assert_eq!(rt; left(rt.alloc())?, (Ok(()), (4, [true; 5])));
    Ok(())
}

/// Opens the file and appends a byte.
fn append<D: Disk>(disk: &mut D, byte: u8) -> Result<(), DiskFailed>
    requires { (name : _) → IsTrue ((D.told disk.old).admits name) }
{
    open(disk)?;
    append_byte(disk, byte)
}

/// How a byte is appended, how many moments there are then, and whether the last image has it.
fn appended(alloc: Global) -> Result<(Result<(), DiskFailed>, u64, bool), Fail> {
    let mut disk = MemDisk::new(alloc, Vec::from_slice(alloc, b"ab")?);
    let done = append(&mut disk, b'c');
    Ok((done, disk.moment(), is_image(&disk, 2, 0, b"abc")))
}

#[test]
fn appends(rt: HostRuntime) -> Result<(), Fail> {
    assert_eq!(rt; appended(rt.alloc())?, (Ok(()), 2, true));
    Ok(())
}

/// The three bytes that a disk reads at a place.
fn read_at(disk: &mut WildDisk, at: u64) -> Result<[u8; 3], DiskFailed> {
    let mut bytes = [0; 3];
    disk.read_at(at, &mut bytes)?;
    Ok(bytes)
}

/// The bytes are those that a script draws from 7. A file that reaches 2^62 is the longest.
#[test]
fn a_wild_disk_reads_as_anything(rt: HostRuntime) {
    let mut disk = WildDisk::new(7);
    let done = script(&mut disk);
    let read = [
        read_at(&mut disk, 297),
        read_at(&mut disk, 298),
        read_at(&mut disk, 0),
    ];
    let attached = disk.attach("file");
    let ends = [
        disk.write_at(MAX_LENGTH - 1, b"x"),
        disk.write_at(MAX_LENGTH, b"x"),
        disk.cut(MAX_LENGTH),
        disk.cut(MAX_LENGTH + 1),
    ];
    let fault = Err(DiskFailed);
    assert_eq!(rt; (done, attached, disk.len()), (Ok(()), Ok(()), Ok(300)));
    assert_eq!(rt;
        read,
        [Ok([94, 63, 49]), Err(DiskFailed), Ok([145, 233, 3])]
    );
    assert_eq!(rt; ends, [Ok(()), fault, Ok(()), fault]);
}
