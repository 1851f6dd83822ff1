//! Disks, shelves and sinks over the system's calls in memory: short, broken off, and failing in turn.

use super::disks::{is_image, open, script, shows};
use super::shelves::{hands_out, whole};
use disk_calls::{Disk, DiskFailed, FileDisk};
use disk_model::{MemCalls, MemDisk};
use edge_io::{Breaks, MemSink, MemStream, Sink, SinkFailed, StdSink, WriteFault, write_whole};
use shelf_calls::{FileShelf, MemFiles};
use std::alloc::{AllocError, Global};
use std::test::Fail;

/// A disk over calls on a file of two bytes. One call fails, those of these numbers are broken off, and each takes so many bytes.
fn disk_over(
    alloc: Global,
    failing: u64,
    piece: usize,
    broken_off: &[u64],
) -> Result<FileDisk<MemCalls>, AllocError> {
    let bytes = Vec::from_slice(alloc, b"ab")?;
    let disk = MemDisk::failing(alloc, bytes, vec![in alloc; failing]?);
    let breaks = Breaks::new(Vec::from_slice(alloc, broken_off)?);
    Ok(FileDisk::new(MemCalls::new(disk, piece.max(1), breaks)))
}

/// How many moments a disk has, and whether its images are those of a write of two bytes in two calls, and of a cut.
fn images_of_pieces(disk: &MemDisk) -> (u64, [bool; 6]) {
    let (short, half, whole, cut) = (
        b"ab".as_slice(),
        b"abc".as_slice(),
        b"abcd".as_slice(),
        b"a".as_slice(),
    );
    let shown = [
        shows(disk, 0, [short; 8]),
        is_image(disk, 1, 1, half),
        is_image(disk, 2, 0, short),
        is_image(disk, 2, 1, whole),
        shows(disk, 3, [whole; 8]),
        shows(disk, 5, [cut; 8]),
    ];
    (disk.moment(), shown)
}

/// How the calls end, and what they leave, where each takes one byte and two are broken off.
fn left(alloc: Global) -> Result<(Result<(), DiskFailed>, (u64, [bool; 6])), AllocError> {
    let mut disk = disk_over(alloc, 99, 1, &[4, 6])?;
    let done = script(&mut disk);
    Ok((done, images_of_pieces(disk.system().disk())))
}

/// The calls are three of an attach, a length, two writes of a byte with one that is broken off, a sync, a length, a cut, a sync.
#[test]
fn a_disk_goes_over_short_calls(rt: HostRuntime) -> Result<(), Fail> {
    assert_eq!(rt; left(rt.alloc())?, (Ok(()), (5, [true; 6])));
    Ok(())
}

/// Whether the disk fails with this call, and an attach behind it finds this length.
fn fails_with(alloc: Global, call: u64, length: u64) -> Result<bool, AllocError> {
    let mut disk = disk_over(alloc, call, 9, &[])?;
    let told = (script(&mut disk), open(&mut disk), disk.len());
    Ok(told == (Err(DiskFailed), Ok(()), Ok(length)))
}

/// Each call of the disk below, and the length that an attach finds after it failed: a write or a cut that fails has reached the file.
#[test]
fn a_disk_fails_with_each_call(rt: HostRuntime) -> Result<(), Fail> {
    for (call, length) in [
        (0, 2),
        (2, 2),
        (3, 2),
        (4, 4),
        (5, 4),
        (6, 4),
        (7, 1),
        (8, 1),
    ] {
        assert!(rt; fails_with(rt.alloc(), call, length)?, "call {call}");
    }
    Ok(())
}

/// A shelf of one file, `a`, whose reads give two bytes at the most. The first so many are broken off, and one fails.
fn shelf_over(
    alloc: Global,
    broken_off: u64,
    failing: u64,
) -> Result<FileShelf<MemFiles>, AllocError> {
    let name = String::from_str(alloc, "a")?;
    let mut files = Vec::new(alloc);
    files.push((name, Vec::from_slice(alloc, b"seven b")?))?;
    Ok(FileShelf::new(MemFiles::new(alloc, files, 2, broken_off, failing)))
}

/// What a shelf answers on its whole file with room for it and with too little, and where there is none; and whether the opened file is
/// handed out to its end.
fn short_reads(alloc: Global, shelf: &mut FileShelf<MemFiles>) -> Result<String, AllocError> {
    let mut told = whole(alloc, shelf, "a", 7)?;
    told.push_str(whole(alloc, shelf, "a", 6)?.as_str())?;
    told.push_str(whole(alloc, shelf, "b", 6)?.as_str())?;
    let handed = hands_out(alloc, shelf, "a", 3, b"seven b");
    told.push_str(if handed { "handed out" } else { "lost" })?;
    Ok(told)
}

/// The same of a shelf whose first three reads are broken off.
fn told_of_reads(alloc: Global) -> Result<String, AllocError> {
    let mut shelf = shelf_over(alloc, 3, 99)?;
    short_reads(alloc, &mut shelf)
}

#[test]
fn a_shelf_goes_over_short_reads(rt: HostRuntime) -> Result<(), Fail> {
    let told = told_of_reads(rt.alloc())?;
    let expected = "Ok([115, 101, 118, 101, 110, 32, 98])\nErr(TooLong)\nErr(Failed)\nhanded out";
    assert_eq!(rt; told.as_str(), expected);
    Ok(())
}

/// What the shelf answers where a read fails.
fn failing_read(alloc: Global, failing: u64) -> Result<String, AllocError> {
    let mut shelf = shelf_over(alloc, 0, failing)?;
    whole(alloc, &mut shelf, "a", 9)
}

/// The fourth read, by which all seven bytes would be there, and the fifth, which would find the end.
#[test]
fn a_shelf_fails_with_a_read(rt: HostRuntime) -> Result<(), Fail> {
    for failing in [3, 4] {
        let told = failing_read(rt.alloc(), failing)?;
        assert_eq!(rt; told.as_str(), "Err(Failed)\n");
    }
    Ok(())
}

/// How three writes of a byte end, of which the second is broken off and tried again, and one more, which fails; and whether the sink below
/// has the three.
fn short_writes(
    alloc: Global,
) -> Result<(Result<(), WriteFault>, Result<usize, SinkFailed>, bool), AllocError> {
    let below = MemSink::new(alloc, [3].to_vec(alloc)?);
    let breaks = Breaks::new([1].to_vec(alloc)?);
    let mut sink = StdSink::new(MemStream::new(below, 1, breaks));
    let wrote = write_whole(&mut sink, b"abc");
    let more = sink.write(b"d");
    Ok((
        wrote,
        more,
        sink.stream().sink().taken() == b"abc".as_slice(),
    ))
}

#[test]
fn a_sink_goes_over_short_writes(rt: HostRuntime) -> Result<(), Fail> {
    assert_eq!(rt; short_writes(rt.alloc())?, (Ok(()), Err(SinkFailed), true));
    Ok(())
}
