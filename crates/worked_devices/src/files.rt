//! Files of the system: read whole, by pieces, and where there are none; a disk's file.

ghost use Rattle.std.specs.Prelude.{false, []};

use super::shelves::{has_left, whole};
use disk_calls::{Disk, DiskFailed, FileDisk, MAX_LENGTH, SystemFile};
use edge_io::CallFault;
use shelf_calls::{FileShelf, ReadCalls, Shelf, SystemFiles, read_once};
use std::alloc::{AllocError, Global};
use std::rt::Files;
use std::test::Fail;
use std::{fs, process};

/// The path of a file of this test alone.
fn path_of(rt: &HostRuntime, name: &str) -> Result<String, Fail> {
    let number = process::id(rt.process());
    Ok(format!(in rt.alloc(); "/tmp/worked_devices-{name}-{number}")?)
}

/// What a shelf answers on a file: read whole with room for it and with too little, and on one that has no end.
fn reads<R: Files>(
    alloc: Global,
    shelf: &mut FileShelf<SystemFiles<R>>,
    path: &str,
) -> Result<String, AllocError> {
    let mut told = whole(alloc, shelf, path, 4)?;
    told.push_str(whole(alloc, shelf, path, 3)?.as_str())?;
    told.push_str(whole(alloc, shelf, "/dev/zero", 9)?.as_str())?;
    Ok(told)
}

/// What a shelf answers on a file with the text "four", whether it hands that out once the name is gone, and what it answers then.
fn read_and_gone(rt: &HostRuntime, path: &str) -> Result<String, Fail> {
    let alloc = rt.alloc();
    let mut shelf = FileShelf::new(SystemFiles::new(rt));
    let mut told = reads(alloc, &mut shelf, path)?;
    let opened = shelf.open_read(alloc, path).is_ok() && fs::remove_file(rt, path).is_ok();
    let left = opened && has_left(alloc, &mut shelf, 3, b"four");
    told.push_str(if left { "left\n" } else { "lost\n" })?;
    told.push_str(whole(alloc, &mut shelf, path, 4)?.as_str())?;
    Ok(told)
}

/// An opened file can be read when its name is gone.
#[test]
fn a_file_is_read_whole_and_by_pieces(rt: HostRuntime) -> Result<(), Fail> {
    let path = path_of(&rt, "whole")?;
    fs::write(&rt, path.as_str(), "four")?;
    let told = read_and_gone(&rt, path.as_str())?;
    let expected = "Ok([102, 111, 117, 114])\nErr(TooLong)\nErr(TooLong)\nleft\nErr(Failed)\n";
    assert_eq!(rt; told.as_str(), expected);
    Ok(())
}

/// What a shelf answers before a file is opened, on a name that is none, and on a folder, which opens and can't be read.
fn unread(rt: &HostRuntime) -> Result<String, AllocError> {
    let alloc = rt.alloc();
    let mut shelf = FileShelf::new(SystemFiles::new(rt));
    let mut room = [0; 4];
    let unopened = shelf.read_some(&mut room);
    let none = shelf.open_read(alloc, "/tmp/worked_devices/none");
    let folder = shelf.open_read(alloc, "/tmp");
    let unread = shelf.read_some(&mut room);
    format!(in alloc; "{unopened:?} {none:?} {folder:?} {unread:?}")
}

#[test]
fn a_read_fails_where_no_file_is(rt: HostRuntime) -> Result<(), Fail> {
    let told = unread(&rt)?;
    assert_eq!(rt;
        told.as_str(),
        "Err(ReadFailed) Err(Failed) Ok(()) Err(ReadFailed)"
    );
    Ok(())
}

/// A file of which the first so many reads are broken off.
#[derive(Drop)]
struct BrokenOff(u8);

impl ReadCalls for BrokenOff {
    ghost tells = { false };

    ghost rest = { λ _. [] };

    fn read(&mut self, into: &mut [u8]) -> Result<usize, CallFault> {
        if self.0 > 0 {
            self.0 -= 1;
            return Err(CallFault::Interrupted);
        }
        Ok(into.len().min(2))
    }
}

#[test]
fn a_read_that_is_broken_off_is_tried_again(rt: HostRuntime) {
    let mut file = BrokenOff(3);
    assert_eq!(rt; read_once(&mut file, &mut [0; 4]).ok(), Some(2));
}

/// Of a disk's file when it is attached: its length, and what three bytes from 1 on are read as.
#[derive(Clone, Copy, Debug, PartialEq, Eq)]
struct Found {
    attached: Result<(), DiskFailed>,
    length: Result<u64, DiskFailed>,
    read: Result<(), DiskFailed>,
    bytes: [u8; 3],
}

/// What a new disk finds of a file.
fn found_at(rt: &HostRuntime, path: &str) -> Found {
    let mut disk = FileDisk::new(SystemFile::new(rt));
    let attached = disk.attach(path);
    let length = disk.len();
    let mut bytes = [0; 3];
    let read = disk.read_at(1, &mut bytes);
    Found {
        attached,
        length,
        read,
        bytes,
    }
}

/// What a disk answers that writes a file and cuts it.
fn kept(rt: &HostRuntime, path: &str) -> [Result<(), DiskFailed>; 6] {
    let mut disk = FileDisk::new(SystemFile::new(rt));
    [
        disk.attach(path),
        disk.write_at(0, b"pooling"),
        disk.sync(),
        disk.cut(4),
        disk.write_at(3, b"r"),
        disk.sync(),
    ]
}

#[test]
fn a_disk_keeps_its_file(rt: HostRuntime) -> Result<(), Fail> {
    let path = path_of(&rt, "disk")?;
    let told = (kept(&rt, path.as_str()), found_at(&rt, path.as_str()));
    fs::remove_file(&rt, path.as_str())?;
    let expected = Found {
        attached: Ok(()),
        length: Ok(4),
        read: Ok(()),
        bytes: *b"oor",
    };
    assert_eq!(rt; told, ([Ok(()); 6], expected));
    Ok(())
}

/// Whether a disk fails before a file is attached, past its end, where it failed before, and past the longest length, and else finds an
/// empty file.
fn fails_where_nothing_is(rt: &HostRuntime, path: &str) -> bool {
    let mut disk = FileDisk::new(SystemFile::new(rt));
    let unattached = disk.len().is_err();
    let attached = disk.attach(path);
    let empty = disk.len();
    let past = disk.read_at(0, &mut [0]);
    let failed = disk.sync();
    let again = disk.attach(path);
    let long = disk.write_at(MAX_LENGTH, b"x");
    let fault = Err(DiskFailed);
    unattached
        && empty == Ok(0)
        && [attached, past, failed, again, long] == [Ok(()), fault, fault, Ok(()), fault]
}

#[test]
fn a_disk_fails_where_nothing_is(rt: HostRuntime) -> Result<(), Fail> {
    let path = path_of(&rt, "none")?;
    let failed = fails_where_nothing_is(&rt, path.as_str());
    fs::remove_file(&rt, path.as_str())?;
    assert!(rt; failed);
    Ok(())
}
