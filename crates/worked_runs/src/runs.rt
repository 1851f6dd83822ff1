//! What the tests of runs share: shelves, and runs of the words of a line.

ghost use Rattle.std.specs.Prelude.{IsTrue};

use disk_calls::Disk;
use edge_io::MemSink;
use pool_cli::{Status, run, write_message};
use shelf_calls::MemShelf;
use std::alloc::{AllocError, Global};
use worked_devices::empty_disk;

/// Words, parted at each space.
pub(crate) fn words_of(alloc: Global, line: &str) -> Result<Vec<String>, AllocError> {
    let mut words = Vec::new(alloc);
    for word in line.trim_end().split(' ') {
        words.push(String::from_str(alloc, word)?)?;
    }
    Ok(words)
}

/// How a run of the words of this line ends, over a shelf, a sink and a disk.
pub fn ended<D: Disk>(
    alloc: Global,
    line: &str,
    shelf: &mut MemShelf,
    sink: &mut MemSink,
    disk: &mut D,
) -> Result<Status, AllocError>
    requires { (name : _) → IsTrue ((D.told disk.old).admits name) }
{
    let words = words_of(alloc, line)?;
    Ok(run(alloc, &words, shelf, sink, disk))
}

/// A shelf with a network under `net` and a certificate under `cert`, whose call of the number `failing` fails.
pub fn shelf_of(alloc: Global, files: [&str; 2], failing: u64) -> Result<MemShelf, AllocError> {
    let mut held = Vec::new(alloc);
    for (name, text) in ["net", "cert"].iter().zip(files.iter()) {
        let name = String::from_str(alloc, name)?;
        held.push((name, Vec::from_slice(alloc, text.as_bytes())?))?;
    }
    Ok(MemShelf::new(held, vec![in alloc; failing]?))
}

/// How a run of the words of this line ends over a network and a certificate.
pub fn ended_on<D: Disk>(
    alloc: Global,
    line: &str,
    files: [&str; 2],
    sink: &mut MemSink,
    disk: &mut D,
) -> Result<Status, AllocError>
    requires { (name : _) → IsTrue ((D.told disk.old).admits name) }
{
    let mut shelf = shelf_of(alloc, files, u64::MAX)?;
    ended(alloc, line, &mut shelf, sink, disk)
}

/// The code of such a run and, behind a space, what it printed.
pub fn answered<D: Disk>(
    alloc: Global,
    line: &str,
    files: [&str; 2],
    disk: &mut D,
) -> Result<String, AllocError>
    requires { (name : _) → IsTrue ((D.told disk.old).admits name) }
{
    let mut sink = MemSink::new(alloc, Vec::new(alloc));
    let code = ended_on(alloc, line, files, &mut sink, disk)?.code();
    told(alloc, code, &sink)
}

/// The same over an empty disk.
pub fn answer(alloc: Global, line: &str, files: [&str; 2]) -> Result<String, AllocError> {
    let mut disk = empty_disk(alloc);
    answered(alloc, line, files, &mut disk)
}

/// A code and, behind a space, what stands in a sink.
pub fn told(alloc: Global, code: u8, sink: &MemSink) -> Result<String, AllocError> {
    let printed = str::from_utf8(sink.taken()).unwrap_or("no text");
    format!(in alloc; "{code} {printed}")
}

/// A code and, behind a space, the line on standard error, which is written as one piece: a second write would fail.
pub fn explained(alloc: Global, status: &Status) -> Result<String, AllocError> {
    let mut err = MemSink::new(alloc, vec![in alloc; 1]?);
    match write_message(status, &mut err) {
        Ok(()) => told(alloc, status.code(), &err),
        Err(_) => String::from_str(alloc, "no line"),
    }
}
