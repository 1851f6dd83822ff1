//! Shelves in memory: whole files, pieces of an opened file, and calls that fail.

ghost use Rattle.std.specs.Prelude.{IsTrue};

use shelf_calls::{MemShelf, Shelf, SliceShelf};
use std::alloc::{AllocError, Global};
use std::test::Fail;

/// A shelf of three files, two of which have one name. The call of this number fails.
fn shelf_of(alloc: Global, failing: u64) -> Result<MemShelf, AllocError> {
    let mut files = Vec::new(alloc);
    for (name, text) in [("a", "one two"), ("b", "three"), ("a", "four")] {
        let name = String::from_str(alloc, name)?;
        files.push((name, Vec::from_slice(alloc, text.as_bytes())?))?;
    }
    Ok(MemShelf::new(files, [failing].to_vec(alloc)?))
}

/// What a shelf answers on a read of a whole file of so many bytes at the most, as a line.
pub(crate) fn whole<S: Shelf>(
    alloc: Global,
    shelf: &mut S,
    name: &str,
    most: usize,
) -> Result<String, AllocError>
    requires { IsTrue ((S.told shelf.old).admits name.now) }
{
    let answer = shelf.read_all(alloc, name, most);
    format!(in alloc; "{answer:?}\n")
}

/// The same of several reads of a shelf in memory.
fn reads(
    alloc: Global,
    shelf: &mut MemShelf,
    asked: &[(&str, usize)],
) -> Result<String, AllocError> {
    let mut told = String::new(alloc);
    for (name, most) in asked {
        told.push_str(whole(alloc, shelf, name, *most)?.as_str())?;
    }
    Ok(told)
}

/// What a shelf answers on six reads, of which the fifth fails.
fn six_reads(alloc: Global) -> Result<String, AllocError> {
    let mut shelf = shelf_of(alloc, 4)?;
    let asked = [("a", 7), ("b", 9), ("a", 6), ("c", 9), ("b", 9), ("b", 5)];
    reads(alloc, &mut shelf, &asked)
}

#[test]
fn the_first_file_of_a_name_is_read(rt: HostRuntime) -> Result<(), Fail> {
    let told = six_reads(rt.alloc())?;
    let expected = "Ok([111, 110, 101, 32, 116, 119, 111])
Ok([116, 104, 114, 101, 101])
Err(TooLong)
Err(Failed)
Err(Failed)
Ok([116, 104, 114, 101, 101])
";
    assert_eq!(rt; told.as_str(), expected);
    Ok(())
}

/// What a shelf answers on calls, a line each: on a name whether that file opens, and on `-` the next piece, in a room of four dots.
fn pieces(alloc: Global, shelf: &mut MemShelf, calls: &str) -> Result<String, AllocError> {
    let mut told = String::new(alloc);
    for call in calls.split(' ') {
        let line = if call == "-" {
            let mut room = [b'.'; 4];
            let answer = shelf.read_some(&mut room);
            format!(in alloc;
                "{answer:?} {}\n",
                str::from_utf8(&room).unwrap_or("no text")
            )?
        } else {
            format!(in alloc; "{:?}\n", shelf.open_read(alloc, call))?
        };
        told.push_str(line.as_str())?;
    }
    Ok(told)
}

/// The number of the call that fails, how many bytes a piece has at the most, and the calls with what they answer. The calls of all kinds
/// are numbered together, a failure leaves the rest as it was, and a file is opened from its start.
const PIECES: [(u64, usize, &str, &str); 3] = [
    (
        9,
        3,
        "- a - - - -",
        "Ok(0) ....\nOk(())\nOk(3) one.\nOk(3)  tw.\nOk(1) o...\nOk(0) ....\n",
    ),
    (
        2,
        9,
        "a - - - -",
        "Ok(())\nOk(4) one \nErr(ReadFailed) ....\nOk(3) two.\nOk(0) ....\n",
    ),
    (
        9,
        9,
        "a - c b - -",
        "Ok(())\nOk(4) one \nErr(Failed)\nOk(())\nOk(4) thre\nOk(1) e...\n",
    ),
];

/// What a shelf whose pieces have so many bytes answers on calls.
fn told(alloc: Global, failing: u64, piece: usize, calls: &str) -> Result<String, AllocError> {
    let mut shelf = shelf_of(alloc, failing)?;
    shelf.pieces(piece.max(1));
    pieces(alloc, &mut shelf, calls)
}

#[test]
fn a_file_is_handed_out_in_pieces(rt: HostRuntime) -> Result<(), Fail> {
    for (failing, piece, calls, expected) in PIECES {
        let told = told(rt.alloc(), failing, piece, calls)?;
        assert_eq!(rt; told.as_str(), expected, "of {calls}");
    }
    Ok(())
}

/// What is left of the opened file, read piece by piece into so many bytes of room. None where a read fails, or memory runs out.
fn rest_of<S: Shelf>(alloc: Global, shelf: &mut S, room: usize) -> Option<Vec<u8>> {
    let mut rest = Vec::new(alloc);
    let mut piece = vec![in alloc; 0; room].ok()?;
    for _ in 0..100 {
        let count = shelf.read_some(&mut piece).ok()?;
        if count == 0 {
            break;
        }
        rest.extend_from_slice(piece.get(..count)?).ok()?;
    }
    Some(rest)
}

/// Whether these bytes are left of the opened file, read so.
pub(crate) fn has_left<S: Shelf>(alloc: Global, shelf: &mut S, room: usize, bytes: &[u8]) -> bool {
    match rest_of(alloc, shelf, room) {
        Some(rest) => rest.as_slice() == bytes,
        None => false,
    }
}

/// Whether the file under a name opens, and has these bytes.
pub(crate) fn hands_out<S: Shelf>(
    alloc: Global,
    shelf: &mut S,
    name: &str,
    room: usize,
    bytes: &[u8],
) -> bool
    requires { IsTrue ((S.told shelf.old).admits name.now) }
{
    shelf.open_read(alloc, name).is_ok() && has_left(alloc, shelf, room, bytes)
}

/// The first bytes of a slice, read as a piece; what it answers when it is opened again and read whole; and whether all of it is left then.
fn opened_again(alloc: Global) -> Result<String, AllocError> {
    let mut shelf = SliceShelf::new(b"one two");
    let mut room = [b'.'; 4];
    let first = shelf.read_some(&mut room);
    let opened = shelf.open_read(alloc, "");
    let told = whole(alloc, &mut shelf, "", 7)?;
    let left = has_left(alloc, &mut shelf, 9, b"one two");
    format!(in alloc; "{first:?} {room:?} {opened:?} {left} {told}")
}

#[test]
fn a_slice_is_opened_again(rt: HostRuntime) -> Result<(), Fail> {
    let told = opened_again(rt.alloc())?;
    let expected = "Ok(4) [111, 110, 101, 32] Ok(()) true Ok([111, 110, 101, 32, 116, 119, 111])\n";
    assert_eq!(rt; told.as_str(), expected);
    Ok(())
}
