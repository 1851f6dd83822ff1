//! The whole program over its devices: the code, which numbers of files are in use, what is printed and the line on standard error.

use super::runs::{shelf_of, words_of};
use cli_words::WordsFault;
use edge_io::{CallFault, MemSink};
use file_numbers::MemNumbers;
use pool_edge::serve;
use std::alloc::{AllocError, Global};
use std::test::Fail;
use worked_certificates::FULL;
use worked_devices::empty_disk;
use worked_networks::ONE_DIRECT;

/// Words, `?` where they are no text, `!` where there was no memory for them; the first numbers of files, with `.` for one that is free; how
/// often the null device can be opened, with `m` where memory is why it can't be opened again. Behind the arrow the code, the numbers that
/// are in use then, what was printed, and behind the bar the line on standard error.
const SERVED: &str = "\
check net cert, 012, 3 -> 0 012345 accepted gap cost -300000000000000 base 1 bound -300000000000000 gap 0|
check net cert, 0.., 3 -> 0 0123 accepted gap cost -300000000000000 base 1 bound -300000000000000 gap 0|
check net cert, ...3, 3 -> 0 0123 accepted gap cost -300000000000000 base 1 bound -300000000000000 gap 0|
check net net, .1., 3 -> 1 0123 refused text 1|
check net none, ..., 3 -> 20 012 |pool: read fault
make, 0.2, 3 -> 2 01234 |pool: usage: solve NET, check NET CERT, report NET CERT, formulate NET, make N or trial N
check cert cert, 012, 3 -> 3 012345 |pool: network refused: 2
?, .12, 3 -> 2 01234 |pool: usage: solve NET, check NET CERT, report NET CERT, formulate NET, make N or trial N
!, 012, 3 -> 23 012345 |pool: out of memory
check net cert, ..., 2 -> 20 01. |pool: read fault
check net cert, ..., 2m -> 23 01. |pool: out of memory
make, 012, 0 -> 20 012 |pool: read fault
?, 01., 0m -> 23 01. |pool: out of memory
";

/// Words as a case has them.
fn words_in(alloc: Global, line: &str) -> Result<Result<Vec<String>, WordsFault>, AllocError> {
    Ok(match line {
        "?" => Err(WordsFault::Usage),
        "!" => Err(WordsFault::Memory),
        line => Ok(words_of(alloc, line)?),
    })
}

/// The numbers of files of a case: the first ones, and how often the null device can be opened.
fn numbers_in(alloc: Global, first: &str, room: &str) -> Result<MemNumbers, Fail> {
    let mut used = Vec::new(alloc);
    for byte in first.bytes() {
        used.push(byte != b'.')?;
    }
    let (room, fault) = match room.strip_suffix("m") {
        Some(room) => (room, CallFault::Memory),
        None => (room, CallFault::Failed),
    };
    Ok(MemNumbers::new(used, room.parse()?, fault))
}

/// The numbers that are in use, below ten, with `.` for one that is free.
fn shown(alloc: Global, used: &[bool]) -> Result<String, AllocError> {
    let mut digits = String::new(alloc);
    for (is_used, digit) in used.iter().zip("0123456789".chars()) {
        digits.push(if *is_used { digit } else { '.' })?;
    }
    Ok(digits)
}

/// The text of a sink, without the end of its line.
fn line_in(sink: &MemSink) -> &str {
    str::from_utf8(sink.taken()).unwrap_or("no text").trim_end()
}

/// What comes of words over these numbers of files.
fn served(alloc: Global, line: &str, numbers: &mut MemNumbers) -> Result<String, AllocError> {
    let words = words_in(alloc, line)?;
    let mut shelf = shelf_of(alloc, [ONE_DIRECT, FULL], u64::MAX)?;
    let mut disk = empty_disk(alloc);
    let mut out = MemSink::new(alloc, Vec::new(alloc));
    let mut err = MemSink::new(alloc, Vec::new(alloc));
    let code = serve(
        alloc, words, numbers, &mut shelf, &mut disk, &mut out, &mut err,
    );
    let used = shown(alloc, numbers.used())?;
    format!(in alloc; "{code:?} {used} {}|{}", line_in(&out), line_in(&err))
}

#[test]
fn a_run_ends_with_its_code_and_its_line(rt: HostRuntime) -> Result<(), Fail> {
    let alloc = rt.alloc();
    for case in SERVED.lines() {
        let (given, told) = case.split_once(" -> ").ok_or("an arrow")?;
        let (line, rest) = given.split_once(", ").ok_or("words")?;
        let (first, room) = rest.split_once(", ").ok_or("numbers")?;
        let (code, rest) = told.split_once(' ').ok_or("a code")?;
        let told = format!(in alloc; "ExitCode(unix_exit_status({code})) {rest}")?;
        let mut numbers = numbers_in(alloc, first, room)?;
        assert_eq!(rt;
            served(alloc, line, &mut numbers)?.as_str(),
            told.as_str(),
            "of {given}"
        );
    }
    Ok(())
}
