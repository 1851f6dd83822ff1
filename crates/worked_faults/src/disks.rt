//! `solve` with a journal over disks that fail, that crash, that keep nothing, and over files that were made with care.

ghost use Rattle.std.specs.Prelude.{IsTrue};

use disk_calls::Disk;
use disk_model::WildDisk;
use edge_io::{MemSink, Memory};
use std::alloc::{AllocError, Global};
use std::test::Fail;
use worked_certificates::FULL;
use worked_devices::{TestDisk, disk_of, file_of, short_disk_of};
use worked_networks::ONE_DIRECT;
use worked_runs::{answered, ended_on, explained};

/// How many calls reach the file in a run on an empty file: three of an attach, sync, len, nine of a birth and four of an entry. One write of a
/// birth comes in two pieces.
const CALLS: u64 = 18;

/// How many bytes a call takes at the most there.
const PIECE: usize = 120;

/// The code of `solve net --journal j` and, behind a space, what it prints.
fn solved<D: Disk>(alloc: Global, disk: &mut D) -> Result<String, AllocError>
    requires { (name : _) → IsTrue ((D.told disk.old).admits name) }
{
    answered(alloc, "solve net --journal j", [ONE_DIRECT, ""], disk)
}

/// Whether a run over this disk prints the certificate.
fn goes_on<D: Disk>(alloc: Global, disk: &mut D) -> Result<bool, AllocError>
    requires { (name : _) → IsTrue ((D.told disk.old).admits name) }
{
    let told = solved(alloc, disk)?;
    Ok(told.as_str().strip_prefix("0 ") == Some(FULL))
}

/// Whether a run over a file of these bytes prints the certificate.
fn goes_on_over(alloc: Global, bytes: &[u8]) -> Result<bool, AllocError> {
    let mut disk = disk_of(alloc, &[bytes], 1_000)?;
    goes_on(alloc, &mut disk)
}

/// Whether a run over each image of each moment prints the certificate.
fn images_go_on(alloc: Global, disk: &TestDisk) -> Result<bool, Memory> {
    let file = file_of(disk);
    for moment in 0..=file.moment() {
        for choice in 0..8 {
            let image = file.image(moment, choice)?;
            if !goes_on_over(alloc, &image)? {
                return Ok(false);
            }
        }
    }
    Ok(true)
}

/// Whether a run over this disk is told that a call failed, a run over each image goes on, and so does the next run over it.
fn fails_and_goes_on(alloc: Global, disk: &mut TestDisk) -> Result<bool, Memory> {
    let failed = solved(alloc, disk)?.as_str() == "22 ";
    Ok(failed && images_go_on(alloc, disk)? && goes_on(alloc, disk)?)
}

/// The same where this call fails.
fn fails_with(alloc: Global, call: u64) -> Result<bool, Memory> {
    let mut disk = short_disk_of(alloc, &[], call, PIECE)?;
    fails_and_goes_on(alloc, &mut disk)
}

#[test]
fn each_call_that_fails_is_told_and_the_next_run_goes_on(rt: HostRuntime) -> Result<(), Fail> {
    for call in 0..CALLS {
        assert!(rt; fails_with(rt.alloc(), call)?, "of {call}");
    }
    Ok(())
}

/// Whether a run over this disk prints the certificate, and a run over each image goes on; and how many moments there are.
fn goes_on_from_each(alloc: Global, disk: &mut TestDisk) -> Result<(bool, u64), Memory> {
    let printed = goes_on(alloc, disk)?;
    Ok((
        printed && images_go_on(alloc, disk)?,
        file_of(disk).moment(),
    ))
}

fn crashed(alloc: Global) -> Result<(bool, u64), Memory> {
    let mut disk = short_disk_of(alloc, &[], CALLS, PIECE)?;
    goes_on_from_each(alloc, &mut disk)
}

/// The moments are four steps of a birth, one of them in two pieces, and two of an entry, a sync behind each, and the sync at the start.
#[test]
fn a_crash_at_any_moment_loses_nothing(rt: HostRuntime) -> Result<(), Fail> {
    assert_eq!(rt; crashed(rt.alloc())?, (true, 14));
    Ok(())
}

/// Of the numbers below 100, 82 alone gives a file whose first byte is 0, by a script: no journal has come to be there. The other
/// files are none.
#[test]
fn a_disk_that_reads_as_anything_is_refused_or_begun_anew(rt: HostRuntime) -> Result<(), Fail> {
    let alloc = rt.alloc();
    for number in 0..100 {
        let told = solved(alloc, &mut WildDisk::new(number))?;
        let (wanted, text) = if number == 82 {
            ("0 ", FULL)
        } else {
            ("33 ", "")
        };
        assert_eq!(rt;
            told.as_str().strip_prefix(wanted),
            Some(text),
            "of {number}"
        );
    }
    Ok(())
}

/// Files in which no journal has come to be: what a crash in a birth leaves, and what stands behind a first byte that a crash made up.
const UNBORN: [&[u8]; 6] = [
    b"",
    b"\x01",
    b"\x00",
    b"\x00forty bytes of any kind, behind one zero",
    b"\x00POOLJNL\x01\x00\x00\x00\xda{\"arcs\":",
    b"\x02POOLJNL",
];

/// The file that a run leaves over this disk; none where it doesn't print the certificate.
fn left(alloc: Global, disk: &mut TestDisk) -> Result<Vec<u8>, Memory> {
    if goes_on(alloc, disk)? {
        let file = file_of(disk);
        file.image(file.moment(), 0)
    } else {
        Ok(Vec::new(alloc))
    }
}

/// The file that a run leaves over a file of these bytes.
fn file_after(alloc: Global, bytes: &[u8]) -> Result<Vec<u8>, Memory> {
    let mut disk = disk_of(alloc, &[bytes], 1_000)?;
    left(alloc, &mut disk)
}

/// Whether a run leaves this file over one of these bytes.
fn leaves(alloc: Global, whole: &[u8], torn: &[u8]) -> Result<bool, Memory> {
    let file = file_after(alloc, torn)?;
    Ok(file.as_slice() == whole)
}

/// The first file among these in which no journal has come to be over which a run leaves another file than over an empty one.
fn left_otherwise(alloc: Global) -> Result<Option<&'static [u8]>, Memory> {
    let whole = file_after(alloc, b"")?;
    for torn in UNBORN {
        if whole.is_empty() || !leaves(alloc, &whole, torn)? {
            return Ok(Some(torn));
        }
    }
    Ok(None)
}

#[test]
fn a_torn_birth_is_begun_anew(rt: HostRuntime) -> Result<(), Fail> {
    assert_eq!(rt; left_otherwise(rt.alloc())?, None);
    Ok(())
}

/// How a run ends over this disk: how many bytes it printed, its code, and the message.
fn end_of(alloc: Global, disk: &mut TestDisk) -> Result<String, AllocError> {
    let mut sink = MemSink::new(alloc, Vec::new(alloc));
    let asked = "solve net --journal j";
    let status = ended_on(alloc, asked, [ONE_DIRECT, ""], &mut sink, disk)?;
    let message = explained(alloc, &status)?;
    format!(in alloc; "{} {message}", sink.taken().len())
}

/// How a run ends over a file of these parts.
fn told(alloc: Global, parts: &[&[u8]]) -> Result<String, AllocError> {
    let mut disk = disk_of(alloc, parts, 1_000)?;
    end_of(alloc, &mut disk)
}

/// How many of the file's first bytes come first, what stands behind them, from which place on the file's own follow, and how the run
/// ends. The finished file has its text's length at 9, its first gate at 231 and that record's length at 232, and 260 bytes.
const TAMPERED: &str = "\
232 long 236 = 0 31 pool: journal record 0 is bad
9 long 13 = 0 30 pool: journal of another network
8 none 260 = 0 32 pool: journal of unknown version 0
0 head 260 = 0 33 pool: not a journal
";

/// How a run ends over a file that was tampered with as a line of the table says.
fn told_of(alloc: Global, file: &[u8], tampered: &str) -> Result<String, Fail> {
    let (front, rest) = tampered.split_once(' ').ok_or("a front")?;
    let (other, rest) = rest.split_once(' ').ok_or("a rest")?;
    let other = match other {
        "long" => b"\xff\xff\xff\xff".as_slice(),
        "head" => b"\x01\x50",
        _ => b"",
    };
    let front = file.get(..front.parse()?).ok_or("a front")?;
    let rest = file.get(rest.parse()?..).ok_or("a rest")?;
    Ok(told(alloc, &[front, other, rest])?)
}

/// Each line of the table as a run over such a file ends.
fn answers(alloc: Global) -> Result<String, Fail> {
    let file = file_after(alloc, b"")?;
    let mut answers = String::new(alloc);
    for line in TAMPERED.lines() {
        let (tampered, _told) = line.split_once(" = ").ok_or("an answer")?;
        let told = told_of(alloc, &file, tampered)?;
        answers.push_str(format!(in alloc; "{tampered} = {told}")?.as_str())?;
    }
    Ok(answers)
}

#[test]
fn a_journal_that_was_tampered_with_is_refused(rt: HostRuntime) -> Result<(), Fail> {
    let answers = answers(rt.alloc())?;
    assert_eq!(rt; answers.as_str(), TAMPERED);
    Ok(())
}
