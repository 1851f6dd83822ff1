//! Jobs and answers as texts: what is read of a text is written as that text, and what is no text is refused at its first faulty line.

use edge_io::{MemSink, Memory};
use job_texts::{ReadFault, read_answers, read_jobs, write_answers, write_jobs};
use std::alloc::Global;
use std::test::Fail;

/// Two jobs, on the leaves of a tree with one split.
pub(crate) const JOBS: &str =
    "pooljobs 1\nshape 2 1 1 1 2 1 0\nsplits 1\nsplit 0 0 524288\njobs 2\njob 0 2\njob 1 1\nend\n";

/// What it says.
const READ_JOBS: &str =
    "JobsText { shape: [2, 1, 1, 1, 2, 1, 0], splits: [Split { leaf: 0, coord: 0, cut: 524288 }], jobs: [Job { number: 0, node: 2 }, Job { number: 1, node: 1 }] }";

/// An answer without proofs, and one with two of them, the second without a part.
const ANSWERS: &str =
    "poolwork 1\nanswers 2\nanswer 0 0 0 524288\nleft none\nright none\nanswer 1 2 3 -7\nleft 18446744073709551615 2 11 1 0 -9223372036854775808\nright 0 0\nend\n";

/// What it says.
const READ_ANSWERS: &str =
    "[Answer { number: 0, entry: SplitOf(Split { leaf: 0, coord: 0, cut: 524288 }, None, None) }, Answer { number: 1, entry: SplitOf(Split { leaf: 2, coord: 3, cut: -7 }, Some(Proof { scale: 18446744073709551615, parts: [Part { row: 11, mult: 1 }, Part { row: 0, mult: -9223372036854775808 }] }), Some(Proof { scale: 0, parts: [] })) }]";

#[test]
fn jobs_are_read_and_written(rt: HostRuntime) -> Result<(), Fail> {
    let alloc = rt.alloc();
    let jobs = read_jobs(alloc, JOBS.as_bytes()).ok().ok_or("jobs")?;
    let told = format!(in alloc; "{jobs:?}")?;
    assert_eq!(rt; told.as_str(), READ_JOBS);
    let mut sink = MemSink::new(alloc, Vec::new(alloc));
    write_jobs(&jobs, &mut sink)
        .ok()
        .ok_or("a sink that takes all")?;
    assert_eq!(rt; sink.taken(), JOBS.as_bytes());
    Ok(())
}

#[test]
fn answers_are_read_and_written(rt: HostRuntime) -> Result<(), Fail> {
    let alloc = rt.alloc();
    let answers = read_answers(alloc, ANSWERS.as_bytes())
        .ok()
        .ok_or("answers")?;
    let told = format!(in alloc; "{answers:?}")?;
    assert_eq!(rt; told.as_str(), READ_ANSWERS);
    let mut sink = MemSink::new(alloc, Vec::new(alloc));
    write_answers(answers.as_slice(), &mut sink)
        .ok()
        .ok_or("a sink that takes all")?;
    assert_eq!(rt; sink.taken(), ANSWERS.as_bytes());
    Ok(())
}

/// Changes of `JOBS`, and the line at which what they make is refused.
const FAULTY_JOBS: &str = "\
pooljobs 1 to poolwork 1 = 1
shape 2 1 to shape 2 -1 = 2
2 1 0 to 2 1 = 2
splits 1 to splits 0 = 4
splits 1 to splits 2 = 5
524288 to 0524288 = 4
jobs 2 to jobs 02 = 5
jobs 2 to jobs 1 = 7
job 0 2 to job 0 4294967296 = 6
job 1 1 to job 1 1 0 = 7
end to ends = 8
";

/// Changes of `ANSWERS`, and the line at which what they make is refused.
const FAULTY_ANSWERS: &str = "\
poolwork 1 to pooljobs 1 = 1
answers 2 to answers 1 = 6
answers 2 to answers 3 = 9
524288 to +524288 = 3
left none to left none 0 = 4
left none to left nonsense = 4
left none to left 0 = 4
left none to left = 4
right none to left none = 5
18446744073709551615 to 18446744073709551616 = 7
15 2 11 to 15 1 11 = 7
15 2 11 to 15 3 11 = 7
right 0 0 to right 0 0 0 = 8
end to end end = 9
";

/// For each change of a text the line at which what it makes is refused, as it stands there, and 0 where it is read.
fn refused(alloc: Global, text: &str, changes: &str, are_jobs: bool) -> Result<String, Fail> {
    let mut told = String::new(alloc);
    for line in changes.lines() {
        let (change, _) = line.split_once(" = ").ok_or("an answer")?;
        let (old, new) = change.split_once(" to ").ok_or("a change")?;
        let changed = text.replace(alloc, old, new)?;
        let answer = fault_of(alloc, changed.as_bytes(), are_jobs)?;
        told.push_str(format!(in alloc; "{change} = {answer}\n")?.as_str())?;
    }
    Ok(told)
}

/// The line at which the bytes are refused as jobs, or as answers, and 0 where they are read.
fn fault_of(alloc: Global, bytes: &[u8], are_jobs: bool) -> Result<u64, Memory> {
    if are_jobs {
        match read_jobs(alloc, bytes) {
            Ok(_) => Ok(0),
            Err(fault) => line_of(fault),
        }
    } else {
        match read_answers(alloc, bytes) {
            Ok(_) => Ok(0),
            Err(fault) => line_of(fault),
        }
    }
}

/// The line of a fault.
fn line_of(fault: ReadFault) -> Result<u64, Memory> {
    match fault {
        ReadFault::Line(line) => Ok(line),
        ReadFault::Memory => Err(Memory),
    }
}

#[test]
fn faulty_lines_are_told(rt: HostRuntime) -> Result<(), Fail> {
    let alloc = rt.alloc();
    let told = refused(alloc, JOBS, FAULTY_JOBS, true)?;
    assert_eq!(rt; told.as_str(), FAULTY_JOBS);
    let told = refused(alloc, ANSWERS, FAULTY_ANSWERS, false)?;
    assert_eq!(rt; told.as_str(), FAULTY_ANSWERS);
    Ok(())
}

/// An empty text has no line, so its rest is number 1. What is cut off before the last line feed, or goes on behind it, is refused at the
/// number of the rest.
#[test]
fn rests_are_told(rt: HostRuntime) -> Result<(), Fail> {
    let alloc = rt.alloc();
    let told = [
        fault_of(alloc, b"", true)?,
        fault_of(alloc, b"", false)?,
        fault_of(
            alloc,
            b"pooljobs 1\nshape 0 0 0 0 0 0 0\nsplits 0\njobs 0\nend\n",
            true,
        )?,
        fault_of(
            alloc,
            b"pooljobs 1\nshape 0 0 0 0 0 0 0\nsplits 0\njobs 0\nend",
            true,
        )?,
        fault_of(
            alloc,
            b"pooljobs 1\nshape 0 0 0 0 0 0 0\nsplits 0\njobs 0\nend\n\n",
            true,
        )?,
        fault_of(alloc, b"poolwork 1\nanswers 0\nend\n", false)?,
        fault_of(alloc, b"poolwork 1\nanswers 0\nend", false)?,
        fault_of(alloc, b"poolwork 1\nanswers 0\nend\nend\n", false)?,
    ];
    assert_eq!(rt; told, [1, 1, 0, 5, 6, 0, 3, 4]);
    Ok(())
}
