//! Runs that share a disk, one after another. Under `rt try --test --fail-alloc N` the N-th request for memory of each test is refused;
//! `tests/refused_memory.py` says more. Where none is refused every run has to end as the first.

use super::sinks::LINE;
use edge_io::MemSink;
use std::alloc::{AllocError, Global};
use worked_certificates::{FULL, TREE};
use worked_devices::{TestDisk, empty_disk};
use worked_networks::{HAVERLY_1, ONE_DIRECT, TWO_FEEDS};
use worked_runs::ended_on;

/// The line on `TREE`.
const TREE_LINE: &str = "accepted gap cost 0 base 1 bound -300000000000000 gap 300000000000000\n";

/// The code of these words over a network and a certificate.
fn code_of(
    alloc: Global,
    asked: &str,
    files: [&str; 2],
    sink: &mut MemSink,
    disk: &mut TestDisk,
) -> Result<u8, AllocError> {
    Ok(ended_on(alloc, asked, files, sink, disk)?.code())
}

/// Whether a fault of this code may leave this in the sink, where the whole text is to be written.
fn is_told(code: u8, taken: &[u8], text: &[u8]) -> bool {
    match code {
        // The sink found no memory to grow.
        21 => text.starts_with(taken),
        // Neither did the disk, or the program.
        22 | 23 => taken.is_empty(),
        _ => false,
    }
}

/// Whether a run of these words over this disk prints the text and ends with 0; None where it ends as it may not.
fn prints(
    alloc: Global,
    asked: &str,
    files: [&str; 2],
    text: &str,
    disk: &mut TestDisk,
) -> Option<bool> {
    let mut sink = MemSink::new(alloc, Vec::new(alloc));
    match code_of(alloc, asked, files, &mut sink, disk) {
        Ok(0) if sink.taken() == text.as_bytes() => Some(true),
        Ok(code) if !is_told(code, sink.taken(), text.as_bytes()) => None,
        _ => Some(false),
    }
}

/// How many of three runs of these words over one disk do not print the text and end with 0; None where one ends as it may not.
fn refused(alloc: Global, asked: &str, files: [&str; 2], text: &str) -> Option<u32> {
    let mut disk = empty_disk(alloc);
    refused_on(alloc, asked, files, text, &mut disk)
}

fn refused_on(
    alloc: Global,
    asked: &str,
    files: [&str; 2],
    text: &str,
    disk: &mut TestDisk,
) -> Option<u32> {
    let mut refused: u32 = 0;
    for _ in 0..3 {
        if !prints(alloc, asked, files, text, disk)? {
            refused = refused.saturating_add(1);
        }
    }
    Some(refused)
}

#[test]
fn a_refused_request_is_told_and_the_next_run_goes_on(rt: HostRuntime) {
    let (solve, check) = ("solve net", "check net cert");
    let journaled = "solve net --journal j";
    for (asked, files, text) in [
        (solve, [ONE_DIRECT, ""], FULL),
        (check, [ONE_DIRECT, FULL], LINE),
        (check, [TWO_FEEDS, TREE], TREE_LINE),
        (journaled, [ONE_DIRECT, ""], FULL),
    ] {
        let refused = refused(rt.alloc(), asked, files, text);
        assert!(rt; refused.is_some_and(|count| count <= 1), "of {asked}");
    }
}

/// Whether the check accepts a certificate of the network; true where it finds no memory.
fn is_accepted(alloc: Global, network: &str, certificate: &str) -> bool {
    let mut line = MemSink::new(alloc, Vec::new(alloc));
    let mut disk = empty_disk(alloc);
    let files = [network, certificate];
    match code_of(alloc, "check net cert", files, &mut line, &mut disk) {
        Ok(code) => code == 0 || is_told(code, line.taken(), line.taken()),
        Err(_) => true,
    }
}

/// Whether a search over this disk prints an accepted certificate; None where it ends as it may not.
fn goes_on(alloc: Global, disk: &mut TestDisk) -> Option<bool> {
    let asked = "solve net --journal j --nodes 3";
    let mut sink = MemSink::new(alloc, Vec::new(alloc));
    match code_of(alloc, asked, [HAVERLY_1, ""], &mut sink, disk) {
        Ok(0) => {
            let text = str::from_utf8(sink.taken()).ok()?;
            is_accepted(alloc, HAVERLY_1, text).then_some(true)
        }
        Ok(21) | Err(_) => Some(false),
        Ok(code) => is_told(code, sink.taken(), b"").then_some(false),
    }
}

/// Three runs over one disk.
fn three_runs(alloc: Global) -> [Option<bool>; 3] {
    let mut disk = empty_disk(alloc);
    [
        goes_on(alloc, &mut disk),
        goes_on(alloc, &mut disk),
        goes_on(alloc, &mut disk),
    ]
}

/// The second run over a disk goes on from what the first recorded, and the third has nothing left to do.
#[test]
fn a_search_goes_on_where_memory_was_refused(rt: HostRuntime) {
    let runs = three_runs(rt.alloc());
    let refused = runs.iter().filter(|run| **run != Some(true)).count();
    assert!(rt;
        runs.iter().all(Option::is_some) && refused <= 1,
        "{runs:?}"
    );
}
