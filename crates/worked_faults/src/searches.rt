//! Searches with a journal that are stopped in each call of the disk: what every image holds, and how a run goes on from it.

use box_tree::Entry;
use disk_calls::Disk;
use edge_io::Memory;
use node_journal::{Journal, JournalFault};
use std::alloc::{AllocError, Global};
use std::test::Fail;
use worked_devices::{TestDisk, disk_of, file_of};
use worked_networks::HAVERLY_1;
use worked_runs::answered;

/// The canonical text of the network, from a script in Python that was written from the page on formats.
const TEXT: &[u8] =
    b"{\"arcs\":[[\"A\",\"P\"],[\"B\",\"P\"],[\"P\",\"X\"],[\"P\",\"Y\"],[\"C\",\"X\"],[\"C\",\"Y\"]],\"pools\":[{\"max\":300,\"name\":\"P\"}],\
    \"products\":[{\"least\":{},\"max\":100,\"min\":0,\"most\":{\"sulfur\":\"2.5\"},\"name\":\"X\",\"price\":9},{\"least\":{},\"max\":200,\"min\":0,\
    \"most\":{\"sulfur\":\"1.5\"},\"name\":\"Y\",\"price\":15}],\"qualities\":[\"sulfur\"],\"sources\":[{\"cost\":6,\"max\":300,\"name\":\"A\",\
    \"quality\":{\"sulfur\":3}},{\"cost\":16,\"max\":300,\"name\":\"B\",\"quality\":{\"sulfur\":1}},{\"cost\":10,\"max\":300,\"name\":\"C\",\
    \"quality\":{\"sulfur\":2}}],\"version\":1}";

/// The number of a call that no run comes to.
const NEVER: u64 = 1_000;

/// The code of a run of these words over the disk and, behind a space, what it prints.
fn solved(alloc: Global, asked: &str, disk: &mut TestDisk) -> Result<String, AllocError> {
    answered(alloc, asked, [HAVERLY_1, ""], disk)
}

/// The entries of the journal that the disk's file is, a line each.
fn entries_on(alloc: Global, disk: &mut TestDisk) -> Result<String, JournalFault> {
    disk.attach("journal")?;
    let opened = Journal::open(alloc, disk, TEXT, 2_000)?;
    Ok(lines_of(alloc, &opened.entries)?)
}

/// Entries, a line each.
fn lines_of(alloc: Global, entries: &[Entry]) -> Result<String, AllocError> {
    let mut lines = String::new(alloc);
    for entry in entries {
        lines.push_str(&format!(in alloc; "{entry:?}\n")?)?;
    }
    Ok(lines)
}

/// The entries of the journal that a file is.
fn entries_of(alloc: Global, file: &[u8]) -> Result<String, JournalFault> {
    let mut disk = disk_of(alloc, &[file], NEVER)?;
    entries_on(alloc, &mut disk)
}

/// A run that is not stopped: what it answers, and the entries of its journal.
#[derive(Drop)]
struct Unbroken {
    answer: String,
    entries: String,
}

/// What a run answers over a file of these bytes, and the file that it leaves.
fn run_over(alloc: Global, asked: &str, file: &[u8]) -> Result<(String, Vec<u8>), Memory> {
    let mut disk = disk_of(alloc, &[file], NEVER)?;
    let answer = solved(alloc, asked, &mut disk)?;
    Ok((answer, last_image(&disk, 0)?))
}

/// An image of the last moment of a disk.
fn last_image(disk: &TestDisk, choice: u64) -> Result<Vec<u8>, Memory> {
    let file = file_of(disk);
    file.image(file.moment(), choice)
}

fn whole_run(alloc: Global, asked: &str) -> Result<Unbroken, Fail> {
    let (answer, file) = run_over(alloc, asked, b"")?;
    let entries = entries_of(alloc, &file)?;
    Ok(Unbroken { answer, entries })
}

/// Whether a file holds the first entries of the unbroken run, `least` of them or one more.
fn holds(alloc: Global, whole: &Unbroken, file: &[u8], least: usize) -> Result<bool, JournalFault> {
    let found = entries_of(alloc, file)?;
    let more = found.lines().count().wrapping_sub(least);
    Ok(whole.entries.as_str().starts_with(found.as_str()) && more <= 1)
}

/// Whether a run over a file of these bytes answers as the unbroken one.
fn answers_alike(
    alloc: Global,
    asked: &str,
    whole: &Unbroken,
    file: &[u8],
) -> Result<bool, AllocError> {
    let mut disk = disk_of(alloc, &[file], NEVER)?;
    let answer = solved(alloc, asked, &mut disk)?;
    Ok(answer.as_str() == whole.answer.as_str())
}

/// How many images there are of the last moment: a write of so many bytes behind the file lands in twice as many ways and four, and
/// one of a single byte in six.
fn images(disk: &TestDisk) -> Result<u64, Memory> {
    let synced = last_image(disk, 0)?.len() as u64;
    let written = last_image(disk, 1)?.len() as u64;
    Ok(
        written
            .saturating_sub(synced)
            .saturating_mul(2)
            .saturating_add(6),
    )
}

/// Whether every image of the last moment goes on.
fn images_go_on(
    alloc: Global,
    asked: &str,
    whole: &Unbroken,
    disk: &TestDisk,
    least: usize,
) -> Result<bool, Fail> {
    for choice in 0..images(disk)? {
        let image = last_image(disk, choice)?;
        if !holds(alloc, whole, &image, least)? || !answers_alike(alloc, asked, whole, &image)? {
            return Ok(false);
        }
    }
    Ok(true)
}

/// Whether a run over this disk is told that a call failed.
fn is_stopped(alloc: Global, asked: &str, disk: &mut TestDisk) -> Result<bool, AllocError> {
    let told = solved(alloc, asked, disk)?;
    Ok(told.as_str() == "22 ")
}

/// Whether a run that fails in this call prints nothing, and every image goes on. Thirteen calls come before the first entry, and each
/// entry takes four.
fn goes_on_after(alloc: Global, asked: &str, whole: &Unbroken, call: u64) -> Result<bool, Fail> {
    let mut disk = disk_of(alloc, &[], call)?;
    let stopped = is_stopped(alloc, asked, &mut disk)?;
    let least = (call.saturating_sub(13) / 4) as usize;
    Ok(stopped && images_go_on(alloc, asked, whole, &disk, least)?)
}

/// Whether it is so of each call.
fn goes_on_from_each(alloc: Global, asked: &str, calls: u64) -> Result<bool, Fail> {
    let whole = whole_run(alloc, asked)?;
    for call in 0..calls {
        if !goes_on_after(alloc, asked, &whole, call)? {
            return Ok(false);
        }
    }
    Ok(true)
}

#[test]
fn a_search_goes_on_from_every_image_of_every_call(rt: HostRuntime) -> Result<(), Fail> {
    let asked = "solve net --nodes 3 --gap 0 --journal j";
    assert!(rt; goes_on_from_each(rt.alloc(), asked, 29)?);
    Ok(())
}
