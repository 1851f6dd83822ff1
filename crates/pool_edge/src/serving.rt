//! The whole program: words and devices in, the code of the process out.

ghost use Rattle.std.specs.Prelude.{◌≡◌, List, ℕ, IsTrue, map, string_bytes};
ghost use Rattle.std.specs.Process.{exit_status};
ghost use Rattle.edge_io.specs.Counts.{Rose};
ghost use Rattle.run_status.specs.Messages.{code_of, message_of};
ghost use Rattle.run_status.specs.Took.{IsCutShort};
ghost use Rattle.pool_cli.specs.Ends.{words_status};
ghost use Rattle.pool_edge.specs.Served.{AdmitsOnce, Answers, devices, IsHeld, IsRun, IsServed, IsTold, Ran};

use cli_words::WordsFault;
use disk_calls::Disk;
use edge_io::{CallFault, Sink};
use file_numbers::{NumberCalls, hold_streams};
use pool_cli::{Status, run, write_message};
use shelf_calls::Shelf;
use std::alloc::Global;
use std::process::ExitCode;

/// Runs the program on the words behind its name, or for the reason why there are none: holds the standard streams, runs the words,
/// writes the line of the status on `err`, and answers the code that the process ends with.
///
/// Where the null device can't be opened nothing is done, and the code is 20, or 23 for want of memory.
pub fn serve<N: NumberCalls, S: Shelf, D: Disk, K: Sink, E: Sink>(
    alloc: Global,
    words: Result<Vec<String>, WordsFault>,
    numbers: &mut N,
    shelf: &mut S,
    disk: &mut D,
    out: &mut K,
    err: &mut E,
) -> ExitCode
    // Promise: A file is asked for only once each of the numbers 0, 1 and 2 is in use
    requires shelf { AdmitsOnce (IsHeld N.tells N.used) (S.told shelf.old).admits }
    // Promise: A file is asked for only once each of the numbers 0, 1 and 2 is in use
    requires disk { AdmitsOnce (IsHeld N.tells N.used) (D.told disk.old).admits }
    // Promise: The process ends with the code of the status that the run answers; standard error takes the line of that status, or where it
    //   fails a front of it, and standard output what the run printed, and nothing else
    ensures served { IsServed
        (Answers D.told (IsHeld N.tells N.used numbers.new) (IsTrue N.tells → Rose (N.faults numbers.old) (N.faults numbers.new)) words
        (devices (S.told shelf.old) disk.old (K.taken out.old) (K.faults out.old))
        (devices (S.told shelf.new) disk.new (K.taken out.new) (K.faults out.new)))
        (exit_status result)
        (λ line. IsTold line (E.taken err.old) (E.taken err.new) (E.faults err.old) (E.faults err.new)) }
{
    let status = answer(alloc, words, numbers, shelf, disk, out);
    end_with(&status, err)
}

/// Holds the standard streams and runs the words.
fn answer<N: NumberCalls, S: Shelf, D: Disk, K: Sink>(
    alloc: Global,
    words: Result<Vec<String>, WordsFault>,
    numbers: &mut N,
    shelf: &mut S,
    disk: &mut D,
    out: &mut K,
) -> Status
    requires shelf { AdmitsOnce (IsHeld N.tells N.used) (S.told shelf.old).admits }
    requires disk { AdmitsOnce (IsHeld N.tells N.used) (D.told disk.old).admits }
    ensures { Answers D.told (IsHeld N.tells N.used numbers.new) (IsTrue N.tells → Rose (N.faults numbers.old) (N.faults numbers.new)) words
        (devices (S.told shelf.old) disk.old (K.taken out.old) (K.faults out.old))
        (devices (S.told shelf.new) disk.new (K.taken out.new) (K.faults out.new)) result }
{
    match hold_streams(numbers) {
        Ok(()) => run_held(alloc, words, numbers, shelf, disk, out),
        Err(fault) => unheld(fault),
    }
}

/// The status of a run that could not hold the standard streams.
fn unheld(fault: CallFault) -> Status
    ensures { IsCutShort result }
{
    match fault {
        CallFault::Memory => Status::OutOfMemory,
        _ => Status::ReadFault,
    }
}

/// Runs the words, once the standard streams are held, or says why there are none. The numbers are there for that condition alone.
fn run_held<N: NumberCalls, S: Shelf, D: Disk, K: Sink>(
    alloc: Global,
    words: Result<Vec<String>, WordsFault>,
    numbers: &N,
    shelf: &mut S,
    disk: &mut D,
    out: &mut K,
) -> Status
    requires held { IsHeld N.tells N.used numbers.now }
    requires shelf { AdmitsOnce (IsHeld N.tells N.used) (S.told shelf.old).admits }
    requires disk { AdmitsOnce (IsHeld N.tells N.used) (D.told disk.old).admits }
    ensures { Ran D.told words
        (devices (S.told shelf.old) disk.old (K.taken out.old) (K.faults out.old))
        (devices (S.told shelf.new) disk.new (K.taken out.new) (K.faults out.new)) result }
{
    match words {
        Ok(words) => run_words(alloc, &words, shelf, disk, out),
        Err(fault) => status_of(fault),
    }
}

/// Runs words: the clauses of `run`, as one.
fn run_words<S: Shelf, D: Disk, K: Sink>(
    alloc: Global,
    words: &[String],
    shelf: &mut S,
    disk: &mut D,
    out: &mut K,
) -> Status
    requires shelf { (name : List ℕ) → IsTrue ((S.told shelf.old).admits name) }
    requires disk { (name : List ℕ) → IsTrue ((D.told disk.old).admits name) }
    ensures { IsRun D.told (map string_bytes words.now)
        (devices (S.told shelf.old) disk.old (K.taken out.old) (K.faults out.old))
        (devices (S.told shelf.new) disk.new (K.taken out.new) (K.faults out.new)) result }
{
    run(alloc, words, shelf, out, disk)
}

/// The status of words that could not be read.
fn status_of(fault: WordsFault) -> Status
    ensures { result ≡ words_status fault }
{
    match fault {
        WordsFault::Usage => Status::Usage,
        WordsFault::Memory => Status::OutOfMemory,
    }
}

/// Writes the line of a status, and gives its code: whatever standard error takes, the status stands. The buffer of the line would else lie
/// on the stack throughout.
#[inline(never)]
fn end_with<E: Sink>(status: &Status, err: &mut E) -> ExitCode
    ensures code { exit_status result ≡ code_of status.now }
    ensures line { IsTold (message_of status.now) (E.taken err.old) (E.taken err.new) (E.faults err.old) (E.faults err.new) }
{
    let _ = write_message(status, err);
    ExitCode::from(status.code())
}
