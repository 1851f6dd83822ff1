//! The top call: words and files in, a certificate or the answer on one, and a status out.

ghost use Rattle.std.specs.Prelude.{◌≡◌, ◌⊎◌, Some, IsTrue, map, string_bytes};
ghost use Rattle.edge_io.specs.Counts.{Rose};
ghost use Rattle.cli_words.specs.Asks.{Asks};
ghost use Rattle.cli_words.specs.Requests.{Asked};
ghost use Rattle.cli_words.specs.Views.{shown_request};
ghost use Rattle.run_status.specs.Reads.{Files};
ghost use Rattle.run_status.specs.Took.{Took};
ghost use Rattle.pool_cli.specs.Ends.{AnswersAs, DecidedAs, EndsAs, HasFairGap, HasNoJournal, IsAdmitted, IsUnanswered, LeavesAs, words_status};

use crate::formulate::formulate;
use crate::make::make;
use crate::trial::trial;
use certificate_commands::{check, report};
use cli_words::{Request, WordsFault, read_words};
use disk_calls::Disk;
use edge_io::Sink;
use gather_command::gather;
use job_commands::{jobs, work};
use run_status::Status;
use shelf_calls::Shelf;
use solve_command::solve;
use std::alloc::Global;
use tight_commands::{checktight, tight};

/// Runs the program on the words behind its name: takes files from the shelf, gives what it prints to the sink, and keeps the journal
/// that the words name, if any, on the disk.
///
/// `solve NET` prints the certificate of the network in the file NET; with `--journal FILE` it goes on from the entries in that file,
/// and records each entry there before it is taken. `check NET CERT` prints what the certificate in the file CERT says of the network in
/// the file NET, or why it is refused, and `report NET CERT` tells it to a person. `formulate NET` prints an exact program of the
/// network in the file NET, `make N` the network of the number N, and `trial N` how a search of that network went.
///
/// `jobs NET --journal FILE` prints jobs on leaves of the tree of the entries in that file, `work NET JOBS` answers to the jobs in the file
/// JOBS, and `gather NET JOBS ANSWERS.. --journal FILE` takes the answers in the files ANSWERS into that journal, and prints what came of each.
///
/// `tight NET CERT` prints for each leaf of a certificate whether its bound is the best that the rows of a form allow, and `checktight NET CERT TIGHT`
/// what the marks in the file TIGHT come to, or why they are refused.
pub fn run<S: Shelf, K: Sink, D: Disk>(
    alloc: Global,
    words: &[String],
    shelf: &mut S,
    out: &mut K,
    disk: &mut D,
) -> Status
    requires { (asked : Asked) → Asks (map string_bytes words.now) asked
        → IsAdmitted (λ name. IsTrue ((S.told shelf.old).admits name)) (λ name. IsTrue ((D.told disk.old).admits name)) (S.told shelf.old).files asked }

    // What the sink took: under `Closed`, `Stopped`, `Stuck`, `Infeasible` and `Undecided` the text of a certificate that answers the
    // words, under `Accepted`, `Refused` and `TightRefused` the line on the certificate or on the marks that they name, under `Done` the report,
    // the program, the network, the four lines of the trial, the jobs, the answers, what came of answers, or the marks, under `WriteFault` a
    // front of such a text, and under every other status nothing.
    // Promise: Under the statuses 0, 10, 11, 12 and 13 of `solve` the sink took exactly the text of one certificate; under 0 and 1 of
    //   `check`, and under 1 of `report`, exactly its line; under 0 of `report`, `formulate`, `make` and `trial` exactly the report, the
    //   program, the network and the four lines; under 0 of `jobs`, `work` and `gather` exactly the jobs, the answers, and a line for each answer with
    //   a last one; under 0 of `tight` exactly the marks, and under 1 the line on the certificate; under 0 and 1 of `checktight` exactly the line
    //   on the marks, or under 1 that on the certificate; under 21 a front of such a text; under every other status nothing
    ensures took { (asked : Asked) → Asks (map string_bytes words.now) asked → Took (AnswersAs (S.told shelf.old).files asked) result (K.taken out.old) (K.taken out.new) }
    // Promise: Under 2 and 23 nothing was printed, whatever the words
    ensures unanswered { IsUnanswered result → K.taken out.new ≡ K.taken out.old }

    // Words that ask for something get an answer, and no others do, memory aside.
    // Promise: Status 2 comes only where the words ask nothing
    ensures usage { result ≡ Status.Usage → (asked : Asked) → ¬ Asks (map string_bytes words.now) asked }
    // Promise: Where the words ask nothing, the status is 2, or memory ran out
    ensures asked { IsUnanswered result ⊎ ((asked : Asked) × Asks (map string_bytes words.now) asked) }

    // When each status comes, and by what the told files say which one does, where the run isn't cut short.
    ensures ends { (asked : Asked) → Asks (map string_bytes words.now) asked → EndsAs (S.told shelf.old).files (S.told shelf.old).taken (S.told shelf.new).taken asked result }
    ensures decided { (told : Files) (asked : Asked) → (S.told shelf.old).files ≡ Some told → Asks (map string_bytes words.now) asked → DecidedAs told asked result }
    // Promise: Status 20 comes only where the shelf's count of faults rose
    ensures read_fault { result ≡ Status.ReadFault → Rose (S.told shelf.old).faults (S.told shelf.new).faults }
    // Promise: Under every status but 20 the count of faults of the shelf is as it was: a call of the shelf that failed is never told as want of
    //   memory (23) or as anything else
    ensures quiet { (result ≡ Status.ReadFault) ⊎ ((S.told shelf.new).faults ≡ (S.told shelf.old).faults) }
    // Promise: Status 21 comes only where the sink's count of faults rose
    ensures write_fault { result ≡ Status.WriteFault → Rose (K.faults out.old) (K.faults out.new) }
    // Promise: Status 22 comes only where the disk's count of faults rose
    ensures disk_fault { result ≡ Status.DiskFault → Rose (D.told disk.old).faults (D.told disk.new).faults }

    // What a crash at any moment leaves of the journal, what the journal holds at the end, and when it is refused. Without a journal the
    // disk is not touched.
    ensures journal { (asked : Asked) → Asks (map string_bytes words.now) asked → IsTrue (D.told disk.old).tells
        → LeavesAs (S.told shelf.old).files (D.told disk.old) (D.told disk.new) (K.taken out.old) (K.taken out.new) asked result }
    // Promise: Without `--journal` the disk is not touched
    ensures apart { (asked : Asked) → Asks (map string_bytes words.now) asked → HasNoJournal asked → disk.new ≡ disk.old }
    // Promise: Words that ask nothing leave the disk as it is
    ensures unasked { ((asked : Asked) → ¬ Asks (map string_bytes words.now) asked) → disk.new ≡ disk.old }
{
    match read_words(alloc, words) {
        Ok(request) => answer(alloc, request, shelf, out, disk),
        Err(fault) => status_of_words(fault),
    }
}

/// The status of words that no request was read from.
fn status_of_words(fault: WordsFault) -> Status
    ensures { result ≡ words_status fault }
{
    match fault {
        WordsFault::Usage => Status::Usage,
        WordsFault::Memory => Status::OutOfMemory,
    }
}

/// Does what a request asks.
fn answer<S: Shelf, K: Sink, D: Disk>(
    alloc: Global,
    request: Request,
    shelf: &mut S,
    out: &mut K,
    disk: &mut D,
) -> Status
    requires admitted { IsAdmitted (λ name. IsTrue ((S.told shelf.old).admits name)) (λ name. IsTrue ((D.told disk.old).admits name)) (S.told shelf.old).files (shown_request request) }
    requires gap { HasFairGap (shown_request request) }
    ensures took { Took (AnswersAs (S.told shelf.old).files (shown_request request)) result (K.taken out.old) (K.taken out.new) }
    ensures ends { EndsAs (S.told shelf.old).files (S.told shelf.old).taken (S.told shelf.new).taken (shown_request request) result }
    ensures read_fault { result ≡ Status.ReadFault → Rose (S.told shelf.old).faults (S.told shelf.new).faults }
    ensures quiet { (result ≡ Status.ReadFault) ⊎ ((S.told shelf.new).faults ≡ (S.told shelf.old).faults) }
    ensures write_fault { result ≡ Status.WriteFault → Rose (K.faults out.old) (K.faults out.new) }
    ensures disk_fault { result ≡ Status.DiskFault → Rose (D.told disk.old).faults (D.told disk.new).faults }
    ensures journal { IsTrue (D.told disk.old).tells
        → LeavesAs (S.told shelf.old).files (D.told disk.old) (D.told disk.new) (K.taken out.old) (K.taken out.new) (shown_request request) result }
    ensures apart { HasNoJournal (shown_request request) → disk.new ≡ disk.old }
{
    match request {
        Request::Solve(words) => Status::from(solve(alloc, &words, shelf, out, disk)),
        Request::Check(net, cert) => Status::from(check(alloc, &net, &cert, shelf, out)),
        Request::Report(net, cert) => Status::from(report(alloc, &net, &cert, shelf, out)),
        Request::Formulate(net, form) => Status::from(formulate(alloc, &net, form, shelf, out)),
        Request::Tight(net, cert, form, pivots) => {
            Status::from(tight(alloc, &net, &cert, form, pivots, shelf, out))
        }
        Request::CheckTight(net, cert, marks) => {
            Status::from(checktight(alloc, &net, &cert, &marks, shelf, out))
        }
        Request::Make(number) => Status::from(make(alloc, number, out)),
        Request::Trial(number) => Status::from(trial(alloc, number, out)),
        Request::Jobs(net, journal, count) => {
            Status::from(jobs(alloc, &net, &journal, count, shelf, out, disk))
        }
        Request::Work(net, jobs, form) => {
            Status::from(work(alloc, &net, &jobs, form, shelf, out))
        }
        Request::Gather(net, jobs, answers, journal) => Status::from(gather(
            alloc, &net, &jobs, &answers, &journal, shelf, out, disk,
        )),
    }
}
