//! Jobs and answers, read from left to right, line by line.
//!
//! A reader stops with `Stop::Text` where its line is faulty, and with `Stop::Source` only where the source is broken, which a text in memory
//! never is.

ghost use Rattle.std.specs.Prelude.{◌≡◌, ◌↔◌, Some, option_map, false, IfOk, IfErr, IsTrue, List};
ghost use Rattle.box_space.specs.Views.{shown_proof};
ghost use Rattle.cert_text.specs.Reading.{Gives, each_at, finished, first_of, whole};
ghost use Rattle.work_units.specs.Units.{Answer as ShownAnswer};
ghost use Rattle.work_units.specs.Views.{shown_answer};
ghost use Rattle.job_texts.specs.Texts.{AreJobs, AreWritten, Jobs, answers_text, jobs_text};
ghost use Rattle.job_texts.specs.Reading.{answer_at, answer_list_at, answers_at, half_at, head_at, job_line_at, job_lines_at, jobs_at, rest_at};
ghost use Rattle.job_texts.specs.Views.{place_of, shown_answers, shown_jobs};
ghost use Rattle.cert_text.specs.Results.{Closes, Comes, IsFaultIn, IsReadAs, Yields};

use crate::jobs::JobsText;
use box_space::{Proof, Split};
use box_tree::Entry;
use cert_format::reading::{part_list, shape, splits};
use cert_text::{
    Ends, Halt, ReadFault, SliceSource, Source, Stop, TextFault, i64_then, u32_then, u64_then, word,
};
use std::alloc::Global;
use work_units::{Answer, Job};

/// The line of a job.
#[tactic(auto, unfolding(crate::specs::Reading::job_line_at))]
fn job_line<S: Source>(src: &mut S) -> Result<Job, Stop>
    ensures { Gives (λ x. x) result (S.at src.new) (S.broken src.new) (job_line_at (S.at src.old)) }
{
    word(src, b"job ")?;
    let number = u32_then(src, Ends::Space)?;
    let node = u32_then(src, Ends::Line)?;
    Ok(Job { number, node })
}

/// The lines of n jobs.
fn job_list<S: Source>(alloc: Global, src: &mut S, n: u32) -> Result<Vec<Job>, Halt>
    ensures { Yields (λ v. v.items) result (S.at src.new) (S.broken src.new) (each_at (λ _. job_line_at) n (S.at src.old)) }
{
    let mut jobs = Vec::new(alloc);
    for _ in 0..n {
        let job = job_line(src)?;
        jobs.push(job)?;
    }
    Ok(jobs)
}

/// The count of the jobs, and their lines.
#[tactic(auto, unfolding(crate::specs::Reading::job_lines_at))]
fn job_lines<S: Source>(alloc: Global, src: &mut S) -> Result<Vec<Job>, Halt>
    ensures { Yields (λ v. v.items) result (S.at src.new) (S.broken src.new) (job_lines_at (S.at src.old)) }
{
    word(src, b"jobs ")?;
    let n = u32_then(src, Ends::Line)?;
    job_list(alloc, src, n)
}

/// Jobs, at the front of what the source has.
#[tactic(auto, unfolding(crate::specs::Reading::jobs_at))]
fn jobs<S: Source>(alloc: Global, src: &mut S) -> Result<JobsText, Halt>
    ensures { Yields shown_jobs result (S.at src.new) (S.broken src.new) (jobs_at (S.at src.old)) }
{
    word(src, b"pooljobs 1\n")?;
    let shape = shape(src)?;
    let splits = splits(alloc, src)?;
    let jobs = job_lines(alloc, src)?;
    word(src, b"end\n")?;
    Ok(JobsText {
        shape,
        splits,
        jobs,
    })
}

/// Jobs, and nothing behind them in the source.
fn jobs_to_the_end<S: Source>(alloc: Global, src: &mut S) -> Result<JobsText, Halt>
    ensures { Closes shown_jobs result (S.broken src.new) (finished jobs_at (S.at src.old)) }
{
    let jobs = jobs(alloc, src)?;
    let line = src.line();
    match src.next() {
        Ok(None) => Ok(jobs),
        Ok(Some(_)) => Err(Halt::Read(Stop::Text(TextFault { line }))),
        Err(_) => Err(Halt::Read(Stop::Source)),
    }
}

/// All of the bytes: jobs and nothing behind them.
fn all_jobs(alloc: Global, bytes: &[u8]) -> Result<JobsText, ReadFault>
    ensures { Comes shown_jobs result (whole jobs_at bytes.now) }
{
    let mut src = SliceSource::new(bytes);
    match jobs_to_the_end(alloc, &mut src) {
        Ok(jobs) => Ok(jobs),
        Err(Halt::Read(Stop::Text(fault))) => Err(ReadFault::Line(fault.line)),
        Err(Halt::Read(Stop::Source)) => unreachable!(),
        Err(Halt::Memory) => Err(ReadFault::Memory),
    }
}

/// The jobs that have this text.
///
/// `Line` comes exactly where no jobs have this text. Where there is no faulty line, and the text isn't whole or goes on behind that of the
/// jobs, it is the number of the rest behind the last line feed. `Memory` is want of memory; none is taken ahead of what is read.
pub fn read_jobs(alloc: Global, bytes: &[u8]) -> Result<JobsText, ReadFault>
    // Promise: What is read of a jobs text is the jobs that have it
    ensures found { IfOk result (λ t. AreJobs (shown_jobs t) × (bytes.now ≡ jobs_text (shown_jobs t))) }
    // Promise: The text of jobs is read as these jobs, or memory ran out
    ensures only { (j : Jobs) → AreJobs j → bytes.now ≡ jobs_text j → IsReadAs shown_jobs j result }
    // Promise: A text that no jobs have is refused at its first faulty line
    ensures fault { IfErr result (IsFaultIn Jobs AreJobs jobs_text bytes.now) }
{
    all_jobs(alloc, bytes)
}

/// Whether the next byte is the first of the word for no proof.
fn says_none(src: &SliceSource) -> bool
    ensures { IsTrue result ↔ (first_of (place_of src.now) ≡ Some 110) }
{
    matches!(src.rest(), [b'n', ..])
}

/// How the rest of a half's line begins: None where its word says that there is no proof, else the scale of the proof.
#[tactic(auto, using(crate::proofs::Heads::none_found, crate::proofs::Heads::none_stops, crate::proofs::Heads::scale_found, crate::proofs::Heads::scale_stops))]
fn head(src: &mut SliceSource) -> Result<Option<u64>, Stop>
    ensures { Gives (λ x. x) result (place_of src.new) false (head_at (place_of src.old)) }
{
    if says_none(src) {
        word(src, b"none\n")?;
        Ok(None)
    } else {
        let scale = u64_then(src, Ends::Space)?;
        Ok(Some(scale))
    }
}

/// What follows the beginning of a half's line: nothing, or the count of the proof's parts, and these.
#[tactic(auto, unfolding(crate::specs::Reading::rest_at))]
fn rest(alloc: Global, src: &mut SliceSource, head: Option<u64>) -> Result<Option<Proof>, Halt>
    ensures { Yields (option_map shown_proof) result (place_of src.new) false (rest_at head (place_of src.old)) }
{
    match head {
        None => Ok(None),
        Some(scale) => {
            let count = u32_then(src, Ends::LineIfZero)?;
            let parts = part_list(alloc, src, count)?;
            Ok(Some(Proof { scale, parts }))
        }
    }
}

/// The line of a half, with its word.
#[tactic(auto, unfolding(crate::specs::Reading::half_at))]
fn half(alloc: Global, src: &mut SliceSource, name: &[u8]) -> Result<Option<Proof>, Halt>
    ensures { Yields (option_map shown_proof) result (place_of src.new) false (half_at name.now (place_of src.old)) }
{
    word(src, name)?;
    let head = head(src)?;
    rest(alloc, src, head)
}

/// The lines of an answer.
#[tactic(auto, unfolding(crate::specs::Reading::answer_at))]
fn answer(alloc: Global, src: &mut SliceSource) -> Result<Answer, Halt>
    ensures { Yields shown_answer result (place_of src.new) false (answer_at (place_of src.old)) }
{
    word(src, b"answer ")?;
    let number = u32_then(src, Ends::Space)?;
    let leaf = u32_then(src, Ends::Space)?;
    let coord = u32_then(src, Ends::Space)?;
    let cut = i64_then(src, Ends::Line)?;
    let left = half(alloc, src, b"left ")?;
    let right = half(alloc, src, b"right ")?;
    Ok(Answer {
        number,
        entry: Entry::SplitOf(Split { leaf, coord, cut }, left, right),
    })
}

/// The lines of n answers.
fn answer_list(alloc: Global, src: &mut SliceSource, n: u32) -> Result<Vec<Answer>, Halt>
    ensures { Yields shown_answers result (place_of src.new) false (each_at (λ _. answer_at) n (place_of src.old)) }
{
    let mut answers = Vec::new(alloc);
    for _ in 0..n {
        let answer = answer(alloc, src)?;
        answers.push(answer)?;
    }
    Ok(answers)
}

/// The count of the answers, and their lines.
#[tactic(auto, unfolding(crate::specs::Reading::answer_list_at))]
fn answer_lines(alloc: Global, src: &mut SliceSource) -> Result<Vec<Answer>, Halt>
    ensures { Yields shown_answers result (place_of src.new) false (answer_list_at (place_of src.old)) }
{
    word(src, b"answers ")?;
    let n = u32_then(src, Ends::Line)?;
    answer_list(alloc, src, n)
}

/// Answers, at the front of what the source has.
#[tactic(auto, unfolding(crate::specs::Reading::answers_at))]
fn answers(alloc: Global, src: &mut SliceSource) -> Result<Vec<Answer>, Halt>
    ensures { Yields shown_answers result (place_of src.new) false (answers_at (place_of src.old)) }
{
    word(src, b"poolwork 1\n")?;
    let answers = answer_lines(alloc, src)?;
    word(src, b"end\n")?;
    Ok(answers)
}

/// Answers, and nothing behind them in the source.
fn answers_to_the_end(alloc: Global, src: &mut SliceSource) -> Result<Vec<Answer>, Halt>
    ensures { Closes shown_answers result false (finished answers_at (place_of src.old)) }
{
    let answers = answers(alloc, src)?;
    let line = src.line();
    match src.next() {
        Ok(None) => Ok(answers),
        Ok(Some(_)) => Err(Halt::Read(Stop::Text(TextFault { line }))),
        Err(_) => Err(Halt::Read(Stop::Source)),
    }
}

/// All of the bytes: answers and nothing behind them.
fn all_answers(alloc: Global, bytes: &[u8]) -> Result<Vec<Answer>, ReadFault>
    ensures { Comes shown_answers result (whole answers_at bytes.now) }
{
    let mut src = SliceSource::new(bytes);
    match answers_to_the_end(alloc, &mut src) {
        Ok(answers) => Ok(answers),
        Err(Halt::Read(Stop::Text(fault))) => Err(ReadFault::Line(fault.line)),
        Err(Halt::Read(Stop::Source)) => unreachable!(),
        Err(Halt::Memory) => Err(ReadFault::Memory),
    }
}

/// The answers that have this text.
///
/// `Line` comes exactly where no answers have this text. Where there is no faulty line, and the text isn't whole or goes on behind that of
/// the answers, it is the number of the rest behind the last line feed. `Memory` is want of memory; none is taken ahead of what is read.
pub fn read_answers(alloc: Global, bytes: &[u8]) -> Result<Vec<Answer>, ReadFault>
    // Promise: What is read of an answers text is the answers that have it
    ensures found { IfOk result (λ v. AreWritten (shown_answers v) × (bytes.now ≡ answers_text (shown_answers v))) }
    // Promise: The text of answers is read as these answers, or memory ran out
    ensures only { (a : List ShownAnswer) → AreWritten a → bytes.now ≡ answers_text a → IsReadAs shown_answers a result }
    // Promise: A text that no answers have is refused at its first faulty line
    ensures fault { IfErr result (IsFaultIn (List ShownAnswer) AreWritten answers_text bytes.now) }
{
    all_answers(alloc, bytes)
}
