//! Jobs and answers, written line by line. A line, or the lines of an answer, are handed on as one piece, unless they are too long for it.

ghost use Rattle.std.specs.Prelude.{[], Some, map, option_map, OnErr};
ghost use Rattle.std.specs.List.{flat_map};
ghost use Rattle.edge_io.specs.Counts.{Grows, Rose};
ghost use Rattle.edge_io.specs.Writing.{Wrote};
ghost use Rattle.box_space.specs.Views.{shown_proof, shown_split};
ghost use Rattle.row_model.specs.Entries.{split_of};
ghost use Rattle.work_units.specs.Views.{shown_answer};
ghost use Rattle.job_texts.specs.Texts.{answer_line, answer_lines, answer_list, answers_text, entry_lines, half_line, job_line, job_lines, jobs_text};
ghost use Rattle.job_texts.specs.Views.{shown_jobs};

use crate::jobs::JobsText;
use box_space::{Proof, Split};
use box_tree::Entry;
use cert_writing::{Text, write_line, write_splits, write_text};
use edge_io::{Sink, WriteFault, write_whole};
use work_units::{Answer, Job};

/// The lines of jobs.
fn write_job_list<K: Sink>(out: &mut K, jobs: &[Job]) -> Result<(), WriteFault>
    ensures wrote { Wrote result (K.taken out.old) (flat_map job_line jobs.now) (K.taken out.new) }
    ensures failed { OnErr result (Rose (K.faults out.old) (K.faults out.new)) }
    ensures faults_grow { Grows (K.faults out.old) (K.faults out.new) }
{
    for job in jobs {
        write_job(out, job)?;
    }
    Ok(())
}

/// The line of a job.
fn write_job<K: Sink>(out: &mut K, job: &Job) -> Result<(), WriteFault>
    ensures wrote { Wrote result (K.taken out.old) (job_line job.now) (K.taken out.new) }
    ensures failed { OnErr result (Rose (K.faults out.old) (K.faults out.new)) }
    ensures faults_grow { Grows (K.faults out.old) (K.faults out.new) }
{
    write_line(out, b"job", &[job.number, job.node])
}

/// The count of the jobs, and their lines.
fn write_job_lines<K: Sink>(out: &mut K, jobs: &[Job]) -> Result<(), WriteFault>
    ensures wrote { Wrote result (K.taken out.old) (job_lines jobs.now) (K.taken out.new) }
    ensures failed { OnErr result (Rose (K.faults out.old) (K.faults out.new)) }
    ensures faults_grow { Grows (K.faults out.old) (K.faults out.new) }
{
    write_line(out, b"jobs", &[jobs.len()])?;
    write_job_list(out, jobs)
}

/// Writes the text of jobs. It takes no memory.
///
/// `WriteFault` comes only where the sink's count of faults rose; the sink has taken a front of the text then.
pub fn write_jobs<K: Sink>(jobs: &JobsText, out: &mut K) -> Result<(), WriteFault>
    // Promise: Jobs are written as their text, or a front of it where the sink fails
    ensures wrote { Wrote result (K.taken out.old) (jobs_text (shown_jobs jobs.now)) (K.taken out.new) }
    ensures failed { OnErr result (Rose (K.faults out.old) (K.faults out.new)) }
    ensures faults_grow { Grows (K.faults out.old) (K.faults out.new) }
{
    write_whole(out, b"pooljobs 1\n")?;
    write_line(out, b"shape", &jobs.shape)?;
    write_splits(out, jobs.splits.as_slice())?;
    write_job_lines(out, jobs.jobs.as_slice())?;
    write_whole(out, b"end\n")
}

/// The line of a half with a proof, behind its word.
fn write_proof<K: Sink>(out: &mut K, proof: &Proof) -> Result<(), WriteFault>
    ensures wrote { Wrote result (K.taken out.old) (half_line [] (Some (shown_proof proof.now))) (K.taken out.new) }
    ensures failed { OnErr result (Rose (K.faults out.old) (K.faults out.new)) }
    ensures faults_grow { Grows (K.faults out.old) (K.faults out.new) }
{
    proof.put(out)?;
    write_whole(out, b"\n")
}

/// What stands behind a half's word: that there is no proof, or the proof.
fn write_rest<K: Sink>(out: &mut K, half: &Option<Proof>) -> Result<(), WriteFault>
    ensures wrote { Wrote result (K.taken out.old) (half_line [] (option_map shown_proof half.now)) (K.taken out.new) }
    ensures failed { OnErr result (Rose (K.faults out.old) (K.faults out.new)) }
    ensures faults_grow { Grows (K.faults out.old) (K.faults out.new) }
{
    match half {
        None => write_whole(out, b" none\n"),
        Some(proof) => write_proof(out, proof),
    }
}

/// The line of a half.
fn write_half<K: Sink>(out: &mut K, word: &[u8], half: &Option<Proof>) -> Result<(), WriteFault>
    ensures wrote { Wrote result (K.taken out.old) (half_line word.now (option_map shown_proof half.now)) (K.taken out.new) }
    ensures failed { OnErr result (Rose (K.faults out.old) (K.faults out.new)) }
    ensures faults_grow { Grows (K.faults out.old) (K.faults out.new) }
{
    write_whole(out, word)?;
    write_rest(out, half)
}

/// The first line of an answer.
fn write_cut<K: Sink>(out: &mut K, number: u32, split: &Split) -> Result<(), WriteFault>
    ensures wrote { Wrote result (K.taken out.old) (answer_line number (shown_split split.now)) (K.taken out.new) }
    ensures failed { OnErr result (Rose (K.faults out.old) (K.faults out.new)) }
    ensures faults_grow { Grows (K.faults out.old) (K.faults out.new) }
{
    let fields = [
        i64::from(number),
        i64::from(split.leaf),
        i64::from(split.coord),
        split.cut,
    ];
    write_line(out, b"answer", &fields)
}

/// The lines of an answer that brings a split.
fn write_halves<K: Sink>(
    out: &mut K,
    number: u32,
    split: &Split,
    left: &Option<Proof>,
    right: &Option<Proof>,
) -> Result<(), WriteFault>
    ensures wrote { Wrote result (K.taken out.old) (entry_lines number (split_of (shown_split split.now) (option_map shown_proof left.now) (option_map shown_proof right.now))) (K.taken out.new) }
    ensures failed { OnErr result (Rose (K.faults out.old) (K.faults out.new)) }
    ensures faults_grow { Grows (K.faults out.old) (K.faults out.new) }
{
    write_cut(out, number, split)?;
    write_half(out, b"left", left)?;
    write_half(out, b"right", right)
}

/// An answer, for its lines.
#[derive(Clone, Copy)]
struct AnswerText<'a>(&'a Answer);

impl<'a> Text for AnswerText<'a> {
    ghost text = { λ it. answer_lines (shown_answer it.0.now) };

    fn put<K: Sink>(&self, out: &mut K) -> Result<(), WriteFault> {
        match &self.0.entry {
            Entry::SplitOf(split, left, right) => {
                write_halves(out, self.0.number, split, left, right)
            }
            Entry::Root(_) | Entry::Improve(_) => write_whole(out, b""),
        }
    }
}

/// The lines of answers.
fn write_answer_list<K: Sink>(out: &mut K, answers: &[Answer]) -> Result<(), WriteFault>
    ensures wrote { Wrote result (K.taken out.old) (flat_map (λ a. answer_lines (shown_answer a)) answers.now) (K.taken out.new) }
    ensures failed { OnErr result (Rose (K.faults out.old) (K.faults out.new)) }
    ensures faults_grow { Grows (K.faults out.old) (K.faults out.new) }
{
    for answer in answers {
        write_text(out, &AnswerText(answer))?;
    }
    Ok(())
}

/// The count of the answers, and their lines.
fn write_answer_lines<K: Sink>(out: &mut K, answers: &[Answer]) -> Result<(), WriteFault>
    ensures wrote { Wrote result (K.taken out.old) (answer_list (map shown_answer answers.now)) (K.taken out.new) }
    ensures failed { OnErr result (Rose (K.faults out.old) (K.faults out.new)) }
    ensures faults_grow { Grows (K.faults out.old) (K.faults out.new) }
{
    write_line(out, b"answers", &[answers.len()])?;
    write_answer_list(out, answers)
}

/// Writes the text of answers. An answer that brings no split has no lines. It takes no memory.
///
/// `WriteFault` comes only where the sink's count of faults rose; the sink has taken a front of the text then.
pub fn write_answers<K: Sink>(answers: &[Answer], out: &mut K) -> Result<(), WriteFault>
    // Promise: Answers are written as their text, or a front of it where the sink fails
    ensures wrote { Wrote result (K.taken out.old) (answers_text (map shown_answer answers.now)) (K.taken out.new) }
    ensures failed { OnErr result (Rose (K.faults out.old) (K.faults out.new)) }
    ensures faults_grow { Grows (K.faults out.old) (K.faults out.new) }
{
    write_whole(out, b"poolwork 1\n")?;
    write_answer_lines(out, answers)?;
    write_whole(out, b"end\n")
}
