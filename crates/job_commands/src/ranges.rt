//! That what is held has a text. There is nothing here but the reading of numbers.

ghost use Rattle.std.specs.Prelude.{◌<◌, ◌^◌, All, length, map, option_map};
ghost use Rattle.std.specs.Option.{ForSome};
ghost use Rattle.box_space.specs.Views.{shown_proof};
ghost use Rattle.box_tree.specs.Views.{shown_entry};
ghost use Rattle.work_units.specs.Views.{shown_answer};
ghost use Rattle.job_texts.specs.Texts.{AreJobs, AreWritten, HasLines, IsHalfProof, IsJobInRange};
ghost use Rattle.job_texts.specs.Views.{shown_jobs};
ghost use Rattle.job_commands.specs.Ranges.{HasFewParts, SplitsWithFew};

use box_space::Proof;
use box_tree::Entry;
use cert_writing::ranges::{numbers, parts, split, splits};
use job_texts::JobsText;
use work_units::{Answer, Job};

/// Jobs that are held have a text, where they and their splits can be counted in 32 bits.
pub(crate) fn jobs_law(text: &JobsText)
    requires splits { length text.now.splits.items < 2 ^ 32 }
    requires jobs { length text.now.jobs.items < 2 ^ 32 }
    ensures { AreJobs (shown_jobs text.now) }
{
    numbers(&text.shape);
    splits(text.splits.as_slice());
    jobs(text.jobs.as_slice());
}

/// Answers that are held have a text, where each is a split whose proofs have few parts, and they can be counted in 32 bits.
pub(crate) fn answers_law(answers: &[Answer])
    requires few { length answers.now < 2 ^ 32 }
    requires splits { All (λ a. SplitsWithFew (shown_entry a.entry)) answers.now }
    ensures { AreWritten (map shown_answer answers.now) }
{
    for each in answers {
        answer(each);
    }
}

fn answer(answer: &Answer)
    requires { SplitsWithFew (shown_entry answer.now.entry) }
    ensures number { answer.now.number < 2 ^ 32 }
    ensures entry { HasLines (shown_entry answer.now.entry) }
{
    let _number = answer.number;
    entry(&answer.entry);
}

fn entry(entry: &Entry)
    requires { SplitsWithFew (shown_entry entry.now) }
    ensures { HasLines (shown_entry entry.now) }
{
    match entry {
        Entry::SplitOf(cut, left, right) => {
            split(cut);
            half(left);
            half(right);
        }
        _ => {}
    }
}

fn half(half: &Option<Proof>)
    requires { ForSome (option_map shown_proof half.now) HasFewParts }
    ensures { ForSome (option_map shown_proof half.now) IsHalfProof }
{
    match half {
        Some(held) => proof(held),
        None => {}
    }
}

fn proof(proof: &Proof)
    requires { HasFewParts (shown_proof proof.now) }
    ensures { IsHalfProof (shown_proof proof.now) }
{
    let _scale = proof.scale;
    parts(proof.parts.as_slice());
}

fn jobs(jobs: &[Job])
    ensures { All IsJobInRange jobs.now }
{
    for each in jobs {
        job(each);
    }
}

fn job(job: &Job)
    ensures { IsJobInRange job.now }
{
    let _number = job.number;
    let _node = job.node;
}
