//! The command `work`.

ghost use Rattle.std.specs.Prelude.{◌≡◌, ◌⊎◌, ℕ, List, IsTrue, IfOk};
ghost use Rattle.edge_io.specs.Counts.{Grows, Rose};
ghost use Rattle.pool_model.specs.Network.{Network as ANetwork, net_of};
ghost use Rattle.job_texts.specs.Texts.{Jobs, answers_text};
ghost use Rattle.job_texts.specs.Views.{shown_answers};
ghost use Rattle.run_status.specs.Reads.{ReadsUnder};
ghost use Rattle.run_status.specs.Took.{Took};
ghost use Rattle.job_commands.specs.Handed.{IsHandedOut};
ghost use Rattle.job_commands.specs.WorkEnds.{AnswersJobs, IsTried, IsWorkOn, WantsUnder, WorkEnds, WorksAs, work_status};

use crate::handed::{Unhanded, handed_out_under};
use crate::ranges::answers_law;
use blend_network::Network;
use box_space::Form;
use edge_io::{Memory, Sink};
use job_texts::write_answers;
use job_trees::HandedOut;
use job_work::answers_to;
use row_book::rows;
use run_status::{Status, Unread, network_under};
use shelf_calls::Shelf;
use std::alloc::Global;
use work_units::Answer;

/// How `work` ended.
#[derive(Debug, Drop)]
pub enum WorkOutcome {
    /// The answers were written.
    Done,
    /// No network was read.
    Unread(Unread),
    /// No jobs were handed out.
    Unhanded(Unhanded),
    /// Memory ran out in the work.
    Memory,
    /// The sink failed.
    WriteFault,
}

impl From<WorkOutcome> for Status {
    ghost from_gives = { λ outcome status. status ≡ work_status outcome };

    fn from(outcome: WorkOutcome) -> Status {
        match outcome {
            WorkOutcome::Done => Status::Done,
            WorkOutcome::Unread(why) => Status::from(why),
            WorkOutcome::Unhanded(why) => Status::from(why),
            WorkOutcome::Memory => Status::OutOfMemory,
            WorkOutcome::WriteFault => Status::WriteFault,
        }
    }
}

/// Answers the jobs in the file of the second name, which are on a tree of the network in the file of the first, and writes the text of the
/// answers.
///
/// The shelf is asked for the jobs only where a network was read. There is no limit on the text that is written.
pub fn work<S: Shelf, K: Sink>(
    alloc: Global,
    net: &str,
    jobs: &str,
    form: Form,
    shelf: &mut S,
    out: &mut K,
) -> WorkOutcome
    requires network { IsTrue ((S.told shelf.old).admits net.now) }
    requires jobs { (network : ANetwork) → ReadsUnder (S.told shelf.old).files net.now network → IsTrue ((S.told shelf.old).admits jobs.now) }
    ensures took { Took (WorksAs (S.told shelf.old).files net.now jobs.now form) (work_status result) (K.taken out.old) (K.taken out.new) }
    ensures ends { WorkEnds (S.told shelf.old).files net.now jobs.now (S.told shelf.old).taken (S.told shelf.new).taken (work_status result) }
    ensures read_fault { work_status result ≡ Status.ReadFault → Rose (S.told shelf.old).faults (S.told shelf.new).faults }
    // Promise: Under every status but 20 the count of faults of the shelf is as it was: a call of the shelf that failed is never told as want of
    //   memory (23) or as anything else
    ensures quiet { (work_status result ≡ Status.ReadFault) ⊎ ((S.told shelf.new).faults ≡ (S.told shelf.old).faults) }
    ensures write_fault { work_status result ≡ Status.WriteFault → Rose (K.faults out.old) (K.faults out.new) }
    // Promise: 23 of `work` comes where the network is to be read, or jobs of one that was read, or of the work on jobs that were handed out:
    //   jobs that are too long (5) or refused (6) are never told as want of memory
    ensures memory { work_status result ≡ Status.OutOfMemory → WantsUnder (S.told shelf.old).files net.now jobs.now result }
{
    match network_under(alloc, net, shelf) {
        Ok(network) => work_file(alloc, &network, jobs, form, shelf, out),
        Err(why) => WorkOutcome::Unread(why),
    }
}

/// Answers the jobs in the file of this name, for a network that was read.
fn work_file<S: Shelf, K: Sink>(
    alloc: Global,
    network: &Network,
    jobs: &str,
    form: Form,
    shelf: &mut S,
    out: &mut K,
) -> WorkOutcome
    requires { IsTrue ((S.told shelf.old).admits jobs.now) }
    ensures took { (net : List ℕ) → ReadsUnder (S.told shelf.old).files net network.now
        → Took (WorksAs (S.told shelf.old).files net jobs.now form) (work_status result) (K.taken out.old) (K.taken out.new) }
    ensures ends { (net : List ℕ) (before : ℕ) → ReadsUnder (S.told shelf.old).files net network.now → Grows before (S.told shelf.old).taken
        → WorkEnds (S.told shelf.old).files net jobs.now before (S.told shelf.new).taken (work_status result) }
    ensures read_fault { work_status result ≡ Status.ReadFault → Rose (S.told shelf.old).faults (S.told shelf.new).faults }
    ensures quiet { (work_status result ≡ Status.ReadFault) ⊎ ((S.told shelf.new).faults ≡ (S.told shelf.old).faults) }
    ensures write_fault { work_status result ≡ Status.WriteFault → Rose (K.faults out.old) (K.faults out.new) }
    ensures memory { (net : List ℕ) → ReadsUnder (S.told shelf.old).files net network.now → work_status result ≡ Status.OutOfMemory
        → WantsUnder (S.told shelf.old).files net jobs.now result }
{
    match handed_out_under(alloc, network, jobs, shelf) {
        Ok(handed) => work_handed(alloc, network, form, &handed, out),
        Err(why) => WorkOutcome::Unhanded(why),
    }
}

/// Answers the jobs that were handed out, and writes the text of the answers.
fn work_handed<K: Sink>(
    alloc: Global,
    network: &Network,
    form: Form,
    handed: &HandedOut,
    out: &mut K,
) -> WorkOutcome
    requires { (j : Jobs) × IsHandedOut (net_of network.now) j handed.now }
    ensures took { (j : Jobs) → IsHandedOut (net_of network.now) j handed.now
        → Took (AnswersJobs (net_of network.now) form j) (work_status result) (K.taken out.old) (K.taken out.new) }
    ensures ends { IsTried result }
    ensures write_fault { work_status result ≡ Status.WriteFault → Rose (K.faults out.old) (K.faults out.new) }
{
    match answered(alloc, network, form, handed) {
        Ok(answers) => match write_answers(answers.as_slice(), out) {
            Ok(()) => WorkOutcome::Done,
            Err(_) => WorkOutcome::WriteFault,
        },
        Err(_) => WorkOutcome::Memory,
    }
}

/// The answers to the jobs that were handed out.
fn answered(
    alloc: Global,
    network: &Network,
    form: Form,
    handed: &HandedOut,
) -> Result<Vec<Answer>, Memory>
    requires { (j : Jobs) × IsHandedOut (net_of network.now) j handed.now }
    ensures { IfOk result (λ answers. (j : Jobs) → IsHandedOut (net_of network.now) j handed.now
        → IsWorkOn (net_of network.now) form j (answers_text (shown_answers answers))) }
{
    let answers = answers_to(alloc, network, form, &handed.tree, handed.jobs.as_slice())?;
    let _rows = rows(network);
    answers_law(answers.as_slice());
    Ok(answers)
}
