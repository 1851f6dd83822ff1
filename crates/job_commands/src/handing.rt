//! The command `jobs`.

ghost use Rattle.std.specs.Prelude.{◌≡◌, ◌≢◌, ◌⊎◌, ℕ, List, Option, IsTrue, IfOk, IsErrOf};
ghost use Rattle.edge_io.specs.Counts.{Rose};
ghost use Rattle.edge_io.specs.Writing.{behind};
ghost use Rattle.pool_model.specs.Network.{net_of};
ghost use Rattle.row_model.specs.Entries.{Entry, made_by};
ghost use Rattle.box_tree.specs.Kept.{IsOf, searched_of};
ghost use Rattle.network_text.specs.Canonical.{canonical_text};
ghost use Rattle.journal_format.specs.declared.fault.JournalFault.TheVariants as journal_faults;
ghost use Rattle.job_texts.specs.Texts.{AreJobs, jobs_text};
ghost use Rattle.job_texts.specs.Views.{shown_jobs};
ghost use Rattle.run_status.specs.Reads.{Files, ReadsUnder};
ghost use Rattle.run_status.specs.Took.{Took};
ghost use Rattle.job_commands.specs.JobsEnds.{AreJobsOf, AreJobsOfOrdered, JobsAs, JobsEnds, WantsMemory, jobs_status};
ghost use Rattle.job_commands.specs.Kept.{IsOpened, JobsJournaled};

use crate::ranges::jobs_law;
use blend_network::Network;
use box_tree::Tree;
use disk_calls::Disk;
use edge_io::{Memory, Sink};
use job_texts::{JobsText, write_jobs};
use journal_status::run_status_of;
use network_text::write_canonical;
use recorded_run::{RunFault, recover};
use run_status::{Status, Unread, network_under};
use shelf_calls::Shelf;
use std::alloc::Global;
use work_units::jobs_of;

/// How `jobs` ended.
#[derive(Debug, Drop)]
pub enum JobsOutcome {
    /// The jobs were written.
    Done,
    /// No network was read.
    Unread(Unread),
    /// No jobs were made of the journal.
    Unrecovered(RunFault),
    /// The sink failed.
    WriteFault,
}

impl From<JobsOutcome> for Status {
    ghost from_gives = { λ outcome status. status ≡ jobs_status outcome };

    fn from(outcome: JobsOutcome) -> Status {
        match outcome {
            JobsOutcome::Done => Status::Done,
            JobsOutcome::Unread(why) => Status::from(why),
            JobsOutcome::Unrecovered(fault) => run_status_of(fault),
            JobsOutcome::WriteFault => Status::WriteFault,
        }
    }
}

/// Makes a job of each of the first so many leaves that may hold a plan, of the tree that the journal of this name holds, and writes the text
/// of the jobs. Nothing is recorded.
pub fn jobs<S: Shelf, K: Sink, D: Disk>(
    alloc: Global,
    net: &str,
    journal: &str,
    count: u32,
    shelf: &mut S,
    out: &mut K,
    disk: &mut D,
) -> JobsOutcome
    requires network { IsTrue ((S.told shelf.old).admits net.now) }
    requires journal { IsTrue ((D.told disk.old).admits journal.now) }
    ensures took { Took (JobsAs (S.told shelf.old).files net.now count) (jobs_status result) (K.taken out.old) (K.taken out.new) }
    ensures ends { JobsEnds (S.told shelf.old).files net.now (S.told shelf.old).taken (S.told shelf.new).taken (jobs_status result) }
    ensures journal { IsTrue (D.told disk.old).tells → JobsJournaled (S.told shelf.old).files net.now count (D.told disk.old) (D.told disk.new)
        (jobs_status result) (λ j. K.taken out.new ≡ behind (K.taken out.old) (jobs_text j)) }
    ensures read_fault { jobs_status result ≡ Status.ReadFault → Rose (S.told shelf.old).faults (S.told shelf.new).faults }
    // Promise: Under every status but 20 the count of faults of the shelf is as it was: a call of the shelf that failed is never told as want of
    //   memory (23) or as anything else
    ensures quiet { (jobs_status result ≡ Status.ReadFault) ⊎ ((S.told shelf.new).faults ≡ (S.told shelf.old).faults) }
    ensures write_fault { jobs_status result ≡ Status.WriteFault → Rose (K.faults out.old) (K.faults out.new) }
    ensures disk_fault { jobs_status result ≡ Status.DiskFault → Rose (D.told disk.old).faults (D.told disk.new).faults }
    // Promise: 23 of `jobs` comes where the network is to be read, or where the journal of one that was read is recovered and jobs are made of it
    ensures memory { jobs_status result ≡ Status.OutOfMemory → WantsMemory (S.told shelf.old).files net.now result }
{
    match network_under(alloc, net, shelf) {
        Ok(network) => hand_out(alloc, &network, journal, count, out, disk),
        Err(why) => JobsOutcome::Unread(why),
    }
}

/// Writes the jobs of the journal of this name, for a network that was read.
fn hand_out<K: Sink, D: Disk>(
    alloc: Global,
    network: &Network,
    journal: &str,
    count: u32,
    out: &mut K,
    disk: &mut D,
) -> JobsOutcome
    requires { IsTrue ((D.told disk.old).admits journal.now) }
    ensures took { (files : Option Files) (net : List ℕ) → ReadsUnder files net network.now
        → Took (JobsAs files net count) (jobs_status result) (K.taken out.old) (K.taken out.new) }
    ensures ends { (files : Option Files) (net : List ℕ) (before after : ℕ) → ReadsUnder files net network.now → JobsEnds files net before after (jobs_status result) }
    ensures journal { (files : Option Files) (net : List ℕ) → ReadsUnder files net network.now → IsTrue (D.told disk.old).tells
        → JobsJournaled files net count (D.told disk.old) (D.told disk.new) (jobs_status result) (λ j. K.taken out.new ≡ behind (K.taken out.old) (jobs_text j)) }
    ensures read { jobs_status result ≢ Status.ReadFault }
    ensures write_fault { jobs_status result ≡ Status.WriteFault → Rose (K.faults out.old) (K.faults out.new) }
    ensures disk_fault { jobs_status result ≡ Status.DiskFault → Rose (D.told disk.old).faults (D.told disk.new).faults }
    ensures memory { (files : Option Files) (net : List ℕ) → ReadsUnder files net network.now → jobs_status result ≡ Status.OutOfMemory → WantsMemory files net result }
{
    match recovered_jobs(alloc, network, journal, count, disk) {
        Ok(text) => match write_jobs(&text, out) {
            Ok(()) => JobsOutcome::Done,
            Err(_) => JobsOutcome::WriteFault,
        },
        Err(fault) => JobsOutcome::Unrecovered(fault),
    }
}

/// The jobs on the tree of the entries in the journal of this name.
fn recovered_jobs<D: Disk>(
    alloc: Global,
    network: &Network,
    journal: &str,
    count: u32,
    disk: &mut D,
) -> Result<JobsText, RunFault>
    requires { IsTrue ((D.told disk.old).admits journal.now) }
    ensures made { IfOk result (λ t. AreJobsOfOrdered (net_of network.now) count (shown_jobs t)) }
    ensures spelled { IfOk result (λ t. AreJobs (shown_jobs t)) }
    ensures journal { IsTrue (D.told disk.old).tells → IsOpened (net_of network.now) (canonical_text network.now) count (D.told disk.old) (D.told disk.new) result }
    ensures failed { IsErrOf result (RunFault.Journal journal_faults.Disk) → Rose (D.told disk.old).faults (D.told disk.new).faults }
{
    let text = write_canonical(alloc, network)?;
    disk.attach(journal)?;
    let recovered = recover(alloc, network, &text, disk)?;
    let jobs = jobs_on(alloc, network, &recovered.tree, count)?;
    Ok(jobs)
}

/// The jobs on a tree, with the network's shape and the tree's splits.
fn jobs_on(alloc: Global, network: &Network, tree: &Tree, count: u32) -> Result<JobsText, Memory>
    requires { IsOf (net_of network.now) tree.now }
    ensures made { IfOk result (λ t. (list : List Entry) → searched_of tree.now.kept ≡ made_by list → AreJobsOf (net_of network.now) count list (shown_jobs t)) }
    ensures spelled { IfOk result (λ t. AreJobs (shown_jobs t)) }
{
    let jobs = jobs_of(alloc, tree, count)?;
    let splits = Vec::from_slice(alloc, tree.splits())?;
    let text = JobsText {
        shape: network.counts(),
        splits,
        jobs,
    };
    jobs_law(&text);
    Ok(text)
}
