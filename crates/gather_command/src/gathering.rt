//! The command `gather`.

ghost use Rattle.std.specs.Prelude.{◌≡◌, ◌≤◌, ◌^◌, ◌⊎◌, ℕ, List, Option, IsTrue, IfOk, IfErr, OnOk, OnErr, IsErrOf, length, map, string_bytes};
ghost use Rattle.std.specs.List.{Contains};
ghost use Rattle.edge_io.specs.Counts.{Rose};
ghost use Rattle.disk_calls.specs.Disks.{Finds, IsSameDevice};
ghost use Rattle.pool_model.specs.Network.{Net, Network as ANetwork, net_of};
ghost use Rattle.box_tree.specs.Kept.{IsOf};
ghost use Rattle.network_text.specs.Canonical.{canonical_text};
ghost use Rattle.node_journal.specs.Settled.{IsQuiet};
ghost use Rattle.journal_format.specs.declared.fault.JournalFault.TheVariants as journal_faults;
ghost use Rattle.recorded_run.specs.Recorded.{IsFreeFault};
ghost use Rattle.recorded_run.specs.declared.fault.RunFault.TheVariants as run_faults;
ghost use Rattle.work_units.specs.Units.{AreJobs};
ghost use Rattle.gathered_run.specs.Files.{items_of};
ghost use Rattle.gathered_run.specs.declared.fault.GatherFault.TheVariants as gather_faults;
ghost use Rattle.job_texts.specs.Texts.{Jobs};
ghost use Rattle.job_commands.specs.Handed.{IsHandedOut};
ghost use Rattle.job_commands.specs.WorkEnds.{HandsOutUnder};
ghost use Rattle.run_status.specs.Reads.{Files, ReadsUnder};
ghost use Rattle.run_status.specs.Took.{Took};
ghost use Rattle.gather_command.specs.Brought.{IsBrought, IsLeft, IsToldBy, WritesAs};
ghost use Rattle.gather_command.specs.Journaled.{IsAllTold};
ghost use Rattle.gather_command.specs.GatherEnds.{GatherEnds, GatherJournaled, GathersAs, IsBeforeJournal, IsTried, Named, ReadUnder, WantsUnder, gather_status};

use crate::brought::{Brought, brought_under};
use crate::outcome::GatherOutcome;
use crate::told::write_gathered;
use blend_network::Network;
use disk_calls::Disk;
use edge_io::Sink;
use gathered_run::{AnswersFile, GatherFault, Gathered};
use job_commands::HandedOut;
use network_text::write_canonical;
use recorded_run::RunFault;
use run_status::Status;
use shelf_calls::Shelf;
use std::alloc::Global;

/// Gathers the answers in the files of these names to the jobs in the file of the second, which are on a tree of the network in the file of
/// the first, over the journal of the last name: each answer that fits stands in the journal before it is taken. Then it writes what came of
/// each.
///
/// The shelf is asked for the jobs only where a network was read, and for answers only where jobs are handed out; the disk is asked for the
/// journal only where all of these were read.
pub fn gather<S: Shelf, K: Sink, D: Disk>(
    alloc: Global,
    net: &str,
    jobs: &str,
    answers: &[String],
    journal: &str,
    shelf: &mut S,
    out: &mut K,
    disk: &mut D,
) -> GatherOutcome
    requires network { IsTrue ((S.told shelf.old).admits net.now) }
    // Promise: JOBS is asked for only where a network is read from NET
    requires jobs { (network : ANetwork) → ReadsUnder (S.told shelf.old).files net.now network → IsTrue ((S.told shelf.old).admits jobs.now) }
    // Promise: ANSWERS are asked for only where JOBS spells jobs that fit the network
    requires answers { HandsOutUnder (S.told shelf.old).files net.now jobs.now → (name : List ℕ) → Contains (map string_bytes answers.now) name
        → IsTrue ((S.told shelf.old).admits name) }
    // Promise: The disk is asked for the file of `--journal` alone, and only where NET, JOBS and ANSWERS were read
    requires journal { ReadUnder (S.told shelf.old).files (record { net = net.now; jobs = jobs.now; answers = map string_bytes answers.now })
        → IsTrue ((D.told disk.old).admits journal.now) }
    ensures took { Took (GathersAs (S.told shelf.old).files (record { net = net.now; jobs = jobs.now; answers = map string_bytes answers.now }))
        (gather_status result) (K.taken out.old) (K.taken out.new) }
    ensures ends { GatherEnds (S.told shelf.old).files (record { net = net.now; jobs = jobs.now; answers = map string_bytes answers.now })
        (S.told shelf.old).taken (S.told shelf.new).taken (gather_status result) }
    // What is written to the sink tells of what was gathered.
    ensures journal { IsTrue (D.told disk.old).tells →
        GatherJournaled (S.told shelf.old).files (record { net = net.now; jobs = jobs.now; answers = map string_bytes answers.now })
        (D.told disk.old) (D.told disk.new) (gather_status result) (λ text. Took (λ _ t. t ≡ text) (gather_status result) (K.taken out.old) (K.taken out.new)) }
    // Promise: Under 3, 5, 6 and 20 of `gather` the disk is not touched
    ensures apart { IsBeforeJournal (gather_status result) → disk.new ≡ disk.old }
    ensures read_fault { gather_status result ≡ Status.ReadFault → Rose (S.told shelf.old).faults (S.told shelf.new).faults }
    // Promise: Under every status but 20 the count of faults of the shelf is as it was: a call of the shelf that failed is never told as want of
    //   memory (23) or as anything else
    ensures quiet { (gather_status result ≡ Status.ReadFault) ⊎ ((S.told shelf.new).faults ≡ (S.told shelf.old).faults) }
    ensures write_fault { gather_status result ≡ Status.WriteFault → Rose (K.faults out.old) (K.faults out.new) }
    ensures disk_fault { gather_status result ≡ Status.DiskFault → Rose (D.told disk.old).faults (D.told disk.new).faults }
    // Promise: 23 of `gather` comes where the network is to be read, or jobs of one that was read, or answers to jobs that were handed out, or of
    //   the gathering where all were read: what is too long (5) or refused (6) is never told as want of memory
    ensures memory { gather_status result ≡ Status.OutOfMemory
        → WantsUnder (S.told shelf.old).files (record { net = net.now; jobs = jobs.now; answers = map string_bytes answers.now }) result }
{
    match brought_under(alloc, net, jobs, answers, shelf) {
        Ok(brought) => gather_brought(alloc, brought, journal, out, disk),
        Err(outcome) => outcome,
    }
}

/// Gathers the answers that were read, and writes what came of them.
fn gather_brought<K: Sink, D: Disk>(
    alloc: Global,
    brought: Brought,
    journal: &str,
    out: &mut K,
    disk: &mut D,
) -> GatherOutcome
    requires handed { (j : Jobs) × IsHandedOut (net_of brought.network) j brought.handed }
    requires admits { IsTrue ((D.told disk.old).admits journal.now) }
    ensures took { (files : Option Files) (w : Named) → IsBrought files w.net w.jobs w.answers brought
        → Took (GathersAs files w) (gather_status result) (K.taken out.old) (K.taken out.new) }
    ensures tried { IsTried (gather_status result) ⊎ (gather_status result ≡ Status.OutOfMemory) }
    ensures journal { (files : Option Files) (w : Named) → IsBrought files w.net w.jobs w.answers brought → IsTrue (D.told disk.old).tells →
        GatherJournaled files w (D.told disk.old) (D.told disk.new) (gather_status result) (λ text. Took (λ _ t. t ≡ text) (gather_status result) (K.taken out.old) (K.taken out.new)) }
    ensures write_fault { gather_status result ≡ Status.WriteFault → Rose (K.faults out.old) (K.faults out.new) }
    ensures disk_fault { gather_status result ≡ Status.DiskFault → Rose (D.told disk.old).faults (D.told disk.new).faults }
    ensures memory { gather_status result ≡ Status.OutOfMemory → result ≡ GatherOutcome.Ungathered (gather_faults.Run (run_faults.Journal journal_faults.Memory)) }
{
    let Brought {
        network,
        handed,
        files,
    } = brought;
    match gathered_on(alloc, &network, handed, files, journal, disk) {
        Ok(gathered) => tell(&gathered, out),
        Err(fault) => GatherOutcome::Ungathered(fault),
    }
}

/// Gathers answers to jobs that were handed out, over the journal of this name.
fn gathered_on<D: Disk>(
    alloc: Global,
    net: &Network,
    handed: HandedOut,
    files: Vec<AnswersFile>,
    journal: &str,
    disk: &mut D,
) -> Result<Gathered, GatherFault>
    requires jobs { AreJobs handed.tree.kept.splits.list handed.jobs.items }
    requires admits { IsTrue ((D.told disk.old).admits journal.now) }
    ensures tree { IfOk result (λ g. IsOf (net_of net.now) g.desk.tree) }
    ensures told { IfOk result (IsToldBy (net_of net.now) handed.tree.kept.splits.list handed.jobs.items (items_of files.items)) }
    ensures left { IsTrue (D.told disk.old).tells →
        IsLeft (net_of net.now) (canonical_text net.now) handed.tree.kept.splits.list handed.jobs.items (items_of files.items) (D.told disk.old) (D.told disk.new) result }
    ensures failed { IsErrOf result (GatherFault.Run (run_faults.Journal journal_faults.Disk)) → Rose (D.told disk.old).faults (D.told disk.new).faults }
{
    let text = text_beside(alloc, net, journal, disk)?;
    let HandedOut { tree, jobs } = handed;
    gathered_run::gather(alloc, net, &text, tree.splits(), jobs, files, disk)
}

/// The canonical text of the network, with the file of this name attached.
fn text_beside<D: Disk>(
    alloc: Global,
    net: &Network,
    journal: &str,
    disk: &mut D,
) -> Result<Vec<u8>, RunFault>
    requires { IsTrue ((D.told disk.old).admits journal.now) }
    ensures text { IfOk result (λ text. text.items ≡ canonical_text net.now) }
    ensures short { IfOk result (λ text. length text.items ≤ 2 ^ 20) }
    ensures attached { OnOk result (IsTrue (D.told disk.old).tells → Finds (D.told disk.old) (D.told disk.new)) }
    ensures not_attached { OnErr result ((D.told disk.new).attached ≡ (D.told disk.old).attached) }
    ensures quiet { IsQuiet (D.told disk.old) (D.told disk.new) }
    ensures free { IfErr result IsFreeFault }
    ensures failed { IsErrOf result (RunFault.Journal journal_faults.Disk) → Rose (D.told disk.old).faults (D.told disk.new).faults }
    ensures same_device { IsSameDevice (D.told disk.old) (D.told disk.new) }
{
    let text = write_canonical(alloc, net)?;
    disk.attach(journal)?;
    Ok(text)
}

/// Writes what was gathered.
fn tell<K: Sink>(gathered: &Gathered, out: &mut K) -> GatherOutcome
    ensures took { (n : Net) → IsOf n gathered.now.desk.tree → Took (WritesAs n gathered.now) (gather_status result) (K.taken out.old) (K.taken out.new) }
    ensures told { IsAllTold (gather_status result) }
    ensures write_fault { gather_status result ≡ Status.WriteFault → Rose (K.faults out.old) (K.faults out.new) }
{
    match write_gathered(gathered, out) {
        Ok(()) => GatherOutcome::Done,
        Err(_) => GatherOutcome::WriteFault,
    }
}
