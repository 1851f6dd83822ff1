//! Answers are gathered, from the file of the journal to the desk after the last one.

ghost use Rattle.std.specs.Prelude.{◌≡◌, ◌≤◌, ◌^◌, ◌⊎◌, ℕ, List, Some, length, map, IfOk, IfErr, IsErrAnd, IsErrOf, MatchResult};
ghost use Rattle.edge_io.specs.Counts.{Rose};
ghost use Rattle.disk_calls.specs.Disks.{Reaches, IsSameDisk};
ghost use Rattle.pool_model.specs.Network.{net_of};
ghost use Rattle.row_model.specs.Entries as entries;
ghost use Rattle.box_space.specs.Views.{shown_split};
ghost use Rattle.box_tree.specs.Kept.{IsOf};
ghost use Rattle.journal_format.specs.Files.{Stands};
ghost use Rattle.journal_format.specs.declared.fault.JournalFault.TheVariants as journal_faults;
ghost use Rattle.node_journal.specs.Settled.{IsQuiet};
ghost use Rattle.recorded_run.specs.Recorded.{IsNetworksOwn, StandsNow};
ghost use Rattle.recorded_run.specs.Sessions.{IsGrownFrom};
ghost use Rattle.recorded_run.specs.declared.fault.RunFault.TheVariants as run_faults;
ghost use Rattle.work_units.specs.Units.{AreJobs};
ghost use Rattle.gathered_run.specs.Causes.{IsCause, IsFreeFault, IsLeftAlone};
ghost use Rattle.gathered_run.specs.Files.{items_of};
ghost use Rattle.gathered_run.specs.Gatherings.{IsGathered, IsGrownByTaken, IsBrokenOff};

use crate::fault::GatherFault;
use crate::files::AnswersFile;
use crate::gathering::Gathering;
use crate::prefix::begin_with;
use crate::told::Gathered;
use blend_network::Network;
use box_space::Split;
use disk_calls::Disk;
use recorded_run::{Recovered, recover};
use std::alloc::Global;
use work_units::{Desk, Job, deliveries_law};

/// Opens the journal of the network on the file that is attached, and takes the answers of all files in order, on a desk over the tree of
/// its entries. `splits` are those of the tree that the jobs were handed out of, and `text` is the network's canonical text. Each entry is
/// on the disk before the desk takes its answer.
pub fn gather<D: Disk>(
    alloc: Global,
    net: &Network,
    text: &[u8],
    splits: &[Split],
    jobs: Vec<Job>,
    files: Vec<AnswersFile>,
    disk: &mut D,
) -> Result<Gathered, GatherFault>
    requires attached { Reaches (D.told disk.old) 0 }
    requires text { length text.now ≤ 2 ^ 20 }
    requires jobs { AreJobs (map shown_split splits.now) jobs.items }

    ensures tree { IfOk result (λ g. IsOf (net_of net.now) g.desk.tree) }
    // Over every disk, real files too: each answer is judged on the desk after those before it, and told of.
    ensures gathered { IfOk result (IsGathered (net_of net.now) text.now (map shown_split splits.now) jobs.items (items_of files.items) (D.told disk.old)) }
    // Promise: On the network's own file a crash at any moment of a gathering leaves a file from before, or the network's own for a list between
    //   the first and the last, which goes on with the entries of answers that fit
    ensures any_moment { (file : List ℕ) (first : List entries.Entry) → (D.told disk.old).reads ≡ Some file → IsNetworksOwn (net_of net.now) text.now first file →
        IsGrownFrom (net_of net.now) text.now first (D.told disk.old) (D.told disk.new) (λ last. MatchResult result
        (IsGrownByTaken (net_of net.now) text.now first last (D.told disk.new))
        (IsBrokenOff (net_of net.now) text.now jobs.items (items_of files.items) first last (D.told disk.new))) }

    // Promise: A gathering is refused only for a cause in the file, and such a cause is always the answer, unless disk or memory failed: the
    //   journal's fault, or that its tree doesn't begin with the splits of the jobs
    ensures refused { IfErr result (λ f. (file : List ℕ) → (D.told disk.old).reads ≡ Some file →
        IsFreeFault f ⊎ IsCause (net_of net.now) text.now (map shown_split splits.now) file f) }
    // Promise: A gathering is refused only for a cause in the file, and such a cause is always the answer, unless disk or memory failed: the
    //   journal's fault, or that its tree doesn't begin with the splits of the jobs
    ensures decided { (file : List ℕ) (cause : GatherFault) → (D.told disk.old).reads ≡ Some file → IsCause (net_of net.now) text.now (map shown_split splits.now) file cause →
        IsErrAnd result (λ f. IsFreeFault f ⊎ (f ≡ cause)) }
    // Promise: The network's own file is never refused by a gathering, but for another tree
    ensures taken { (file : List ℕ) (first : List entries.Entry) → (D.told disk.old).reads ≡ Some file → IsNetworksOwn (net_of net.now) text.now first file →
        IfErr result (λ f. IsFreeFault f ⊎ (f ≡ GatherFault.OtherTree)) }
    // Promise: A file of which a gathering opens no journal is left as it is, unless disk or memory failed
    ensures untouched { IfErr result (λ f. IsLeftAlone f (IsQuiet (D.told disk.old) (D.told disk.new))) }
    // Promise: Where the tree is another, the file stands for what it stood for
    ensures unchanged { IsErrOf result GatherFault.OtherTree → (file : List ℕ) (list : List entries.Entry) → (D.told disk.old).reads ≡ Some file → Stands file text.now list →
        StandsNow (net_of net.now) text.now list (D.told disk.new) }
    // Promise: A gathering answers a fault of the disk only where the disk's own count of faults rose
    ensures failed { IsErrOf result (GatherFault.Run (run_faults.Journal journal_faults.Disk)) → Rose (D.told disk.old).faults (D.told disk.new).faults }
    ensures same_disk { IsSameDisk (D.told disk.old) (D.told disk.new) }
{
    let recovered = recover(alloc, net, text, disk)?;
    let Recovered { journal, tree } = recovered;
    if !begin_with(tree.splits(), splits) {
        return Err(GatherFault::OtherTree);
    }
    let desk = Desk::start(alloc, tree, jobs)?;
    let lines = Vec::new(alloc);
    let mut gathering = Gathering {
        journal,
        desk,
        lines,
    };
    gathering.take_files(net, disk, files)?;
    // The tree is the one that the answers make which fit.
    deliveries_law();
    let Gathering {
        journal: _,
        desk,
        lines,
    } = gathering;
    Ok(Gathered { lines, desk })
}
