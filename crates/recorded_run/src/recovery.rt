//! The journal of a network on the file that is attached, and the tree of its entries.

ghost use Rattle.std.specs.Prelude.{◌≡◌, ◌≤◌, ◌^◌, ◌⊎◌, ℕ, List, Some, false, length, IfOk, IfErr, IsErrAnd, IsErrOf};
ghost use Rattle.edge_io.specs.Counts.{Rose};
ghost use Rattle.disk_calls.specs.Disks.{Reaches, LeavesOnly, IsSameDisk};
ghost use Rattle.pool_model.specs.Network.{net_of};
ghost use Rattle.row_model.specs.Entries as entries;
ghost use Rattle.box_tree.specs.Kept.{IsOf, searched_of};
ghost use Rattle.node_journal.specs.Settled.{IsQuiet};
ghost use Rattle.journal_format.specs.Longest.{longest};
ghost use Rattle.journal_format.specs.declared.fault.JournalFault.TheVariants as journal_faults;
ghost use Rattle.recorded_run.specs.Recorded.{IsNetworksOwn, IsBetween, IsRecovered, IsCause, IsFreeFault, IsLeftAlone, StandsNow};

use crate::fault::RunFault;
use crate::replay::replayed;
use blend_network::Network;
use box_tree::Tree;
use disk_calls::Disk;
use node_journal::{Journal, Opened, largest_payload};
use std::alloc::Global;

/// A journal that was opened, and the tree of the entries that its file stands for.
#[derive(Drop)]
pub struct Recovered {
    pub journal: Journal,
    pub tree: Tree,
}

/// Opens the journal of the network on the file that is attached, and makes the tree of its entries; nothing is recorded. `text` is
/// the network's canonical text.
pub fn recover<D: Disk>(
    alloc: Global,
    net: &Network,
    text: &[u8],
    disk: &mut D,
) -> Result<Recovered, RunFault>
    requires attached { Reaches (D.told disk.old) 0 }
    requires text { length text.now ≤ 2 ^ 20 }

    ensures tree { IfOk result (λ r. IsOf (net_of net.now) r.tree) }
    // The tree is that of all entries that the file stands for, and the disk holds them.
    ensures found { IfOk result (λ r. IsRecovered (net_of net.now) text.now r.journal.next (searched_of r.tree.kept) (D.told disk.old) (D.told disk.new)) }
    // The journal takes each entry that is in order.
    ensures largest { IfOk result (λ r. r.journal.largest ≡ longest (net_of net.now)) }
    ensures usable { IfOk result (λ r. r.journal.failed ≡ false) }
    // A crash at any moment leaves what it might have left before, or the network's own file for the same list; and where memory ran out
    // the file stands for that list.
    ensures any_moment { (file : List ℕ) (first : List entries.Entry) → (D.told disk.old).reads ≡ Some file → IsNetworksOwn (net_of net.now) text.now first file →
        LeavesOnly (D.told disk.old) (D.told disk.new) (λ c. (D.told disk.old).may_leave c ⊎ IsBetween (net_of net.now) text.now first first c) }
    ensures kept { IsErrOf result (RunFault.Journal journal_faults.Memory) → (file : List ℕ) (first : List entries.Entry) →
        (D.told disk.old).reads ≡ Some file → IsNetworksOwn (net_of net.now) text.now first file → StandsNow (net_of net.now) text.now first (D.told disk.new) }

    // A refusal has its cause in the file, and a cause that is there is answered, unless disk or memory failed.
    ensures refused { IfErr result (λ f. (file : List ℕ) → (D.told disk.old).reads ≡ Some file → IsFreeFault f ⊎ IsCause (net_of net.now) text.now file f) }
    ensures decided { (file : List ℕ) (cause : RunFault) → (D.told disk.old).reads ≡ Some file → IsCause (net_of net.now) text.now file cause →
        IsErrAnd result (λ f. IsFreeFault f ⊎ (f ≡ cause)) }
    // The network's own file is never refused, and a file of which no journal is opened is left as it is.
    ensures taken { (file : List ℕ) (first : List entries.Entry) → (D.told disk.old).reads ≡ Some file → IsNetworksOwn (net_of net.now) text.now first file → IfErr result IsFreeFault }
    ensures untouched { IfErr result (λ f. IsLeftAlone f (IsQuiet (D.told disk.old) (D.told disk.new))) }
    ensures failed { IsErrOf result (RunFault.Journal journal_faults.Disk) → Rose (D.told disk.old).faults (D.told disk.new).faults }
    ensures same_disk { IsSameDisk (D.told disk.old) (D.told disk.new) }
{
    let largest = largest_payload(net);
    let opened = Journal::open(alloc, disk, text, largest)?;
    let Opened {
        journal,
        entries,
        turn_at,
    } = opened;
    let tree = replayed(alloc, net, entries, turn_at)?;
    Ok(Recovered { journal, tree })
}
