//! The tree of entries that were recorded.

ghost use Rattle.std.specs.Prelude.{◌≡◌, ◌^◌, ◌<◌, map, IfOk, IfErr};
ghost use Rattle.pool_model.specs.Network.{net_of};
ghost use Rattle.row_model.specs.Entries.{made_by, AreInOrder};
ghost use Rattle.box_tree.specs.Kept.{IsOf, searched_of};
ghost use Rattle.box_tree.specs.Views.{shown_entry};
ghost use Rattle.journal_format.specs.Histories as histories;
ghost use Rattle.journal_format.specs.declared.fault.JournalFault.TheVariants as journal_faults;
ghost use Rattle.recorded_run.specs.Recorded.{IsReplayFault, refused_as};

use crate::fault::RunFault;
use blend_network::Network;
use box_tree::{Entry, EntryFault, Tree};
use node_journal::JournalFault;
use std::alloc::Global;

/// The tree of the entries, each taken after those before it. `turn_at` is the number of the Turn's record among theirs.
pub(crate) fn replayed(
    alloc: Global,
    net: &Network,
    entries: Vec<Entry>,
    turn_at: Option<u64>,
) -> Result<Tree, RunFault>
    ensures tree { IfOk result (λ t. IsOf (net_of net.now) t) }
    ensures made { IfOk result (λ t. searched_of t.kept ≡ made_by (map shown_entry entries.items)) }
    ensures in_order { IfOk result (λ t. AreInOrder (net_of net.now) (map shown_entry entries.items)) }
    ensures fault { IfErr result (IsReplayFault (net_of net.now) (map shown_entry entries.items) turn_at) }
{
    let mut tree = Tree::start(alloc, net)?;
    let mut number = 0;
    for entry in entries {
        match tree.apply(net, entry) {
            Ok(()) => number += 1,
            Err(fault) => return Err(refusal_at(record_of(turn_at, number), fault)),
        }
    }
    Ok(tree)
}

/// The number of the record that holds the entry of this number, where the Turn stands in its record, if at all.
fn record_of(turn_at: Option<u64>, entry: u64) -> u64
    requires { entry < 2 ^ 63 }
    ensures { result ≡ histories.record_of turn_at entry }
{
    match turn_at {
        Some(turn) => { if turn <= entry { entry + 1 } else { entry } }
        None => entry,
    }
}

/// What the run answers where the entry in the record of this number is not taken.
fn refusal_at(number: u64, fault: EntryFault) -> RunFault
    ensures { result ≡ refused_as number fault }
{
    match fault {
        EntryFault::Memory => RunFault::Journal(JournalFault::Memory),
        _ => RunFault::OutOfOrder(number),
    }
}
