//! A run of splits that is stopped in each call of the disk, and goes on.

ghost use Rattle.std.specs.Prelude.{IsTrue};

use blend_network::Network;
use box_space::Form;
use branching::RuleName;
use disk_calls::Disk;
use edge_io::Memory;
use node_journal::{Journal, JournalFault};
use recorded_run::{Outcome, RunFault, run_recorded};
use search_core::Ended;
use search_run::Orders;
use std::alloc::Global;
use std::test::Fail;
use worked_devices::{TestDisk, disk_of, file_of};
use worked_networks::{HAVERLY_1, network};

/// A text for the network. A run compares it with that of the file, and nothing more.
const TEXT: &[u8] = b"Haverly 1";

/// Runs the search to gap 0 or 3 splits, over the file of the disk.
fn run<D: Disk>(alloc: Global, net: &Network, disk: &mut D) -> Result<Outcome, RunFault>
    requires { (name : _) → IsTrue ((D.told disk.old).admits name) }
{
    disk.attach("journal")?;
    let orders = Orders {
        form: Form::Pq,
        nodes: 3,
        gap: 0,
        rule: RuleName::Violated,
        squeeze: false,
        raise: 0,
    };
    run_recorded(alloc, net, TEXT, orders, disk)
}

/// Whether a run closed at a cost, in money, with its plan.
fn closed_at(outcome: &Outcome, money: i128) -> bool {
    let Some(cost) = outcome.tree.best_cost() else {
        return false;
    };
    let picos = i128::from(cost.base)
        .saturating_mul(money)
        .saturating_mul(1_000_000_000_000);
    outcome.ended == Ended::Closed && cost.num == picos
}

/// Whether a run over this disk closes at the best cost; None where it is refused.
pub(crate) fn is_closed(alloc: Global, net: &Network, disk: &mut TestDisk) -> Option<bool> {
    match run(alloc, net, disk) {
        Ok(outcome) => Some(closed_at(&outcome, -400)),
        Err(_) => None,
    }
}

/// How many entries the journal of a file has.
fn entries_in(alloc: Global, file: &[u8]) -> Result<u64, JournalFault> {
    let mut disk = disk_of(alloc, &[file], 1_000)?;
    entries_on(alloc, &mut disk)
}

/// How many entries the journal of the disk's file has.
fn entries_on(alloc: Global, disk: &mut TestDisk) -> Result<u64, JournalFault> {
    disk.attach("journal")?;
    let opened = Journal::open(alloc, disk, TEXT, 2_000)?;
    Ok(opened.entries.len() as u64)
}

/// Whether a run over a file of these bytes closes at the best cost.
fn is_closed_over(alloc: Global, net: &Network, file: &[u8]) -> Result<bool, Memory> {
    let mut disk = disk_of(alloc, &[file], 1_000)?;
    Ok(is_closed(alloc, net, &mut disk) == Some(true))
}

/// An image of this file once a run over it was stopped in this call, and whether the run ended before.
fn image_after(
    alloc: Global,
    net: &Network,
    file: &[u8],
    call: u64,
) -> Result<(Vec<u8>, bool), Memory> {
    let mut disk = disk_of(alloc, &[file], call)?;
    let ended = is_closed(alloc, net, &mut disk).is_some();
    Ok((last_image(&disk, call % 8)?, ended))
}

/// An image of the last moment of a disk.
pub(crate) fn last_image(disk: &TestDisk, choice: u64) -> Result<Vec<u8>, Memory> {
    let file = file_of(disk);
    file.image(file.moment(), choice)
}

/// The calls of the system before the first entry that a run adds: of a new journal, and with the Turn of one of version 1.
const BEFORE: u64 = 13;

/// How many entries are on the disk, at the least and at the most, where a run over a file of so many is stopped in this call. Each takes
/// four calls.
fn on_disk(held: u64, call: u64) -> (u64, u64) {
    let least = (call.saturating_sub(BEFORE) / 4).saturating_add(held);
    let most = if call < BEFORE {
        held
    } else {
        least.saturating_add(1)
    };
    (least, most)
}

/// Stops a run over a file of so many entries in a call, and goes on from an image: whether the entries were found that were on the disk,
/// or one more where one was being recorded, and the best cost is reached.
fn goes_on_after(
    alloc: Global,
    net: &Network,
    file: &[u8],
    held: u64,
    call: u64,
) -> Result<bool, RunFault> {
    let (image, ended) = image_after(alloc, net, file, call)?;
    let found = entries_in(alloc, &image)?;
    let (least, most) = on_disk(held, call);
    let kept = ended || (least <= found && found <= most);
    Ok(kept && is_closed_over(alloc, net, &image)?)
}

/// The first of so many calls in which a run over a file of so many entries is stopped and does not go on.
pub(crate) fn first_lost(
    alloc: Global,
    net: &Network,
    file: &[u8],
    held: u64,
    calls: u64,
) -> Option<u64> {
    for call in 0..calls {
        match goes_on_after(alloc, net, file, held, call) {
            Ok(true) => {}
            _ => return Some(call),
        }
    }
    None
}

#[test]
fn a_run_goes_on_from_a_stop_in_any_call(rt: HostRuntime) -> Result<(), Fail> {
    let net = network(rt.alloc(), HAVERLY_1)?;
    assert_eq!(rt; first_lost(rt.alloc(), &net, b"", 0, 42), None);
    Ok(())
}
