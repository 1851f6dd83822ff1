//! The parts of a certificate, in the order in which they come, each judged before the next is read.

ghost use Rattle.std.specs.Prelude.{◌≡◌, ◌≤◌, ◌*◌, ◌^◌, OnOk, unsigned_abs};
ghost use Rattle.pool_model.specs.Network.{net_of, IsLimited};
ghost use Rattle.pool_model.specs.Starting.{reach_bound};
ghost use Rattle.cert_format.specs.declared.reading.Kind.{Kind as AKind};
ghost use Rattle.cert_items.specs.declared.items.State.TheVariants as states;
ghost use Rattle.cert_stream.specs.Items.{claim_state};
ghost use Rattle.proof_lines.specs.Parts.{Takes};
ghost use Rattle.cert_checker.specs.Parts.{Walks, ReadsClaim, IsBegun, IsRefusedFront, IsSplitList, IsWrongSplitList, opening_kind};
ghost use Rattle.proof_lines.specs.Runs.{moment, IsReady};

use crate::opening::{Opening, read_opening};
use blend_network::Network;
use cert_format::Claim;
use cert_format::reading::Kind;
use cert_stream::{CertReader, ItemFault};
use plan_core::Cost;
use proof_lines::steps::{bound_number, cost_pair, cut, end, gap_number, kind, shape, splits};
use proof_lines::{Refusal, StreamRefusal, tree_bound};
use shelf_calls::Shelf;
use split_tree::SplitTree;
use std::alloc::Global;

/// A certificate that was read to its end: what it claims, what its plan costs, and the bound of its tree.
#[derive(Drop)]
pub(crate) struct Walked {
    pub(crate) claim: Claim,
    pub(crate) cost: Option<Cost>,
    pub(crate) bound: Option<i128>,
}

/// The claim, once the file is read to its end, with what its plan costs and its tree shows; or the first cause to refuse it that
/// is found before.
pub(crate) fn walk<S: Shelf>(
    alloc: Global,
    net: &Network,
    reader: &mut CertReader,
    shelf: &mut S,
) -> Result<Walked, StreamRefusal>
    requires ready { IsReady (moment reader.old (S.told shelf.old)) states.Begin }
    ensures limited { OnOk result (IsLimited (net_of net.now)) }
    ensures reach { OnOk result (unsigned_abs (reach_bound (net_of net.now)) ≤ 256 * 10 ^ 24) }
    ensures walked { Walks (net_of net.now) (moment reader.old (S.told shelf.old)) (moment reader.new (S.told shelf.new)) result }
{
    let kind = begin(net, reader, shelf)?;
    let opening = read_opening(alloc, net, kind, reader, shelf)?;
    let tree = tree(alloc, net, reader, shelf)?;
    let bound = tree_bound(alloc, net, &tree, reader, shelf)?;
    let cost = opening.cost();
    let claim = claim(opening, reader, shelf)?;
    end(reader, shelf)?;
    Ok(Walked { claim, cost, bound })
}

/// The kind of what is claimed, of a certificate with the network's counts.
fn begin<S: Shelf>(
    net: &Network,
    reader: &mut CertReader,
    shelf: &mut S,
) -> Result<Kind, StreamRefusal>
    requires ready { IsReady (moment reader.old (S.told shelf.old)) states.Begin }
    ensures limited { OnOk result (IsLimited (net_of net.now)) }
    ensures begun { Takes (IsBegun (net_of net.now)) (IsRefusedFront (net_of net.now)) (moment reader.old (S.told shelf.old)) (moment reader.new (S.told shelf.new)) result }
{
    let kind = kind(reader, shelf)?;
    let shape = shape(reader, shelf)?;
    if shape != net.counts() {
        return Err(StreamRefusal::Refused(Refusal::Shape));
    }
    Ok(kind)
}

/// The tree of the splits, each judged in the tree of those before it; or the first that may not come next.
fn tree<S: Shelf>(
    alloc: Global,
    net: &Network,
    reader: &mut CertReader,
    shelf: &mut S,
) -> Result<SplitTree, StreamRefusal>
    requires asks { (k : AKind) × IsReady (moment reader.old (S.told shelf.old)) (states.Splits k) }
    ensures { (k : AKind) → reader.old.state ≡ states.Splits k → Takes (IsSplitList (net_of net.now) k) (IsWrongSplitList (net_of net.now))
        (moment reader.old (S.told shelf.old)) (moment reader.new (S.told shelf.new)) result }
{
    let count = splits(reader, shelf)?;
    let mut tree = SplitTree::new(alloc)?;
    for t in 0..count {
        let split = cut(reader, shelf)?;
        match tree.judge(net, &split) {
            Ok(span) => tree.push(split, span)?,
            Err(_) => return Err(StreamRefusal::Refused(Refusal::Split(t))),
        }
    }
    Ok(tree)
}

/// The numbers of the claim, with the plan where there is one.
fn claim<S: Shelf>(
    opening: Opening,
    reader: &mut CertReader,
    shelf: &mut S,
) -> Result<Claim, ItemFault>
    requires ready { IsReady (moment reader.old (S.told shelf.old)) (claim_state (opening_kind opening)) }
    ensures { ReadsClaim opening (moment reader.old (S.told shelf.old)) (moment reader.new (S.told shelf.new)) result }
{
    match opening {
        Opening::Gap(plan, _) => {
            let (cost, base) = cost_pair(reader, shelf)?;
            let bound = bound_number(reader, shelf)?;
            let gap = gap_number(reader, shelf)?;
            Ok(Claim::Gap {
                plan,
                cost,
                base,
                bound,
                gap,
            })
        }
        Opening::Bound => {
            let bound = bound_number(reader, shelf)?;
            Ok(Claim::Bound { bound })
        }
        Opening::NoPlan => Ok(Claim::NoPlan),
    }
}
