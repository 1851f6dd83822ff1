//! The bound of a tree, from the proofs on it.

ghost use Rattle.std.specs.Prelude.{◌≡◌, ◌<◌, ◌≤◌, ◌*◌, ◌^◌, length, get_or, None, if◌then◌else◌, unsigned_abs};
ghost use Rattle.pool_model.specs.Network.{net_of};
ghost use Rattle.pool_model.specs.Starting.{least_below, reach_bound};
ghost use Rattle.row_model.specs.Trees.{is_cut};
ghost use Rattle.split_tree.specs.Splits.{IsOf};
ghost use Rattle.cert_format.specs.declared.reading.Kind.{Kind as AKind};
ghost use Rattle.cert_items.specs.declared.items.State.TheVariants as states;
ghost use Rattle.proof_lines.specs.Parts.{Takes, AreProofs, AreWrongProofs};
ghost use Rattle.proof_lines.specs.Runs.{moment, IsReady};

use crate::line_judge::node_bounds;
use crate::steps::proofs;
use crate::stream_refusal::StreamRefusal;
use blend_network::Network;
use bounds::lesser_bound;
use cert_stream::CertReader;
use shelf_calls::Shelf;
use split_tree::SplitTree;
use std::alloc::Global;

/// The bound of a tree with the proofs that come, None where no leaf may hold a plan; or the first cause to refuse them.
///
/// The reader stands before the count of the proofs, and is left behind the last of them. A line in no place of its own goes before
/// a proof that is not in order, also where it comes later: the lines behind such a proof are read for their places.
pub fn tree_bound<S: Shelf>(
    alloc: Global,
    net: &Network,
    tree: &SplitTree,
    reader: &mut CertReader,
    shelf: &mut S,
) -> Result<Option<i128>, StreamRefusal>
    requires tree { IsOf (net_of net.now) tree.now }
    requires asks { (k : AKind) × IsReady (moment reader.old (S.told shelf.old)) (states.Proofs k) }
    // What the root's bound begins with is no larger than this, in picos.
    ensures reach { unsigned_abs (reach_bound (net_of net.now)) ≤ 256 * 10 ^ 24 }
    // Each line is in its place, each proof in order in its box, and this is the bound that they show; or they are refused.
    // Promise: The proofs on a tree are taken only where each line is in its place and each proof in order in its box, and then with the
    //   bound that they show; else the first line in no place, and where there is none the first node whose proof is not in order, is
    //   refused
    ensures bound { (k : AKind) → reader.old.state ≡ states.Proofs k → Takes (AreProofs (net_of net.now) tree.now.list k) (AreWrongProofs (net_of net.now) tree.now.list)
        (moment reader.old (S.told shelf.old)) (moment reader.new (S.told shelf.new)) result }
{
    let reach = net.reach_bound();
    let count = proofs(reader, shelf)?;
    let bounds = node_bounds(alloc, net, tree, reach, count, reader, shelf)?;
    Ok(least_bound(tree, bounds.as_slice()))
}

/// The least bound of the nodes that no split cuts and that may hold a plan.
fn least_bound(tree: &SplitTree, bounds: &[Option<i128>]) -> Option<i128>
    requires { length bounds.now < 2 ^ 32 }
    ensures { result ≡ least_below (λ node. if is_cut tree.now.list node then None else get_or bounds.now node None) (length bounds.now) }
{
    let mut least = None;
    for node in 0..bounds.len() {
        if !tree.is_cut(node as u32) {
            least = lesser_bound(least, bounds[node]);
        }
    }
    least
}
