//! A leaf, solved: where its program starts.

ghost use Rattle.std.specs.Prelude.{◌≡◌, ◌<◌, Some, IfOk, vec_len};
ghost use Rattle.pool_model.specs.Network.{net_of};
ghost use Rattle.row_model.specs.Trees.{nodes, tree_bound};
ghost use Rattle.box_tree.specs.Kept.{searched_of, IsOf};
ghost use Rattle.leaf_cuts.specs.Benches.{IsBench};
ghost use Rattle.leaf_cuts.specs.Leaves.{IsSolved, IsSolvedLeaf};

use crate::bench::Bench;
use crate::known::KnownAdvice;
use blend_network::Network;
use box_space::{BoxEnds, Form, Proof};
use box_tree::Tree;
use edge_io::Memory;
use lp_simplex::{Advice, start_of_proof};
use std::alloc::Global;

/// How many splits there have to be before a leaf's program starts from a proof. Those before start from nothing: they end at other
/// points of the same cost, and other plans come of these.
const COLD_SPLITS: usize = 7;

/// The same in form P: with seven adhya4 has a gap of 28.1 after 100 splits, with eight to ten one of 1.6.
const MIXED_COLD_SPLITS: usize = 8;

/// A leaf, with advice on its program.
#[derive(Drop)]
pub struct Leaf {
    pub node: u32,
    /// What its halves are proved above, in picos.
    pub bound: i128,
    pub ends: BoxEnds,
    pub advice: Advice,
}

/// The least leaf of a tree, solved, with the bench on which its program of the form stands. What is known of its program is not solved
/// again.
pub fn solve_leaf(
    alloc: Global,
    net: &Network,
    tree: &Tree,
    form: Form,
    pivots: u32,
    bound: i128,
    known: Option<KnownAdvice>,
) -> Result<(Leaf, Bench), Memory>
    requires tree { IsOf (net_of net.now) tree.now }
    requires bound { tree_bound (net_of net.now) (searched_of tree.now.kept).tree ≡ Some bound }
    // Promise: A cut rule sees the least leaf of the tree: a row for each coordinate of the form, with its ends in the leaf's box
    ensures leaf { IfOk result (λ l. IsSolvedLeaf (net_of net.now) (searched_of tree.now.kept) l.0) }
    ensures bench { IfOk result (λ l. IsBench (net_of net.now) l.1) }
    ensures form { IfOk result (λ l. l.1.form ≡ form) }
{
    let Some(node) = tree.least_leaf() else {
        unreachable!()
    };
    solve_node(alloc, net, tree, node, form, pivots, bound, known)
}

/// A node of a tree, solved, with the bench on which its program of the form stands. Its halves will be proved above the bound, whichever
/// that is.
pub fn solve_node(
    alloc: Global,
    net: &Network,
    tree: &Tree,
    node: u32,
    form: Form,
    pivots: u32,
    bound: i128,
    known: Option<KnownAdvice>,
) -> Result<(Leaf, Bench), Memory>
    requires tree { IsOf (net_of net.now) tree.now }
    requires there { node < nodes tree.now.kept.splits.list }
    ensures node { IfOk result (λ l. IsSolved (net_of net.now) tree.now.kept.splits.list node bound l.0) }
    ensures bench { IfOk result (λ l. IsBench (net_of net.now) l.1) }
    ensures form { IfOk result (λ l. l.1.form ≡ form) }
{
    let ends = tree.box_of(net, node)?;
    let bench = Bench::new(alloc, net, form, pivots, &ends)?;
    let advice = advice_at(alloc, tree, node, &bench, known)?;
    let leaf = Leaf {
        node,
        bound,
        ends,
        advice,
    };
    Ok((leaf, bench))
}

/// Advice on the program of a node, which stands on the bench: what is known of it, or new advice.
fn advice_at(
    alloc: Global,
    tree: &Tree,
    node: u32,
    bench: &Bench,
    known: Option<KnownAdvice>,
) -> Result<Advice, Memory>
    ensures { IfOk result (λ a. vec_len a.point ≡ vec_len bench.now.relaxation.low) }
{
    if let Some(known) = known {
        if let Some(advice) = known.at(tree, node, bench) {
            return Ok(advice);
        }
    }
    new_advice(alloc, tree, node, bench)
}

/// Advice on the program of a node, which stands on the bench: from the proof of the nearest node that has one, among the node
/// and those above it.
fn new_advice(alloc: Global, tree: &Tree, node: u32, bench: &Bench) -> Result<Advice, Memory>
    ensures { IfOk result (λ a. vec_len a.point ≡ vec_len bench.now.relaxation.low) }
{
    if tree.splits().len() < cold_splits(bench.form) {
        return bench.advise(alloc);
    }
    match nearest_proof(tree, node) {
        None => bench.advise(alloc),
        Some(proof) => {
            let start = start_of_proof(alloc, bench.program(), proof)?;
            bench.advise_from(alloc, start.as_slice())
        }
    }
}

/// How many splits there have to be before a leaf's program of the form starts from a proof.
fn cold_splits(form: Form) -> usize {
    match form {
        Form::P => MIXED_COLD_SPLITS,
        Form::Q | Form::Pq => COLD_SPLITS,
    }
}

/// The proof of the nearest node that has one, among the node and those above it.
fn nearest_proof(tree: &Tree, node: u32) -> Option<&Proof> {
    let splits = tree.splits();
    let mut node = node;
    // each step leads to a node of a lower number
    for _ in 0..=splits.len() {
        if let Some(proof) = tree.proof_of(node) {
            return Some(proof);
        }
        if node == 0 {
            return None;
        }
        node = splits.get((node as usize - 1) / 2)?.leaf;
    }
    None
}
