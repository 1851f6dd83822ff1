//! Whether jobs are on different leaves.

ghost use Rattle.std.specs.Prelude.{◌≡◌, ℕ, ◌<◌, ◌≤◌, ◌↔◌, length, get_or, map, false, IfOk, IsTrue};
ghost use Rattle.row_model.specs.Trees.{is_cut, most_splits, nodes};
ghost use Rattle.box_space.specs.Views.{shown_split};
ghost use Rattle.job_trees.specs.Fitting.{AreOnLeaves};

use box_space::Split;
use edge_io::Memory;
use std::alloc::Global;
use work_units::Job;

/// Whether the jobs are numbered from 0 in order, and on different leaves of the tree of the splits.
pub(crate) fn are_on_leaves(alloc: Global, splits: &[Split], jobs: &[Job]) -> Result<bool, Memory>
    requires { length splits.now ≤ most_splits }
    ensures { IfOk result (λ b. IsTrue b ↔ AreOnLeaves (map shown_split splits.now) jobs.now) }
{
    let mut taken = cut_nodes(alloc, splits)?;
    for (i, job) in jobs.iter().enumerate() {
        if !is_next(job, i, taken.as_slice()) {
            return Ok(false);
        }
        taken[job.node as usize] = true;
    }
    Ok(true)
}

/// Whether a job has the number of its place, and is on a node that is free.
fn is_next(job: &Job, i: usize, taken: &[bool]) -> bool
    ensures { IsTrue result ↔ ((job.now.number ≡ i) × (job.now.node < length taken.now) × (get_or taken.now job.now.node false ≡ false)) }
{
    job.number as usize == i && is_free(taken, job.node)
}

/// Whether a node is one of the tree, and neither cut nor given to a job.
fn is_free(taken: &[bool], node: u32) -> bool
    ensures { IsTrue result ↔ ((node < length taken.now) × (get_or taken.now node false ≡ false)) }
{
    match taken.get(node as usize) {
        Some(taken) => !*taken,
        None => false,
    }
}

/// For each node whether a split cuts it, by number.
fn cut_nodes(alloc: Global, splits: &[Split]) -> Result<Vec<bool>, Memory>
    requires { length splits.now ≤ most_splits }
    ensures many { IfOk result (λ cut. length cut.items ≡ nodes (map shown_split splits.now)) }
    ensures cut { IfOk result (λ cut. (node : ℕ) → node < nodes (map shown_split splits.now) → get_or cut.items node false ≡ is_cut (map shown_split splits.now) node) }
{
    let mut cut = vec![in alloc; false; 2 * splits.len() + 1]?;
    for split in splits {
        let node = split.leaf as usize;
        if node < cut.len() {
            cut[node] = true;
        }
    }
    Ok(cut)
}
