//! Jobs: leaves that are handed out.

ghost use Rattle.std.specs.Prelude.{ℕ, ◌<◌, IfOk};
ghost use Rattle.pool_model.specs.Network.{Net};
ghost use Rattle.box_tree.specs.Kept.{IsOf, searched_of};
ghost use Rattle.work_units.specs.Units.{AreJobs};
ghost use Rattle.work_units.specs.Handed.{AreFirstJobs};

use box_tree::Tree;
use edge_io::Memory;
use std::alloc::Global;

/// A leaf that is handed out.
#[derive(Clone, Copy, Debug, PartialEq, Eq)]
pub struct Job {
    /// The number of the job, from 0.
    pub number: u32,
    /// The leaf.
    pub node: u32,
}

/// A job for each of the first so many leaves that may hold a plan, by bound and then by number.
pub fn jobs_of(alloc: Global, tree: &Tree, most: u32) -> Result<Vec<Job>, Memory>
    requires { (n : Net) × IsOf n tree.now }
    // Promise: There is a job for each of the first so many leaves that may hold a plan, numbered in their order
    ensures first { (n : Net) → IsOf n tree.now → IfOk result (λ jobs. AreFirstJobs n (searched_of tree.now.kept).tree most jobs.items) }
    // Promise: The jobs of a tree are numbered from 0 in order, and are on different nodes of the tree
    ensures jobs { IfOk result (λ jobs. AreJobs tree.now.kept.splits.list jobs.items) }
{
    let leaves = tree.open_leaves(most)?;
    let mut jobs = Vec::with_capacity(alloc, leaves.len())?;
    for i in 0..leaves.len() {
        jobs.push(Job {
            number: i as u32,
            node: leaves[i],
        })?;
    }
    Ok(jobs)
}
