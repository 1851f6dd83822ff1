//! Jobs with the tree that they are on.

ghost use Rattle.std.specs.Prelude.{◌≡◌, ℕ, ◌<◌, ◌↔◌, length, map, IfOk, IfErr, IsTrue};
ghost use Rattle.pool_model.specs.Network.{counts_of, net_of};
ghost use Rattle.row_model.specs.Trees.{IsLeaf};
ghost use Rattle.row_model.specs.Entries.{made_by};
ghost use Rattle.box_tree.specs.Kept.{IsOf, searched_of};
ghost use Rattle.work_units.specs.Units.{AreJobs, node_of};
ghost use Rattle.job_texts.specs.Views.{shown_jobs};
ghost use Rattle.job_trees.specs.Fitting.{Fits, bare};

use crate::fault::JobsFault;
use crate::leaves::are_on_leaves;
use crate::splits::tree_of;
use blend_network::Network;
use box_tree::Tree;
use job_texts::JobsText;
use std::alloc::Global;
use work_units::Job;

/// Jobs, and the tree that they are on.
#[derive(Drop)]
pub struct HandedOut {
    /// The tree of the splits, without proofs.
    pub tree: Tree,
    /// The jobs, by number, each on a leaf of the tree.
    pub jobs: Vec<Job>,
}

/// The tree and the jobs that a text names, where they fit the network.
///
/// `Misfit` comes exactly where they don't. Memory is taken for the tree, and a byte for each of its nodes.
pub fn tree_of_jobs(alloc: Global, net: &Network, text: JobsText) -> Result<HandedOut, JobsFault>
    // Promise: Jobs that don't fit the network are refused, and no others, unless memory runs out
    ensures fits { IfOk result (λ _. Fits (net_of net.now) (shown_jobs text)) }
    // Promise: Jobs that don't fit the network are refused, and no others, unless memory runs out
    ensures misfit { IfErr result (λ f. f ≡ JobsFault.Misfit → ¬ Fits (net_of net.now) (shown_jobs text)) }
    ensures tree { IfOk result (λ h. IsOf (net_of net.now) h.tree) }
    // Promise: The tree of jobs is what the splits of their text make of nothing, one after another, without proofs
    ensures made { IfOk result (λ h. searched_of h.tree.kept ≡ made_by (map bare (shown_jobs text).splits)) }
    // Promise: The jobs are those of the text, on different leaves of the tree
    ensures jobs { IfOk result (λ h. h.jobs.items ≡ text.jobs.items) }
    // Promise: The jobs are those of the text, on different leaves of the tree
    ensures are { IfOk result (λ h. AreJobs h.tree.kept.splits.list h.jobs.items) }
    // Promise: The jobs are those of the text, on different leaves of the tree
    ensures leaves { IfOk result (λ h. (k : ℕ) → k < length h.jobs.items → IsLeaf h.tree.kept.splits.list (node_of h.jobs.items k)) }
{
    if !is_shape(net, &text.shape) {
        return Err(JobsFault::Misfit);
    }
    let tree = tree_of(alloc, net, text.splits.as_slice())?;
    if !are_on_leaves(alloc, text.splits.as_slice(), text.jobs.as_slice())? {
        return Err(JobsFault::Misfit);
    }
    Ok(HandedOut {
        tree,
        jobs: text.jobs,
    })
}

/// Whether these are the counts of the network.
fn is_shape(net: &Network, shape: &[u32; 7]) -> bool
    ensures { IsTrue result ↔ (shape.now ≡ counts_of (net_of net.now)) }
{
    *shape == net.counts()
}
