//! Desks, where answers are taken.

ghost use Rattle.std.specs.Prelude.{◌≡◌, ◌≢◌, ℕ, ◌<◌, ◌+◌, ◌*◌, ◌≤◌, [], length, get_or, map, false, IfOk, IfErr, MatchOption};
ghost use Rattle.pool_model.specs.Network.{Net, net_of};
ghost use Rattle.row_model.specs.Trees.{nodes, is_cut, most_splits};
ghost use Rattle.row_model.specs.Entries.{Searched};
ghost use Rattle.box_space.specs.Views.{shown_split};
ghost use Rattle.box_tree.specs.Kept.{IsOf, searched_of};
ghost use Rattle.box_tree.specs.declared.entry.EntryFault.TheVariants as entry_faults;
ghost use Rattle.work_units.specs.Units.{AreJobs, node_of};
ghost use Rattle.work_units.specs.Views.{shown_answer};
ghost use Rattle.work_units.specs.Desks.{desk_of, AreFlagged, IsFrom};
ghost use Rattle.work_units.specs.Judging.{IsAtJob, IsDismissed, IsJudged, after_delivery};

use crate::answer::{Answer, Judged, copied, refused, splits_node};
use crate::job::Job;
use blend_network::Network;
use box_space::Split;
use box_tree::Tree;
use edge_io::Memory;
use std::alloc::{AllocError, Global};
use std::marker::Model;

/// A tree, jobs on its nodes, and the answers that were taken. It keeps for each job whether it is answered.
#[derive(Drop)]
pub struct Desk {
    pub(crate) tree: Tree,
    pub(crate) jobs: Vec<Job>,
    pub(crate) answered: Vec<bool>,
    pub(crate) taken: Vec<Answer>,
    pub(crate) alloc: Global,
}

impl Model for Desk {
    ghost use Rattle.std.specs.Prelude.{map};
    ghost use Rattle.work_units.specs.Views.{shown_answer};
    ghost use Rattle.work_units.specs.Desks.{Kept, AreFlagged};

    ghost Value = { Kept };

    ghost view = { λ d. record { tree = d.tree; jobs = d.jobs.items; taken = map shown_answer d.taken.items } };

    ghost invariant = { λ d. AreFlagged d.tree.kept.splits.list d.jobs.items d.answered.items };
}

impl Desk {
    /// A desk over a tree, before any answer. A job whose node is cut counts as answered.
    pub fn start(alloc: Global, tree: Tree, jobs: Vec<Job>) -> Result<Desk, Memory>
        requires tree { (n : Net) × IsOf n tree }
        requires jobs { AreJobs tree.kept.splits.list jobs.items }
        ensures tree { IfOk result (λ d. d.tree ≡ tree) }
        ensures jobs { IfOk result (λ d. d.jobs ≡ jobs.items) }
        ensures taken { IfOk result (λ d. d.taken ≡ []) }
        ensures from { (n : Net) → IsOf n tree → IfOk result (λ d. IsFrom n (searched_of tree.kept) (desk_of d)) }
    {
        let cut = cut_nodes(alloc, tree.splits())?;
        let answered = flags_of(alloc, cut.as_slice(), jobs.as_slice())?;
        Ok(Desk {
            tree,
            jobs,
            answered,
            taken: Vec::new(alloc),
            alloc,
        })
    }

    /// Judges an answer, as [`Desk::judge`] does; where it fits, its entry is applied to the tree and its job is answered.
    pub fn deliver(&mut self, net: &Network, answer: Answer) -> Result<Judged, Memory>
        requires { IsOf (net_of net.now) self.old.tree }
        // Promise: Each answer is judged as the definition says
        ensures judged { IfOk result (IsJudged (net_of net.now) (desk_of self.old) (shown_answer answer)) }
        // Promise: An answer that fits is applied and taken, and any other changes nothing
        ensures after { IfOk result (λ j. desk_of self.new ≡ after_delivery (desk_of self.old) (shown_answer answer) j) }
        // Promise: Where memory runs out the desk is unchanged
        ensures unchanged { IfErr result (λ _. desk_of self.new ≡ desk_of self.old) }
        // Promise: The tree is always that of the start with the entries of the taken answers, one after another
        ensures from { (s : Searched) → IsFrom (net_of net.now) s (desk_of self.old) → IsFrom (net_of net.now) s (desk_of self.new) }
        ensures tree { IsOf (net_of net.now) self.new.tree }
        // Promise: No answer is refused for a leaf that is cut, or for memory
        ensures never { IfOk result (λ j. (j ≢ Judged.Refused entry_faults.NotALeaf) × (j ≢ Judged.Refused entry_faults.Memory)) }
    {
        if let Some(judged) = self.dismissed(&answer) {
            return Ok(judged);
        }
        let copy = copied(self.alloc, &answer)?;
        self.taken.reserve(1)?;
        match self.tree.apply(net, answer.entry) {
            Ok(()) => {
                self.answered[answer.number as usize] = true;
                self.taken.push_reserved(copy);
                Ok(Judged::Fits)
            }
            Err(fault) => refused(fault),
        }
    }

    /// The tree so far.
    pub fn tree(&self) -> &Tree
        ensures { result.now ≡ self.now.tree }
    {
        &self.tree
    }

    /// The jobs, by number.
    pub fn jobs(&self) -> &[Job]
        ensures jobs { result.now ≡ self.now.jobs }
        ensures there { AreJobs self.now.tree.kept.splits.list self.now.jobs }
    {
        self.jobs.as_slice()
    }

    /// The answers that were taken, in the order in which they came.
    pub fn taken(&self) -> &[Answer]
        ensures { map shown_answer result.now ≡ self.now.taken }
    {
        self.taken.as_slice()
    }

    /// How an answer is judged without a look at its proofs; None where it brings a split of the node of a job that waits.
    pub(crate) fn dismissed(&self, answer: &Answer) -> Option<Judged>
        ensures dismissed { MatchOption result (IsAtJob (desk_of self.now) (shown_answer answer.now)) (IsDismissed (desk_of self.now) (shown_answer answer.now)) }
        ensures there { AreJobs self.now.tree.kept.splits.list self.now.jobs }
    {
        let number = answer.number as usize;
        if number >= self.jobs.len() {
            return Some(Judged::Stranger);
        }
        if self.answered.as_slice()[number] {
            return Some(Judged::Repeated);
        }
        if splits_node(&answer.entry, self.jobs.as_slice()[number].node) {
            None
        } else {
            Some(Judged::Wrong)
        }
    }
}

/// For each node whether a split cuts it, by number.
fn cut_nodes(alloc: Global, splits: &[Split]) -> Result<Vec<bool>, AllocError>
    requires { length splits.now ≤ most_splits }
    ensures many { IfOk result (λ cut. length cut.items ≡ nodes (map shown_split splits.now)) }
    ensures cut { IfOk result (λ cut. (node : ℕ) → node < nodes (map shown_split splits.now) → get_or cut.items node false ≡ is_cut (map shown_split splits.now) node) }
{
    let mut cut = vec![in alloc; false; 2 * splits.len() + 1]?;
    for split in splits {
        let node = split.leaf as usize;
        if node < cut.len() {
            cut[node] = true;
        }
    }
    Ok(cut)
}

/// For each job whether its node is marked.
fn flags_of(alloc: Global, cut: &[bool], jobs: &[Job]) -> Result<Vec<bool>, AllocError>
    requires { (k : ℕ) → k < length jobs.now → node_of jobs.now k < length cut.now }
    ensures many { IfOk result (λ flags. length flags.items ≡ length jobs.now) }
    ensures flags { IfOk result (λ flags. (k : ℕ) → k < length jobs.now → get_or flags.items k false ≡ get_or cut.now (node_of jobs.now k) false) }
{
    let mut flags = Vec::with_capacity(alloc, jobs.len())?;
    for job in jobs {
        flags.push(cut[job.node as usize])?;
    }
    Ok(flags)
}
