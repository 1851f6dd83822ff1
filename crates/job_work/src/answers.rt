//! Answers to jobs, one after another.

ghost use Rattle.std.specs.Prelude.{ℕ, ◌<◌, length, map, IfOk};
ghost use Rattle.pool_model.specs.Network.{IsLimited, net_of};
ghost use Rattle.row_model.specs.Trees.{most_splits, IsLeaf};
ghost use Rattle.box_tree.specs.Kept.{IsOf, searched_of};
ghost use Rattle.branching.specs.Rows.{HasOpen};
ghost use Rattle.branching.specs.declared.name.RuleName.TheVariants as names;
ghost use Rattle.branching.specs.Known.{IsPickedBy};
ghost use Rattle.search_run.specs.Orders.{Keeps};
ghost use Rattle.work_units.specs.Units.{AreJobs, node_of};
ghost use Rattle.work_units.specs.Views.{shown_answer};
ghost use Rattle.job_work.specs.Answered.{AreAnswered, AreWorked, FitDesks};

use crate::leaf::work_leaf;
use blend_network::Network;
use box_space::Form;
use box_tree::Tree;
use branching::{CutRule, LeafView, widest};
use edge_io::Memory;
use std::alloc::Global;
use work_units::{Answer, Job};

/// An answer to each job whose leaf can be cut at a coordinate of the form, in the order of the jobs, and none to the others. The jobs are
/// on leaves of the tree. The only error is want of memory.
pub fn answers_to(
    alloc: Global,
    net: &Network,
    form: Form,
    tree: &Tree,
    jobs: &[Job],
) -> Result<Vec<Answer>, Memory>
    requires tree { IsOf (net_of net.now) tree.now }
    requires jobs { AreJobs tree.now.kept.splits.list jobs.now }
    requires leaves { (k : ℕ) → k < length jobs.now → IsLeaf tree.now.kept.splits.list (node_of jobs.now k) }
    // Promise: There is one answer to each job whose leaf has a coordinate of the form that can be cut, in the order of the jobs, and no other
    ensures answered { IfOk result (λ answers. AreAnswered (net_of net.now) form tree.now.kept.splits.list jobs.now (map shown_answer answers.items)) }
    ensures worked { IfOk result (λ answers. AreWorked (net_of net.now) form (searched_of tree.now.kept) jobs.now (map shown_answer answers.items)) }
    // Promise: A desk over the tree with these jobs takes each answer, while the tree has room for one more split
    ensures fits { length tree.now.kept.splits.list < most_splits
        → IfOk result (λ answers. FitDesks (net_of net.now) (searched_of tree.now.kept) jobs.now (map shown_answer answers.items)) }
{
    let closure = Box::new(
        alloc,
        |view: &LeafView| -> usize
            requires { HasOpen view.now.rows }
            ensures { IsPickedBy names.Widest view.now.rows result }
        { widest(view) },
    )?;
    let rule = CutRule::new(closure);
    // a network in memory keeps within its limits
    let _counts = net.sizes();
    answers_by(alloc, net, form, tree, jobs, &rule)
}

/// The same, by a cut rule that keeps to the widest coordinate.
fn answers_by(
    alloc: Global,
    net: &Network,
    form: Form,
    tree: &Tree,
    jobs: &[Job],
    rule: &CutRule,
) -> Result<Vec<Answer>, Memory>
    requires limited { IsLimited (net_of net.now) }
    requires tree { IsOf (net_of net.now) tree.now }
    requires jobs { AreJobs tree.now.kept.splits.list jobs.now }
    requires leaves { (k : ℕ) → k < length jobs.now → IsLeaf tree.now.kept.splits.list (node_of jobs.now k) }
    requires rule { Keeps names.Widest (⟦<branching::RuleClosure as Fn(&branching::LeafView) -> usize>⟧.post rule.now.closure) }
    ensures answered { IfOk result (λ answers. AreAnswered (net_of net.now) form tree.now.kept.splits.list jobs.now (map shown_answer answers.items)) }
    ensures worked { IfOk result (λ answers. AreWorked (net_of net.now) form (searched_of tree.now.kept) jobs.now (map shown_answer answers.items)) }
    ensures fits { length tree.now.kept.splits.list < most_splits
        → IfOk result (λ answers. FitDesks (net_of net.now) (searched_of tree.now.kept) jobs.now (map shown_answer answers.items)) }
{
    let mut answers = Vec::new(alloc);
    for job in jobs {
        if let Some(entry) = work_leaf(alloc, net, form, tree, job.node, rule)? {
            answers.push(Answer {
                number: job.number,
                entry,
            })?;
        }
    }
    Ok(answers)
}
