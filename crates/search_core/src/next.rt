//! What a search does next.

ghost use Rattle.std.specs.Prelude.{◌≡◌, ◌⊎◌, IfOk, None, Some, option_map};
ghost use Rattle.pool_model.specs.Network.{net_of};
ghost use Rattle.row_model.specs.Trees.{tree_bound};
ghost use Rattle.row_model.specs.Entries.{IsEntryInOrder};
ghost use Rattle.box_tree.specs.Views.{shown_entry};
ghost use Rattle.leaf_cuts.specs.Benches.{IsBench};
ghost use Rattle.leaf_cuts.specs.Leaves.{IsSolvedLeaf};
ghost use Rattle.search_core.specs.Searches.{searched, IsSearchOf};
ghost use Rattle.search_core.specs.Cases.{HasPlan};
ghost use Rattle.search_core.specs.Next.{IsRooted, IsNext, IsDo, IsAnswer, tried_at, tried_of};

use crate::cases::copy;
use crate::ended::Ended;
use crate::options::Options;
use crate::search::Search;
use blend_network::Network;
use box_tree::Entry;
use branching::CutRule;
use edge_io::Memory;
use leaf_cuts::{Bench, KnownAdvice, Leaf, SolvedCuts, solve_leaf};
use std::alloc::{AllocError, Global};

/// What a search does next, or how it ended.
#[derive(Debug, Drop)]
pub enum Next {
    /// This entry.
    Do(Entry),
    /// Nothing more.
    End(Ended),
}

/// What is due, and the point beside it from which a repaired plan was looked for, where one was.
#[derive(Debug, Drop)]
pub struct Answer {
    pub due: Next,
    /// A number for each variable of the programs.
    pub tried: Option<Vec<i128>>,
    /// Which cuts of the least leaf were solved, where it was: from there other parts of it can be solved. It is advice.
    pub solved: SolvedCuts,
}

impl Answer {
    /// What is due where no point was tried.
    fn untried(alloc: Global, due: Next) -> Answer
        ensures due { result.due ≡ due }
        ensures tried { result.tried ≡ None }
    {
        Answer {
            due,
            tried: None,
            solved: SolvedCuts::none(alloc),
        }
    }
}

impl Search {
    /// What comes next: the first case that applies. An entry is in order on the tree, so that [`Search::take`] takes it or meets
    /// want of memory. What one call leaves known is handed to the next, so that no program is solved twice; it may be `None` at any time.
    pub fn next(
        &self,
        alloc: Global,
        net: &Network,
        rule: &CutRule,
        known: &mut Option<KnownAdvice>,
    ) -> Result<Answer, Memory>
        requires { IsSearchOf (net_of net.now) self.now }
        // Promise: What comes next is the first case that applies, by the tree, the cheapest start and what is asked
        // Promise: Where no plan was repaired since the last proof or split, and no earlier case applies, a point is tried and answered: a
        //   repaired plan is no dearer than the plain plan of that very point, where that obeys, and none comes only where the plain plan of
        //   that very point does not obey or is not cheaper than the best plan
        ensures next { IfOk result (IsAnswer (net_of net.now) self.now.options (searched self.now) self.now.repaired
            (⟦<branching::RuleClosure as Fn(&branching::LeafView) -> usize>⟧.post rule.now.closure)) }
        // Promise: An entry that is answered is in order on the tree, so it is taken, or memory ran out
        ensures in_order { IfOk result (λ a. IsDo (λ entry. IsEntryInOrder (net_of net.now) (searched self.now) (shown_entry entry)) a.due) }
    {
        if let Some(plan) = self.better_start(net) {
            let plan = copy(alloc, plan)?;
            return Ok(Answer::untried(alloc, Next::Do(Entry::Improve(plan))));
        }
        let Some(bound) = self.tree.bound() else {
            return Ok(Answer::untried(alloc, Next::End(Ended::Infeasible)));
        };
        if self.is_closed(net, bound) {
            return Ok(Answer::untried(alloc, Next::End(Ended::Closed)));
        }
        if let Some(proof) = self.root_proof(alloc, net, known)? {
            return Ok(Answer::untried(alloc, Next::Do(Entry::Root(proof))));
        }
        self.next_below(alloc, net, rule, bound, known)
    }

    /// What comes next where the root has what proof it can have.
    fn next_below(
        &self,
        alloc: Global,
        net: &Network,
        rule: &CutRule,
        bound: i128,
        known: &mut Option<KnownAdvice>,
    ) -> Result<Answer, Memory>
        requires search { IsSearchOf (net_of net.now) self.now }
        requires rooted { IsRooted (net_of net.now) self.now.options (searched self.now) }
        requires bound { tree_bound (net_of net.now) (searched self.now).tree ≡ Some bound }
        ensures next { IfOk result (IsAnswer (net_of net.now) self.now.options (searched self.now) self.now.repaired
            (⟦<branching::RuleClosure as Fn(&branching::LeafView) -> usize>⟧.post rule.now.closure)) }
        ensures in_order { IfOk result (λ a. IsDo (λ entry. IsEntryInOrder (net_of net.now) (searched self.now) (shown_entry entry)) a.due) }
    {
        if self.repaired && self.is_spent() {
            return Ok(Answer::untried(alloc, Next::End(self.stopped())));
        }
        let (leaf, mut bench) = self.solved_leaf(alloc, net, bound, known.take())?;
        let due = self.next_at(alloc, net, rule, &leaf, &mut bench)?;
        let answer = self.answer_at(alloc, due, leaf, bench, known)?;
        Ok(answer)
    }

    /// The answer at a leaf: the point of its advice, where a repaired plan was looked for there, and what the bench solved. Where a plan is
    /// due, the leaf will be the least one again, and its advice is known.
    fn answer_at(
        &self,
        alloc: Global,
        due: Next,
        leaf: Leaf,
        bench: Bench,
        known: &mut Option<KnownAdvice>,
    ) -> Result<Answer, AllocError>
        ensures due { IfOk result (λ a. a.due ≡ due) }
        ensures tried { IfOk result (λ a. tried_of a ≡ tried_at self.now.repaired leaf.advice.point.items) }
    {
        let tried = self.tried(alloc, &leaf)?;
        if let Next::Do(Entry::Improve(_)) = &due {
            *known = Some(KnownAdvice::of_leaf(leaf, &self.tree));
            let solved = SolvedCuts::none(alloc);
            return Ok(Answer { due, tried, solved });
        }
        let advice = leaf.advice;
        let solved = SolvedCuts {
            basis: advice.basis,
            cuts: bench.into_solved(),
        };
        Ok(Answer { due, tried, solved })
    }

    /// The point of a leaf's advice, where a repaired plan is looked for there.
    fn tried(&self, alloc: Global, leaf: &Leaf) -> Result<Option<Vec<i128>>, AllocError>
        ensures { IfOk result (λ o. option_map (λ v. v.items) o ≡ tried_at self.now.repaired leaf.now.advice.point.items) }
    {
        if self.repaired {
            return Ok(None);
        }
        let point = Vec::from_slice(alloc, leaf.advice.point.as_slice())?;
        Ok(Some(point))
    }

    /// The least leaf, solved, with the bench on which its program stands.
    fn solved_leaf(
        &self,
        alloc: Global,
        net: &Network,
        bound: i128,
        known: Option<KnownAdvice>,
    ) -> Result<(Leaf, Bench), Memory>
        requires search { IsSearchOf (net_of net.now) self.now }
        requires bound { tree_bound (net_of net.now) (searched self.now).tree ≡ Some bound }
        ensures leaf { IfOk result (λ l. IsSolvedLeaf (net_of net.now) (searched self.now) l.0) }
        ensures bench { IfOk result (λ l. IsBench (net_of net.now) l.1) }
        ensures form { IfOk result (λ l. l.1.form ≡ self.now.options.form) }
    {
        let Options { form, pivots, .. } = self.options;
        solve_leaf(alloc, net, &self.tree, form, pivots, bound, known)
    }

    /// What comes next at the least leaf, whose program stands on the bench: a repaired plan, or a split.
    fn next_at(
        &self,
        alloc: Global,
        net: &Network,
        rule: &CutRule,
        leaf: &Leaf,
        bench: &mut Bench,
    ) -> Result<Next, Memory>
        requires search { IsSearchOf (net_of net.now) self.now }
        requires rooted { IsRooted (net_of net.now) self.now.options (searched self.now) }
        requires leaf { IsSolvedLeaf (net_of net.now) (searched self.now) leaf.now }
        requires bench { IsBench (net_of net.now) bench.old }
        requires form { bench.old.form ≡ self.now.options.form }
        ensures next { IfOk result (IsNext (net_of net.now) self.now.options (searched self.now) self.now.repaired
            (tried_at self.now.repaired leaf.now.advice.point.items)
            (⟦<branching::RuleClosure as Fn(&branching::LeafView) -> usize>⟧.post rule.now.closure)) }
        ensures in_order { IfOk result (IsDo (λ entry. IsEntryInOrder (net_of net.now) (searched self.now) (shown_entry entry))) }
    {
        if let Some(plan) = self.repaired_plan(alloc, net, leaf)? {
            return Ok(Next::Do(Entry::Improve(plan)));
        }
        if self.is_spent() {
            return Ok(Next::End(self.stopped()));
        }
        self.split_leaf(alloc, net, rule, leaf, bench)
    }

    /// How the search ends where there are as many splits as are asked for.
    fn stopped(&self) -> Ended
        ensures { ((result ≡ Ended.Stopped) × HasPlan (searched self.now)) ⊎ ((result ≡ Ended.Undecided) × ((searched self.now).best ≡ None)) }
    {
        if self.tree.best_plan().is_some() {
            Ended::Stopped
        } else {
            Ended::Undecided
        }
    }
}
