//! Entries, taken or refused.

ghost use Rattle.std.specs.Prelude.{◌≡◌, ◌≢◌, ◌<◌, ◌↔◌, get_or, None, false, IfOk, IfErr, IsTrue, pos, ◌*ℤ◌, ◌<ℤ◌};
ghost use Rattle.std.specs.Option.{ForSome};
ghost use Rattle.pool_model.specs.Network.{net_of};
ghost use Rattle.row_model.specs.Trees.{is_cut};
ghost use Rattle.row_model.specs.Entries.{after, improve as improving, root_proof, IsEntryInOrder};
ghost use Rattle.plan_core.specs.Views.{shown_plan};
ghost use Rattle.box_space.specs.Views.{shown_proof};
ghost use Rattle.row_book.specs.Fitting.{Fits};
ghost use Rattle.box_tree.specs.EntryFaults.{IsFirstFault};
ghost use Rattle.box_tree.specs.Kept.{searched_of, IsOf};
ghost use Rattle.box_tree.specs.Views.{shown_entry};
ghost use Rattle.box_tree.specs.Taken.{IsTaken, improved, rooted};

use crate::entry::{Entry, EntryFault};
use crate::leaves::open_leaf;
use crate::tree::{Best, Tree};
use blend_network::Network;
use bounds::{raised, value_in};
use box_space::Proof;
use plan_core::{Cost, WrittenPlan, check_plan, compare_cost};
use std::alloc::AllocError;
use std::cmp::Ordering;

impl Tree {
    /// Takes the entry, exactly where it is in order and there is memory for it. Else it answers the entry's first fault, drops the
    /// entry, and the tree is as it was.
    ///
    /// A split takes a few steps to be judged, some to put its halves among the leaves, and memory for itself and two nodes. For each
    /// half that has a proof it also builds the half's box, as `split_tree` says, and values the proof there.
    pub fn apply(&mut self, net: &Network, entry: Entry) -> Result<(), EntryFault>
        requires { IsOf (net_of net.now) self.old }
        // Promise: An entry that is taken makes of the tree what the definition says
        ensures ok { IfOk result (λ _. searched_of self.new.kept ≡ after (searched_of self.old.kept) (shown_entry entry)) }
        // Promise: An entry is taken only where it is in order
        ensures in_order { IfOk result (λ _. IsEntryInOrder (net_of net.now) (searched_of self.old.kept) (shown_entry entry)) }
        // Promise: Of an entry that is not taken the first fault is answered
        ensures fault { IfErr result (λ f. f ≢ EntryFault.Memory → IsFirstFault (net_of net.now) (searched_of self.old.kept) (shown_entry entry) f) }
        ensures refused { IfErr result (λ f. f ≢ EntryFault.Memory → ¬ IsEntryInOrder (net_of net.now) (searched_of self.old.kept) (shown_entry entry)) }
        // Promise: A tree that doesn't take an entry is unchanged, want of memory included
        ensures unchanged { IfErr result (λ _. self.new.kept ≡ self.old.kept) }
        ensures tree { IsOf (net_of net.now) self.new }
    {
        match entry {
            Entry::Root(proof) => self.prove_root(net, proof),
            Entry::SplitOf(split, left, right) => self.split(net, split, left, right),
            Entry::Improve(plan) => self.improve(net, plan),
        }
    }

    /// Takes a plan that is cheaper than the best so far.
    fn improve(&mut self, net: &Network, plan: WrittenPlan) -> Result<(), EntryFault>
        requires { IsOf (net_of net.now) self.old }
        ensures taken { IfOk result (λ _. IsTaken (net_of net.now) (improving (shown_plan plan)) self.old.kept self.new.kept) }
        ensures fault { IfErr result (λ f. f ≢ EntryFault.Memory → IsFirstFault (net_of net.now) (searched_of self.old.kept) (improving (shown_plan plan)) f) }
        ensures unchanged { IfErr result (λ _. self.new.kept ≡ self.old.kept) }
        ensures scratch { self.new.scratch ≡ self.old.scratch }
    {
        let cost = check_plan(net, &plan)?;
        if !self.is_cheaper(&cost) {
            return Err(EntryFault::PlanNotBetter);
        }
        self.set_best(plan, cost);
        Ok(())
    }

    /// Keeps a plan and its cost as the best.
    fn set_best(&mut self, plan: WrittenPlan, cost: Cost)
        ensures kept { self.new.kept ≡ improved self.old.kept (shown_plan plan) cost }
        ensures scratch { self.new.scratch ≡ self.old.scratch }
    {
        self.best = Some(Best { plan, cost });
    }

    /// Whether a cost is less than that of the best plan, where there is one.
    fn is_cheaper(&self, cost: &Cost) -> bool
        requires base { 0 < cost.now.base }
        requires best { ForSome self.now.kept.cost (λ c. 0 < c.base) }
        ensures { IsTrue result ↔ ForSome self.now.kept.cost (λ c. (pos c.base *ℤ cost.now.num) <ℤ (pos cost.now.base *ℤ c.num)) }
    {
        match &self.best {
            None => true,
            Some(best) => compare_cost(cost, &best.cost) == Ordering::Less,
        }
    }

    /// Takes a proof of the root, while it has none and is not cut.
    fn prove_root(&mut self, net: &Network, proof: Proof) -> Result<(), EntryFault>
        requires { IsOf (net_of net.now) self.old }
        ensures taken { IfOk result (λ _. IsTaken (net_of net.now) (root_proof (shown_proof proof)) self.old.kept self.new.kept) }
        ensures fault { IfErr result (λ f. f ≢ EntryFault.Memory → IsFirstFault (net_of net.now) (searched_of self.old.kept) (root_proof (shown_proof proof)) f) }
        ensures unchanged { IfErr result (λ _. self.new.kept ≡ self.old.kept) }
        ensures scratch { Fits (net_of net.now) self.new.scratch }
    {
        let ends = self.box_of(net, 0)?;
        let shown = value_in(net, &ends, &proof, &mut self.scratch)?;
        if !self.is_root_open() {
            return Err(EntryFault::RootLate);
        }
        let bound = raised(self.node_bound(0), Some(shown));
        self.set_root(proof, bound)?;
        Ok(())
    }

    /// Whether the root has no proof, and is not cut.
    fn is_root_open(&self) -> bool
        ensures { IsTrue result ↔ ((get_or self.now.kept.proofs 0 None ≡ None) × (is_cut self.now.kept.splits.list 0 ≡ false)) }
    {
        self.proof_of(0).is_none() && !self.splits.is_cut(0)
    }

    /// Gives the root, which is not cut, a proof and a bound, or leaves the tree as it was where there is no memory.
    fn set_root(&mut self, proof: Proof, bound: Option<i128>) -> Result<(), AllocError>
        requires { is_cut self.old.kept.splits.list 0 ≡ false }
        ensures kept { IfOk result (λ _. self.new.kept ≡ rooted self.old.kept (shown_proof proof) bound) }
        ensures unchanged { IfErr result (λ _. self.new.kept ≡ self.old.kept) }
        ensures scratch { self.new.scratch ≡ self.old.scratch }
    {
        let known = open_leaf(0, self.bounds.as_slice()[0]);
        self.order.replace(known, open_leaf(0, bound))?;
        self.proofs[0] = Some(proof);
        self.bounds[0] = bound;
        Ok(())
    }
}
