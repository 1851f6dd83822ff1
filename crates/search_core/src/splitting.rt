//! The split of the least leaf.

ghost use Rattle.std.specs.Prelude.{◌≡◌, ◌<◌, ◌⊎◌, None, IfOk, length};
ghost use Rattle.pool_model.specs.Network.{net_of};
ghost use Rattle.row_model.specs.Entries.{IsEntryInOrder};
ghost use Rattle.box_tree.specs.Views.{shown_entry};
ghost use Rattle.leaf_cuts.specs.Benches.{IsBench};
ghost use Rattle.leaf_cuts.specs.Leaves.{IsSolvedLeaf};
ghost use Rattle.search_core.specs.Searches.{searched, IsSearchOf};
ghost use Rattle.search_core.specs.Cases.{HasPlan};
ghost use Rattle.search_core.specs.Next.{GoesOn, IsNext, IsDo, tried_at};

use crate::ended::Ended;
use crate::next::Next;
use crate::options::Options;
use crate::search::Search;
use blend_network::Network;
use box_tree::Entry;
use branching::CutRule;
use edge_io::Memory;
use leaf_cuts::{Bench, Halving, Leaf};
use std::alloc::Global;

impl Search {
    /// The split of the least leaf, whose program stands on the bench, where the rule says; or that it can't be cut.
    pub(crate) fn split_leaf(
        &self,
        alloc: Global,
        net: &Network,
        rule: &CutRule,
        leaf: &Leaf,
        bench: &mut Bench,
    ) -> Result<Next, Memory>
        requires search { IsSearchOf (net_of net.now) self.now }
        requires going { GoesOn (net_of net.now) self.now.options (searched self.now) self.now.repaired
            (tried_at self.now.repaired leaf.now.advice.point.items) }
        requires few { length (searched self.now).tree.splits < self.now.options.nodes }
        requires leaf { IsSolvedLeaf (net_of net.now) (searched self.now) leaf.now }
        requires bench { IsBench (net_of net.now) bench.old }
        requires form { bench.old.form ≡ self.now.options.form }
        ensures next { IfOk result (IsNext (net_of net.now) self.now.options (searched self.now) self.now.repaired
            (tried_at self.now.repaired leaf.now.advice.point.items)
            (⟦<branching::RuleClosure as Fn(&branching::LeafView) -> usize>⟧.post rule.now.closure)) }
        ensures in_order { IfOk result (IsDo (λ entry. IsEntryInOrder (net_of net.now) (searched self.now) (shown_entry entry))) }
    {
        let Options { looks, gap, .. } = self.options;
        let looked = bench.look(alloc, net, &self.tree, leaf, looks, gap)?;
        if !looked.view.has_open() {
            return Ok(Next::End(self.stuck()));
        }
        let split = rule.pick(&looked.view);
        let halvings = looked.halvings;
        let halving = bench.proved_at(alloc, net, leaf, halvings, split.coord)?;
        let Halving { left, right, .. } = halving;
        Ok(Next::Do(Entry::SplitOf(split, left, right)))
    }

    /// How the search ends where the least leaf can't be cut.
    fn stuck(&self) -> Ended
        ensures { ((result ≡ Ended.Stuck) × HasPlan (searched self.now)) ⊎ ((result ≡ Ended.Undecided) × ((searched self.now).best ≡ None)) }
    {
        if self.tree.best_plan().is_some() {
            Ended::Stuck
        } else {
            Ended::Undecided
        }
    }
}
