//! A search, and the entries that it takes.

ghost use Rattle.std.specs.Prelude.{◌≡◌, ◌≢◌, false, IfOk, IfErr};
ghost use Rattle.pool_model.specs.Network.{net_of};
ghost use Rattle.row_model.specs.Entries.{after, IsEntryInOrder};
ghost use Rattle.box_tree.specs.EntryFaults.{IsFirstFault};
ghost use Rattle.box_tree.specs.Kept.{IsOf};
ghost use Rattle.box_tree.specs.Views.{shown_entry};
ghost use Rattle.search_core.specs.Searches.{searched, IsAsked, IsSearchOf};
ghost use Rattle.search_core.specs.Cases.{IsRepairedAfter};

use crate::options::Options;
use blend_network::Network;
use box_tree::{Entry, EntryFault, Tree};
use edge_io::Memory;
use plan_core::{Start, cheapest_start};
use std::alloc::Global;
use std::marker::Model;

/// A search: a tree, what is asked for, the cheapest starting plan, and whether a plan was repaired since the last proof or split.
#[derive(Drop)]
pub struct Search {
    pub(crate) options: Options,
    pub(crate) tree: Tree,
    pub(crate) start: Option<Start>,
    pub(crate) repaired: bool,
}

impl Model for Search {
    ghost use Rattle.std.specs.Prelude.{option_map};
    ghost use Rattle.search_core.specs.Searches.{shown_start, IsAsked, Searching};

    ghost Value = { Searching };

    ghost view = { λ s. record { options = s.options; tree = s.tree; start = option_map shown_start s.start; repaired = s.repaired } };

    ghost invariant = { λ s. IsAsked s.options };
}

impl Search {
    /// The search that goes on from a tree.
    pub fn start(
        alloc: Global,
        net: &Network,
        options: Options,
        tree: Tree,
    ) -> Result<Search, Memory>
        requires asked { IsAsked options }
        requires tree { IsOf (net_of net.now) tree }
        ensures options { IfOk result (λ s. s.options ≡ options) }
        ensures tree { IfOk result (λ s. s.tree ≡ tree) }
        ensures repaired { IfOk result (λ s. s.repaired ≡ false) }
        ensures search { IfOk result (IsSearchOf (net_of net.now)) }
    {
        let start = cheapest_start(alloc, net)?;
        Ok(Search {
            options,
            tree,
            start,
            repaired: false,
        })
    }

    /// The tree so far.
    pub fn tree(&self) -> &Tree
        ensures { result.now ≡ self.now.tree }
    {
        &self.tree
    }

    /// The tree, without the search.
    pub fn into_tree(self) -> Tree
        ensures { result ≡ self.tree }
    {
        self.tree
    }

    /// Takes the entry into the tree, exactly where it is in order there and there is memory for it. Else it answers the entry's
    /// first fault, drops the entry, and the search is as it was. After a plan that is no starting plan it asks for no repair until
    /// the next proof or split.
    pub fn take(&mut self, net: &Network, entry: Entry) -> Result<(), EntryFault>
        requires { IsSearchOf (net_of net.now) self.old }
        ensures ok { IfOk result (λ _. searched self.new ≡ after (searched self.old) (shown_entry entry)) }
        // Promise: An entry that is answered is in order on the tree, so it is taken, or memory ran out
        ensures in_order { IfOk result (λ _. IsEntryInOrder (net_of net.now) (searched self.old) (shown_entry entry)) }
        ensures fault { IfErr result (λ f. f ≢ EntryFault.Memory → IsFirstFault (net_of net.now) (searched self.old) (shown_entry entry) f) }
        ensures refused { IfErr result (λ f. f ≢ EntryFault.Memory → ¬ IsEntryInOrder (net_of net.now) (searched self.old) (shown_entry entry)) }
        ensures unchanged { IfErr result (λ _. self.new.tree.kept ≡ self.old.tree.kept) }
        ensures repaired { IfOk result (λ _. IsRepairedAfter (net_of net.now) (searched self.old) (shown_entry entry) self.old.repaired self.new.repaired) }
        ensures not_repaired { IfErr result (λ _. self.new.repaired ≡ self.old.repaired) }
        ensures options { self.new.options ≡ self.old.options }
        ensures search { IsSearchOf (net_of net.now) self.new }
    {
        let repaired = self.repaired_after(net, &entry);
        self.tree.apply(net, entry)?;
        self.repaired = repaired;
        Ok(())
    }

    /// Whether a plan was repaired since the last proof or split, once the entry is taken.
    fn repaired_after(&self, net: &Network, entry: &Entry) -> bool
        requires { IsSearchOf (net_of net.now) self.now }
        ensures { IsRepairedAfter (net_of net.now) (searched self.now) (shown_entry entry.now) self.now.repaired result }
    {
        match entry {
            Entry::Root(_) | Entry::SplitOf(..) => false,
            Entry::Improve(_) => self.repaired || self.better_start(net).is_none(),
        }
    }
}
