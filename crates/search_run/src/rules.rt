//! What comes next under the rule of a name. The rule is made for one step, and lent down.

ghost use Rattle.std.specs.Prelude.{IfOk};
ghost use Rattle.pool_model.specs.Network.{net_of};
ghost use Rattle.row_model.specs.Entries.{IsEntryInOrder};
ghost use Rattle.box_tree.specs.Views.{shown_entry};
ghost use Rattle.branching.specs.Known.{IsPickedBy};
ghost use Rattle.branching.specs.Rows.{HasOpen};
ghost use Rattle.search_core.specs.Next.{IsAnswer, IsDo};
ghost use Rattle.search_core.specs.Searches.{searched, IsSearchOf};
ghost use Rattle.search_run.specs.Orders.{picked, Keeps};

use blend_network::Network;
use branching::{CutRule, LeafView, RuleName};
use edge_io::Memory;
use leaf_cuts::KnownAdvice;
use search_core::{Answer, Search};
use std::alloc::Global;

/// What comes next for a search, by the rule of a name.
pub fn next_by(
    alloc: Global,
    net: &Network,
    name: RuleName,
    search: &Search,
    known: &mut Option<KnownAdvice>,
) -> Result<Answer, Memory>
    requires { IsSearchOf (net_of net.now) search.now }
    ensures next { IfOk result (IsAnswer (net_of net.now) search.now.options (searched search.now) search.now.repaired (picked name)) }
    ensures in_order { IfOk result (λ a. IsDo (λ entry. IsEntryInOrder (net_of net.now) (searched search.now) (shown_entry entry)) a.due) }
{
    let closure = Box::new(
        alloc,
        move |view: &LeafView| -> usize
            requires { HasOpen view.now.rows }
            ensures { IsPickedBy name view.now.rows result }
        { name.pick(view) },
    )?;
    let rule = CutRule::new(closure);
    next_under(alloc, net, name, search, &rule, known)
}

/// What comes next for a search, by a rule that keeps to that of a name.
fn next_under(
    alloc: Global,
    net: &Network,
    name: RuleName,
    search: &Search,
    rule: &CutRule,
    known: &mut Option<KnownAdvice>,
) -> Result<Answer, Memory>
    requires search { IsSearchOf (net_of net.now) search.now }
    requires rule { Keeps name (⟦<branching::RuleClosure as Fn(&branching::LeafView) -> usize>⟧.post rule.now.closure) }
    ensures next { IfOk result (IsAnswer (net_of net.now) search.now.options (searched search.now) search.now.repaired (picked name)) }
    ensures in_order { IfOk result (λ a. IsDo (λ entry. IsEntryInOrder (net_of net.now) (searched search.now) (shown_entry entry)) a.due) }
{
    search.next(alloc, net, rule, known)
}
