//! What decides what comes next.

ghost use Rattle.std.specs.Prelude.{◌≡◌, ◌<◌, ◌↔◌, length, IfOk, IfSome, IfNone, IsTrue, Some, pos, ◌*ℤ◌, ◌-ℤ◌, ◌<ℤ◌, ◌≤ℤ◌};
ghost use Rattle.std.specs.Option.{ForSome};
ghost use Rattle.pool_model.specs.Network.{net_of};
ghost use Rattle.row_model.specs.Trees.{tree_bound};
ghost use Rattle.box_space.specs.Views.{shown_proof};
ghost use Rattle.plan_core.specs.Views.{shown_plan};
ghost use Rattle.search_core.specs.Searches.{searched, IsSearchOf};
ghost use Rattle.search_core.specs.Cases.{IsBetterStart, HasNoBetterStart, IsClosed, IsRootOpen, IsRootProof, HasNoRootProof, IsSpent};

use crate::options::Options;
use crate::search::Search;
use blend_network::Network;
use box_space::Proof;
use edge_io::Memory;
use exact_num::compare_ratio;
use leaf_cuts::{KnownAdvice, root_proof};
use plan_core::{Cost, WrittenPlan, compare_cost};
use std::alloc::{AllocError, Global};
use std::cmp::Ordering;

impl Search {
    /// The cheapest starting plan that obeys, where there is no plan or a dearer one.
    pub(crate) fn better_start(&self, net: &Network) -> Option<&WrittenPlan>
        requires { IsSearchOf (net_of net.now) self.now }
        ensures some { IfSome result (λ w. IsBetterStart (net_of net.now) (searched self.now) (shown_plan w.now)) }
        ensures none { IfNone result (HasNoBetterStart (net_of net.now) (searched self.now)) }
    {
        match &self.start {
            None => None,
            Some(start) => {
                if is_cheaper(&start.cost, self.tree.best_cost()) {
                    Some(&start.plan)
                } else {
                    None
                }
            }
        }
    }

    /// Whether the best plan costs at most the asked gap more than the bound.
    pub(crate) fn is_closed(&self, net: &Network, bound: i128) -> bool
        requires search { IsSearchOf (net_of net.now) self.now }
        requires bound { tree_bound (net_of net.now) (searched self.now).tree ≡ Some bound }
        ensures { IsTrue result ↔ IsClosed (net_of net.now) self.now.options.gap (searched self.now) }
    {
        match self.tree.best_cost() {
            None => false,
            Some(cost) => is_near(cost, bound, self.options.gap),
        }
    }

    /// A proof of the root that shows more than its bound, where it has none and is not cut. The advice that it comes from is known then.
    pub(crate) fn root_proof(
        &self,
        alloc: Global,
        net: &Network,
        known: &mut Option<KnownAdvice>,
    ) -> Result<Option<Proof>, Memory>
        requires { IsSearchOf (net_of net.now) self.now }
        ensures some { IfOk result (λ o. IfSome o (λ p. IsRootProof (net_of net.now) self.now.options.form (searched self.now) (shown_proof p))) }
        ensures none { IfOk result (λ o. IfNone o (HasNoRootProof (net_of net.now) self.now.options.form (searched self.now))) }
    {
        if !self.is_root_open(net) {
            return Ok(None);
        }
        let Some(bound) = self.tree.node_bound(0) else {
            return Ok(None);
        };
        let Options { form, pivots, .. } = self.options;
        root_proof(alloc, net, form, pivots, bound, known)
    }

    /// Whether the root has no proof, and no split cuts it: the first split would.
    fn is_root_open(&self, net: &Network) -> bool
        requires { IsSearchOf (net_of net.now) self.now }
        ensures { IsTrue result ↔ IsRootOpen (searched self.now) }
    {
        self.tree.splits().is_empty() && self.tree.proof_of(0).is_none()
    }

    /// Whether there are as many splits as are asked for.
    pub(crate) fn is_spent(&self) -> bool
        ensures { IsTrue result ↔ IsSpent self.now.options (searched self.now) }
    {
        self.tree.splits().len() >= self.options.nodes as usize
    }
}

/// Whether a cost is less than that of the best plan, where there is one.
fn is_cheaper(cost: &Cost, best: Option<Cost>) -> bool
    requires base { 0 < cost.now.base }
    requires best { ForSome best (λ c. 0 < c.base) }
    ensures { IsTrue result ↔ ForSome best (λ c. (pos c.base *ℤ cost.now.num) <ℤ (pos cost.now.base *ℤ c.num)) }
{
    match best {
        None => true,
        Some(best) => compare_cost(cost, &best) == Ordering::Less,
    }
}

/// Whether a cost is at most a gap above a bound.
fn is_near(cost: Cost, bound: i128, gap: i128) -> bool
    requires base { 0 < cost.base }
    requires gap { pos 0 ≤ℤ gap }
    ensures { IsTrue result ↔ ((cost.num -ℤ bound *ℤ pos cost.base) ≤ℤ (gap *ℤ pos cost.base)) }
{
    match bound.checked_add(gap) {
        // no cost is so great
        None => true,
        Some(most) => is_at_most(cost, most),
    }
}

/// Whether a cost is at most so many picos.
fn is_at_most(cost: Cost, most: i128) -> bool
    requires { 0 < cost.base }
    ensures { IsTrue result ↔ (cost.num ≤ℤ (most *ℤ pos cost.base)) }
{
    compare_ratio(cost.num, cost.base.into(), most, 1) != Ordering::Greater
}

/// A plan again.
pub(crate) fn copy(alloc: Global, plan: &WrittenPlan) -> Result<WrittenPlan, AllocError>
    ensures { IfOk result (λ w. shown_plan w ≡ shown_plan plan.now) }
{
    Ok(WrittenPlan {
        base: plan.base,
        flow_base: plan.flow_base,
        weights: Vec::from_slice(alloc, plan.weights.as_slice())?,
        outflows: Vec::from_slice(alloc, plan.outflows.as_slice())?,
        direct: Vec::from_slice(alloc, plan.direct.as_slice())?,
    })
}
