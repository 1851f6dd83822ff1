//! Plans that are repaired from the point of the least leaf.

ghost use Rattle.std.specs.Prelude.{◌≡◌, false, IfOk, IfSome, IfNone};
ghost use Rattle.pool_model.specs.Network.{net_of};
ghost use Rattle.plan_core.specs.Views.{shown_plan};
ghost use Rattle.leaf_cuts.specs.Leaves.{IsSolvedLeaf};
ghost use Rattle.search_core.specs.Searches.{searched, IsSearchOf};
ghost use Rattle.search_core.specs.Cases.{IsRepair, HasNoRepair};
ghost use Rattle.search_core.specs.Next.{tried_at};

use crate::search::Search;
use blend_network::Network;
use edge_io::Memory;
use leaf_cuts::Leaf;
use plan_core::WrittenPlan;
use plan_repair::repair;
use std::alloc::Global;

impl Search {
    /// A plan that repair gives with the leaf's advice, unless one was repaired since the last proof or split.
    pub(crate) fn repaired_plan(
        &self,
        alloc: Global,
        net: &Network,
        leaf: &Leaf,
    ) -> Result<Option<WrittenPlan>, Memory>
        requires search { IsSearchOf (net_of net.now) self.now }
        requires leaf { IsSolvedLeaf (net_of net.now) (searched self.now) leaf.now }
        ensures clear { IfOk result (λ o. IfSome o (λ _. self.now.repaired ≡ false)) }
        ensures some { IfOk result (λ o. IfSome o (λ w. IsRepair (net_of net.now) (searched self.now) leaf.now.advice.point.items (shown_plan w))) }
        ensures none { IfOk result (λ o. IfNone o (HasNoRepair (net_of net.now) (searched self.now) self.now.repaired
            (tried_at self.now.repaired leaf.now.advice.point.items))) }
    {
        if self.repaired {
            return Ok(None);
        }
        repair(alloc, net, &leaf.advice, self.tree.best_plan())
    }
}
