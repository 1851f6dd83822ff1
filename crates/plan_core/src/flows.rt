//! The numbers of a written plan, and its flows over both bases.

ghost use Rattle.std.specs.Prelude.{◌≡◌, ◌*◌, ◌<◌, ◌≤◌, ◌^◌, length};
ghost use Rattle.pool_model.specs.Plan.{weight as weight_of, written_out, written_direct};
ghost use Rattle.plan_core.specs.Views.{shown_plan};

use crate::plan::WrittenPlan;

impl WrittenPlan {
    /// The weight of a feed in its pool.
    pub(crate) fn weight(&self, feed: u32) -> u32
        requires { feed < length self.now.weights.items }
        ensures { result ≡ weight_of (shown_plan self.now) feed }
    {
        self.weights.as_slice()[feed as usize]
    }

    /// What flows along an out, over the flow base.
    pub(crate) fn outflow(&self, out: u32) -> u64
        requires { out < length self.now.outflows.items }
        ensures { result ≡ written_out (shown_plan self.now) out }
    {
        self.outflows.as_slice()[out as usize]
    }

    /// What flows along an out, over both bases.
    pub fn whole_outflow(&self, out: u32) -> u128
        requires { out < length self.now.outflows.items }
        ensures flow { result ≡ self.now.base * written_out (shown_plan self.now) out }
        ensures size { result ≤ 2 ^ 96 }
    {
        let flow = self.outflow(out);
        scaled(self.base, flow)
    }

    /// What flows along a direct, over both bases.
    pub fn whole_direct(&self, direct: u32) -> u128
        requires { direct < length self.now.direct.items }
        ensures flow { result ≡ self.now.base * written_direct (shown_plan self.now) direct }
        ensures size { result ≤ 2 ^ 96 }
    {
        let flow = self.direct.as_slice()[direct as usize];
        scaled(self.base, flow)
    }

    /// What flows along a feed, over both bases, from what its pool sends out over the flow base.
    pub fn whole_feed(&self, feed: u32, outflow: u128) -> u128
        requires feed { feed < length self.now.weights.items }
        requires outflow { outflow ≤ 2 ^ 72 }
        ensures flow { result ≡ weight_of (shown_plan self.now) feed * outflow }
        ensures size { result ≤ 2 ^ 104 }
    {
        parted(self.weight(feed), outflow)
    }

    /// The denominator of the plan that this one stands for.
    pub fn denominator(&self) -> u64
        ensures { result ≡ self.now.flow_base * self.now.base }
    {
        u64::from(self.flow_base) * u64::from(self.base)
    }
}

fn scaled(base: u32, flow: u64) -> u128
    ensures value { result ≡ base * flow }
    ensures size { result ≤ 2 ^ 96 }
{
    u128::from(base) * u128::from(flow)
}

fn parted(weight: u32, outflow: u128) -> u128
    requires { outflow ≤ 2 ^ 72 }
    ensures value { result ≡ weight * outflow }
    ensures size { result ≤ 2 ^ 104 }
{
    u128::from(weight) * outflow
}
