//! The plan that is made of flows and weights.

ghost use Rattle.std.specs.Prelude.{◌≡◌, ◌*◌, ◌/◌, ◌<◌, ◌≤◌, ◌^◌, ◌↔◌, IfErr, IfOk, IsTrue};
ghost use Rattle.plan_core.specs.Views.{shown_plan};
ghost use Rattle.point_checks.specs.Sizes.{AreAtMost};
ghost use Rattle.form_plans.specs.Made.{IsMade};

use crate::fault::FormFault;
use crate::flow_divisors::divided;
use plan_core::WrittenPlan;
use point_checks::Flows;
use std::alloc::Global;

/// The greatest flow base of a written plan.
const MAX_FLOW_BASE: u128 = 65_536;

/// Whether a base over a divisor is a flow base of written plans.
pub(crate) fn is_fine(base: u64, divisor: u128) -> bool
    requires { 0 < divisor }
    ensures { IsTrue result ↔ (base / divisor ≤ 65536) }
{
    u128::from(base) / divisor <= MAX_FLOW_BASE
}

/// The plan of weights over a base, and of flows over a divisor of their base and of each of them.
pub(crate) fn made(
    alloc: Global,
    flows: &Flows,
    divisor: u128,
    base: u32,
    weights: Vec<u32>,
) -> Result<WrittenPlan, FormFault>
    requires positive { 0 < divisor }
    requires base { flows.now.base / divisor ≤ 65536 }
    requires outs { AreAtMost (divisor * 2 ^ 56) flows.now.outs.now }
    requires directs { AreAtMost (divisor * 2 ^ 56) flows.now.directs.now }
    ensures made { IfOk result (λ w. IsMade flows.now divisor base weights.items (shown_plan w)) }
    ensures memory { IfErr result (λ fault. fault ≡ FormFault.Memory) }
{
    let outflows = divided(alloc, flows.outs, divisor)?;
    let direct = divided(alloc, flows.directs, divisor)?;
    Ok(WrittenPlan {
        base,
        flow_base: (u128::from(flows.base) / divisor) as u32,
        weights,
        outflows,
        direct,
    })
}
