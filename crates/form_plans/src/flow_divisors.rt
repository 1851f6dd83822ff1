//! Flows over a common divisor.

ghost use Rattle.std.specs.Prelude.{◌≡◌, ℕ, ◌*◌, ◌/◌, ◌<◌, ◌≤◌, ◌^◌, EachIndex, IfOk, get_or, map};
ghost use Rattle.form_plans.specs.Divisors.{IsFlowDivisor};

use crate::divisors::common_divisor;
use edge_io::Memory;
use std::alloc::Global;

/// Each flow over a divisor.
pub fn divided(alloc: Global, flows: &[u128], divisor: u128) -> Result<Vec<u64>, Memory>
    requires positive { 0 < divisor }
    requires small { EachIndex flows.now (λ i. get_or flows.now i 0 ≤ divisor * 2 ^ 56) }
    ensures { IfOk result (λ v. v.items ≡ map (λ f. f / divisor) flows.now) }
{
    let mut whole = Vec::new(alloc);
    for flow in flows {
        whole.push((*flow / divisor) as u64)?;
    }
    Ok(whole)
}

/// The greatest common divisor of a base and of the flows of outs and directs over it.
pub fn flow_divisor(base: u64, outs: &[u128], directs: &[u128]) -> u128
    requires { 0 < base }
    ensures { IsFlowDivisor base outs.now directs.now result }
{
    let of_outs = common_divisor(u128::from(base), outs);
    common_divisor(of_outs, directs)
}
