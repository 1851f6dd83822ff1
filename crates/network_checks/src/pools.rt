//! Whether each pool of a network has a feed and an out.

ghost use Rattle.std.specs.Prelude.{◌≡◌, ◌↔◌, ℕ, ◌<◌, OnOk, IfErr, IsTrue, All};
ghost use Rattle.faults.specs.First.{IsFirstOf};

use network_parts::{Arc, NetFault};

/// Refuses the first of this many pools that no feed goes to.
pub(crate) fn check_inputs(pools: u32, feeds: &[Arc]) -> Result<(), NetFault>
    ensures none { OnOk result ((l : ℕ) → l < pools → ¬ All (λ a. ¬ a.to ≡ l) feeds.now) }
    ensures first { IfErr result (IsFirstOf NetFault.PoolWithoutInput (λ l. (l < pools) × All (λ a. ¬ a.to ≡ l) feeds.now)) }
{
    for pool in 0..pools {
        if lacks_input(pool, feeds) {
            return Err(NetFault::PoolWithoutInput(pool));
        }
    }
    Ok(())
}

/// Refuses the first of this many pools that no out starts at.
pub(crate) fn check_outputs(pools: u32, outs: &[Arc]) -> Result<(), NetFault>
    ensures none { OnOk result ((l : ℕ) → l < pools → ¬ All (λ a. ¬ a.from ≡ l) outs.now) }
    ensures first { IfErr result (IsFirstOf NetFault.PoolWithoutOutput (λ l. (l < pools) × All (λ a. ¬ a.from ≡ l) outs.now)) }
{
    for pool in 0..pools {
        if lacks_output(pool, outs) {
            return Err(NetFault::PoolWithoutOutput(pool));
        }
    }
    Ok(())
}

fn lacks_input(pool: u32, feeds: &[Arc]) -> bool
    ensures { IsTrue result ↔ All (λ a. ¬ a.to ≡ pool) feeds.now }
{
    feeds.iter().all(|feed| feed.to != pool)
}

fn lacks_output(pool: u32, outs: &[Arc]) -> bool
    ensures { IsTrue result ↔ All (λ a. ¬ a.from ≡ pool) outs.now }
{
    outs.iter().all(|out| out.from != pool)
}
