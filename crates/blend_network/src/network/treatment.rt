//! How much of a quality that enters a pool leaves it.

ghost use Rattle.std.specs.Prelude.{◌≡◌, ◌↔◌, ◌==◌, ◌<◌, ◌≤◌, pos, map, All, IsTrue};
ghost use Rattle.std.specs.List.{list_all};
ghost use Rattle.pool_model.specs.Network.{net_of, scale_of};
ghost use Rattle.blend_network.specs.Ratios.{ratio_of};
ghost use Rattle.blend_network.specs.Views.{shown_pool};

use super::{Network, Pool};

/// All thousandths of a quality: the ratio of a pool that removes nothing.
const WHOLE: u64 = 1000;

impl Network {
    /// How many thousandths of the quality that enters the pool leave it.
    pub fn pool_ratio(&self, l: u32, k: u32) -> i64
        requires pool { l < (net_of self.now).pools }
        requires quality { k < (net_of self.now).qualities }
        // Promise: Each reader gives the network's number
        ensures value { result ≡ pos (ratio_of self.now l k) }
        ensures size { ratio_of self.now l k ≤ 1000 }
    {
        self.pools[l as usize].ratio.as_slice()[k as usize] as i64
    }

    /// In how many parts a quality that enters a pool is counted: in one where no pool removes anything, else in 1000.
    pub fn scale(&self) -> i64
        // Promise: Each reader gives the network's number
        ensures value { result ≡ pos (net_of self.now).scale }
        ensures least { 1 ≤ (net_of self.now).scale }
        ensures size { (net_of self.now).scale ≤ 1000 }
    {
        self.scale as i64
    }

    /// How many of the [`Network::scale`] parts of the quality that enters the pool leave it.
    pub fn retained(&self, l: u32, k: u32) -> i64
        requires pool { l < (net_of self.now).pools }
        requires quality { k < (net_of self.now).qualities }
        // Promise: Each reader gives the network's number
        ensures value { result ≡ pos ((net_of self.now).retained l k) }
        ensures size { (net_of self.now).retained l k ≤ 1000 }
    {
        if self.scale == 1 {
            1
        } else {
            self.pool_ratio(l, k)
        }
    }
}

/// In how many parts the qualities that enter these pools are counted.
pub(super) fn scale_of(pools: &[Pool]) -> u64
    ensures { result ≡ scale_of (map shown_pool pools.now) }
{
    if remove_nothing(pools) { 1 } else { WHOLE }
}

/// Whether none of the pools removes anything.
fn remove_nothing(pools: &[Pool]) -> bool
    ensures { IsTrue result ↔ All (λ p. IsTrue (list_all (λ r. r == 1000) p.ratio.items)) pools.now }
{
    pools.iter().all(|pool| removes_nothing(pool))
}

fn removes_nothing(pool: &Pool) -> bool
    ensures { IsTrue result ↔ IsTrue (list_all (λ r. r == 1000) pool.now.ratio.items) }
{
    are_whole(&pool.ratio)
}

fn are_whole(ratio: &[u64]) -> bool
    ensures { result ≡ list_all (λ r. r == 1000) ratio.now }
{
    ratio.iter().all(|share| *share == WHOLE)
}
