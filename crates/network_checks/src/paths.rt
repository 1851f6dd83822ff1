//! The paths of a network: each goes from a source through a pool to a product.

ghost use Rattle.std.specs.Prelude.{◌≡◌, ℕ, ◌<◌, ◌≤◌, ◌++◌, map, length, IfOk, OnOk, IfErr};
ghost use Rattle.pool_model.specs.Paths.{pool_paths, paths_of};
ghost use Rattle.network_parts.specs.Views.{shown_arc, shown_path, joined_net, paths_behind};

use network_parts::{Arc, NetFault, Path};
use std::alloc::{AllocError, Global};

/// The most paths that a network may have.
const MAX_PATHS: usize = 512;

/// Refuses more paths than there may be.
pub(crate) fn check_paths(paths: &[Path]) -> Result<(), NetFault>
    ensures few { OnOk result (length paths.now ≤ 512) }
    ensures many { IfErr result (λ fault. (fault ≡ NetFault.TooManyPaths) × (512 < length paths.now)) }
{
    if paths.len() > MAX_PATHS {
        return Err(NetFault::TooManyPaths);
    }
    Ok(())
}

/// The paths through this many pools: by pool, then by feed, then by out.
pub(crate) fn paths_from(
    alloc: Global,
    pools: u32,
    feeds: &[Arc],
    outs: &[Arc],
) -> Result<Vec<Path>, AllocError>
    requires feeds { length feeds.now ≤ 256 }
    requires outs { length outs.now ≤ 256 }
    ensures { IfOk result (λ v. map shown_path v.items ≡ paths_of (joined_net pools (map shown_arc feeds.now) (map shown_arc outs.now))) }
{
    let mut paths = Vec::new(alloc);
    for pool in 0..pools {
        add_pool_paths(&mut paths, pool, feeds, outs)?;
    }
    Ok(paths)
}

/// Adds the paths through the pool.
fn add_pool_paths(
    paths: &mut Vec<Path>,
    pool: u32,
    feeds: &[Arc],
    outs: &[Arc],
) -> Result<(), AllocError>
    requires feeds { length feeds.now ≤ 256 }
    requires outs { length outs.now ≤ 256 }
    ensures { (pools : ℕ) → IfOk result (λ _. map shown_path paths.new.items
        ≡ map shown_path paths.old.items ++ pool_paths (joined_net pools (map shown_arc feeds.now) (map shown_arc outs.now)) pool) }
{
    for feed in 0..feeds.len() {
        if feeds[feed].to == pool {
            add_feed_paths(paths, feed as u32, pool, outs)?;
        }
    }
    Ok(())
}

/// Adds the paths that begin with the feed, which goes to the pool.
fn add_feed_paths(
    paths: &mut Vec<Path>,
    feed: u32,
    pool: u32,
    outs: &[Arc],
) -> Result<(), AllocError>
    requires { length outs.now ≤ 256 }
    ensures { IfOk result (λ _. map shown_path paths.new.items ≡ map shown_path paths.old.items ++ paths_behind (map shown_arc outs.now) feed pool (length outs.now)) }
{
    for out in 0..outs.len() {
        if outs[out].from == pool {
            paths.push(Path {
                feed,
                out: out as u32,
            })?;
        }
    }
    Ok(())
}
