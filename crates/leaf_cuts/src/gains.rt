//! What the cuts of a tree gained so far.

ghost use Rattle.pool_model.specs.Network.{IsLimited, net_of};

use crate::ends::root_ends_at;
use blend_network::Network;
use box_space::{Split, coords};
use box_tree::Tree;
use cut_scores::Gains;
use std::alloc::{AllocError, Global};

/// How many nodes above a cut are looked at, at the most, for where the ends of its coordinate were cut.
const MOST_STEPS: usize = 64;

/// What the cuts of a network's tree gained, up to a cutoff. A piece that was cut off says nothing of what a half gains, so it is left out.
pub fn gains_of(
    alloc: Global,
    net: &Network,
    tree: &Tree,
    cutoff: i128,
) -> Result<Gains, AllocError>
    requires { IsLimited (net_of net.now) }
{
    let mut gains = Gains::new(alloc, coords(net) as usize)?;
    let mut node = 1u32;
    for split in tree.splits() {
        if is_halved(net, tree.splits(), split) {
            let left = tree.node_bound(node);
            let right = tree.node_bound(node.saturating_add(1));
            gains.add_cut(
                split.coord,
                tree.node_bound(split.leaf),
                [left, right],
                cutoff,
            );
        }
        node = node.saturating_add(2);
    }
    Ok(gains)
}

/// Whether a split is in the middle of its node's ends, or lies too deep to tell.
fn is_halved(net: &Network, splits: &[Split], split: &Split) -> bool
    requires { IsLimited (net_of net.now) }
{
    let mut low = None;
    let mut high = None;
    let mut node = split.leaf as usize;
    for _ in 0..MOST_STEPS {
        if node == 0 {
            return is_middle(net, split, low, high);
        }
        let Some(above) = splits.get((node - 1) / 2) else {
            return true;
        };
        if above.coord == split.coord {
            // the nearest cut is the narrowest, and left nodes have odd numbers
            if node % 2 == 1 {
                high = Some(high.unwrap_or(above.cut));
            } else {
                low = Some(low.unwrap_or(above.cut));
            }
        }
        node = above.leaf as usize;
    }
    true
}

/// Whether a split is in the middle of two ends, which are those of the root where there are none.
fn is_middle(net: &Network, split: &Split, low: Option<i64>, high: Option<i64>) -> bool
    requires { IsLimited (net_of net.now) }
{
    if split.coord >= coords(net) {
        return true;
    }
    let (root_low, root_high) = root_ends_at(net, split.coord);
    let low = low.unwrap_or(root_low);
    let high = high.unwrap_or(root_high);
    split.cut == low.saturating_add(high.saturating_sub(low) / 2)
}
