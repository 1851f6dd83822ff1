//! Proportions of feeds in their pools, and what the pools mix at them.

use crate::outline::{Outline, add_at};
use lp_sparse::lookup::at;
use std::alloc::{AllocError, Global};

/// Proportions, by feed, in parts of a base.
#[derive(Clone, Copy)]
pub struct Proportions<'a> {
    pub base: u32,
    pub parts: &'a [u32],
}

impl<'a> Proportions<'a> {
    /// Proportions in parts of the grain.
    pub fn over_grain(parts: &'a [u32]) -> Proportions<'a> {
        Proportions {
            base: 1_048_576,
            parts,
        }
    }
}

/// Proportions, with the cost of a unit that they give each pool and the qualities that leave it, over their base too.
#[derive(Drop)]
pub struct Blend<'a> {
    proportions: Proportions<'a>,
    qualities: Vec<i128>,
    costs: Vec<i128>,
}

impl<'a> Blend<'a> {
    /// What the pools mix at these proportions.
    pub fn new(
        alloc: Global,
        outline: &Outline,
        proportions: Proportions<'a>,
    ) -> Result<Blend<'a>, AllocError> {
        let parts = proportions.parts;
        let pools = outline.nodes.pools.len();
        let places = pools.saturating_mul(outline.quality_count());
        let mut qualities = vec![in alloc; 0i128; places]?;
        let mut costs = vec![in alloc; 0i128; pools]?;
        mix_qualities(outline, parts, &mut qualities);
        mix_costs(outline, parts, &mut costs);
        Ok(Blend {
            proportions,
            qualities,
            costs,
        })
    }

    /// What the proportions are counted over.
    pub fn base(&self) -> i128 {
        i128::from(self.proportions.base)
    }

    /// A feed's proportion.
    pub fn part(&self, feed: usize) -> i128 {
        i128::from(at(self.proportions.parts, feed, 0))
    }

    /// What a unit from a pool brings of a quality, in the unit of [`Qualities`](crate::Qualities).
    pub fn quality(&self, outline: &Outline, pool: usize, quality: usize) -> i128 {
        at(&self.qualities, outline.quality_place(pool, quality), 0)
    }

    /// What a unit in a pool costs.
    pub fn cost(&self, pool: usize) -> i128 {
        at(&self.costs, pool, 0)
    }
}

fn mix_qualities(outline: &Outline, parts: &[u32], qualities: &mut [i128]) {
    for (feed, (arc, part)) in outline.arcs.feeds.iter().zip(parts).enumerate() {
        for quality in 0..outline.quality_count() {
            let number = outline.feed_quality(feed, quality);
            let mixed = i128::from(*part).wrapping_mul(number);
            add_at(qualities, outline.quality_place(arc.to, quality), mixed);
        }
    }
}

fn mix_costs(outline: &Outline, parts: &[u32], costs: &mut [i128]) {
    for (arc, part) in outline.arcs.feeds.iter().zip(parts) {
        add_at(costs, arc.to, i128::from(*part).wrapping_mul(arc.cost));
    }
}
