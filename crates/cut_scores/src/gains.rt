//! What the cuts of a tree gained, by coordinate: pseudocosts, as in M. Bénichou et al., Experiments in mixed-integer linear
//! programming, 1971, read from the bounds of the nodes.

use crate::square_root::square_root;
use lp_sparse::fixed::clamped;
use lp_sparse::lookup::{at, put};
use plan_core::Cost;
use std::alloc::{AllocError, Global};

/// How much of a gain counts: thousandths of money.
const GAIN_UNIT: i128 = 1_000_000_000;

/// What a leaf's bound may rise to while there is no plan, above it: 2^60 picos.
const FAR_ABOVE: i128 = 1_152_921_504_606_846_976;

/// What no bound of a tree needs to pass, in picos: what its best plan costs, rounded down. Where there is no plan it is far above the
/// bound.
// Promise: By how much a coordinate is missed is counted for all bounds of cuts and every advice, of whatever program
pub fn cutoff(best: Option<Cost>, bound: i128) -> i128 {
    match best {
        None => bound.saturating_add(FAR_ABOVE),
        Some(cost) => cost
            .num
            .checked_div_euclid(i128::from(cost.base))
            .unwrap_or(bound),
    }
}

/// What the cuts of a tree gained: the sums of gains and the counts of cuts, by coordinate and in all.
#[derive(Drop)]
pub struct Gains {
    sums: Vec<i128>,
    counts: Vec<i128>,
    sum: i128,
    count: i128,
}

impl Gains {
    /// No cut, on this many coordinates.
    pub fn new(alloc: Global, coords: usize) -> Result<Gains, AllocError> {
        Ok(Gains {
            sums: vec![in alloc; 0i128; coords]?,
            counts: vec![in alloc; 0i128; coords]?,
            sum: 0,
            count: 0,
        })
    }

    /// Adds the cut of a node into its halves, by their bounds up to a cutoff. What has no bound holds no plan.
    // Promise: By how much a coordinate is missed is counted for all bounds of cuts and every advice, of whatever program
    pub fn add_cut(
        &mut self,
        coord: u32,
        node: Option<i128>,
        halves: [Option<i128>; 2],
        cutoff: i128,
    ) {
        let [left, right] = halves;
        self.add(coord, gain(node, left, cutoff), gain(node, right, cutoff));
    }

    /// Adds a cut: the geometric mean of what its halves gained, and a tenth of the greater.
    fn add(&mut self, coord: u32, left: i64, right: i64) {
        let product = u128::from(left.unsigned_abs()).saturating_mul(right.unsigned_abs().into());
        let mean = clamped(square_root(product).into());
        let gained = i128::from(mean).saturating_add(i128::from(left.max(right) / 10));
        let place = coord as usize;
        let sum = at(&self.sums, place, 0).saturating_add(gained);
        put(&mut self.sums, place, sum);
        let count = at(&self.counts, place, 0).saturating_add(1);
        put(&mut self.counts, place, count);
        self.sum = self.sum.saturating_add(gained);
        self.count = self.count.saturating_add(1);
    }

    /// A score times what the coordinate's cuts gained over what all gained, as if it had three cuts more of the mean.
    pub(crate) fn weigh(&self, coord: u32, score: i128) -> i128 {
        if self.sum <= 0 {
            return score;
        }
        let place = coord as usize;
        let gained = at(&self.sums, place, 0)
            .saturating_mul(self.count)
            .saturating_add(self.sum.saturating_mul(3));
        let mean = at(&self.counts, place, 0)
            .saturating_add(3)
            .saturating_mul(self.sum);
        let ratio = gained
            .saturating_mul(1024)
            .checked_div(mean)
            .unwrap_or(1024)
            .max(10);
        i128::from(clamped(score))
            .saturating_mul(ratio)
            .unbounded_shr(10)
    }
}

/// How far a half's bound is above its leaf's, at most up to the cutoff.
fn gain(from: Option<i128>, half: Option<i128>, cutoff: i128) -> i64 {
    let reached = half.unwrap_or(cutoff).min(cutoff);
    let gained = reached.saturating_sub(from.unwrap_or(cutoff));
    clamped((gained / GAIN_UNIT).max(0))
}
