//! What a cut of a leaf leaves to be done, by the bounds of its halves.

use crate::gains::cutoff;
use lp_sparse::fixed::clamped;
use plan_core::Cost;

/// The price of a half that stays open, as a part of how far the leaf's bound is below the target: 2/5. Any part from 1/100 to 2/5
/// gave about the same trees, on adhya1, adhya2 and networks that are made.
const OPEN_PRICE: i128 = 2;

const OPEN_PARTS: i128 = 5;

/// What the cuts of a leaf are compared by.
#[derive(Clone, Copy, Debug)]
pub struct Aim {
    /// The leaf's bound, in picos.
    bound: i128,
    /// What no bound needs to pass, in picos.
    cutoff: i128,
    /// The bound at which a half is closed, in picos; none where there is no plan, or gains alone count.
    target: Option<i128>,
}

impl Aim {
    /// The aim at a leaf of this bound, where the best plan costs so much and this gap is enough, both in picos.
    // Promise: By how much a coordinate is missed is counted for all bounds of cuts and every advice, of whatever program
    pub fn new(best: Option<Cost>, gap: i128, bound: i128) -> Aim {
        Aim {
            bound,
            cutoff: cutoff(best, bound),
            target: best.map(|cost| rounded_up(cost).saturating_sub(gap)),
        }
    }

    /// The aim that goes by gains alone, whether there is a plan or not.
    pub fn by_gains(best: Option<Cost>, bound: i128) -> Aim {
        Aim {
            bound,
            cutoff: cutoff(best, bound),
            target: None,
        }
    }

    /// The aim at a leaf of this bound where a half is closed at a target, both in picos.
    pub fn at(target: i128, bound: i128) -> Aim {
        Aim {
            bound,
            cutoff: target,
            target: Some(target),
        }
    }

    /// What no bound needs to pass, in picos.
    pub fn cutoff(&self) -> i128 {
        self.cutoff
    }

    /// How good a cut is whose halves have these bounds, the greater the better: less what it leaves to be done or, where there is
    /// no target, the product of what both halves gain. What has no bound holds no plan.
    pub fn worth(&self, halves: [Option<i128>; 2]) -> i128 {
        let [left, right] = halves;
        match self.target {
            None => {
                let gained = i128::from(self.gain(left));
                gained.saturating_mul(self.gain(right).into())
            }
            Some(target) => {
                let rest = self.rest(target, left);
                0i128.saturating_sub(rest.saturating_add(self.rest(target, right)))
            }
        }
    }

    /// Whether a half of this bound shows already that its cut is worth no more than so much. Where there is no target, none does.
    pub fn is_lost(&self, half: Option<i128>, most: i128) -> bool {
        self.target.is_some() && self.worth([half, None]) <= most
    }

    /// What is left to be done in a half of this bound, in fifths of a pico: nothing where it is closed, or where there is no target.
    pub fn rest_of(&self, half: Option<i128>) -> i128 {
        match self.target {
            None => 0,
            Some(target) => self.rest(target, half),
        }
    }

    /// What is left to be done in a half, in fifths of a pico: nothing where it is closed, and else how far its bound is below the
    /// target, and the price of a half that stays open.
    fn rest(&self, target: i128, half: Option<i128>) -> i128 {
        match half {
            Some(bound) if bound < target => {
                let missing = target.saturating_sub(bound).saturating_mul(OPEN_PARTS);
                let price = target.saturating_sub(self.bound).saturating_mul(OPEN_PRICE);
                missing.saturating_add(price)
            }
            _ => 0,
        }
    }

    /// How far a half's bound is above the leaf's, in units of 2^20 picos; at least 1, and at most up to the cutoff.
    fn gain(&self, half: Option<i128>) -> i64 {
        let reached = half.unwrap_or(self.cutoff).min(self.cutoff);
        clamped(reached.saturating_sub(self.bound).unbounded_shr(20)).max(1)
    }
}

/// A cost in picos, rounded up.
fn rounded_up(cost: Cost) -> i128 {
    let down = 0i128
        .saturating_sub(cost.num)
        .checked_div_euclid(cost.base.into());
    0i128.saturating_sub(down.unwrap_or(0))
}
