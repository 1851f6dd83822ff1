//! Proportions rounded to their base.
//!
//! A proportion goes to the nearest part of the grain, and what that leaves of a pool's grain goes to its greatest feed. So a
//! pool's quality moves a little, and where it kept a product's limit exactly it may now break it: then no flow to that
//! product is left. So for each limit that the numbers keep and the rounded proportions break, parts are moved from the
//! worst feed for the limit to the best one, as few as serve.

use crate::outline::{GRAIN, Limit, Outline, add_at};
use lp_sparse::lookup::{at, put};
use std::alloc::{AllocError, Global};

/// How often the limits are gone over: what is moved for one of them may break another.
const ROUNDS: u32 = 3;

/// The proportions nearest to these numbers, with what rounding leaves on the greatest number of each pool, or on its first
/// feed where all are 0.
pub fn rounded(alloc: Global, outline: &Outline, numbers: &[i128]) -> Result<Vec<u32>, AllocError> {
    let mut parts = nearest_parts(alloc, outline, numbers)?;
    add_rests(alloc, outline, numbers, &mut parts)?;
    for round in 0..ROUNDS {
        let _ = round;
        if !keep_limits(outline, numbers, &mut parts) {
            break;
        }
    }
    short_parts(alloc, &parts)
}

/// For each number the nearest part of its pool's grain.
fn nearest_parts(
    alloc: Global,
    outline: &Outline,
    numbers: &[i128],
) -> Result<Vec<i128>, AllocError> {
    let totals = outline.pool_sums(alloc, numbers)?;
    let mut parts = Vec::with_capacity(alloc, numbers.len())?;
    for (arc, number) in outline.arcs.feeds.iter().zip(numbers) {
        let total = at(&totals, arc.to, 0);
        let whole = number.wrapping_mul(GRAIN).wrapping_add(total / 2);
        parts.push(whole.checked_div(total).unwrap_or(0))?;
    }
    Ok(parts)
}

/// Adds what the parts leave of each pool's grain to those of its leader.
fn add_rests(
    alloc: Global,
    outline: &Outline,
    numbers: &[i128],
    parts: &mut [i128],
) -> Result<(), AllocError> {
    let leaders = leaders(alloc, outline, numbers)?;
    let sums = outline.pool_sums(alloc, parts)?;
    for (leader, sum) in leaders.iter().zip(sums.iter()) {
        add_at(parts, *leader, GRAIN.wrapping_sub(*sum));
    }
    Ok(())
}

/// Moves parts where a limit that the numbers keep is broken. Whether any were moved.
fn keep_limits(outline: &Outline, numbers: &[i128], parts: &mut [i128]) -> bool {
    let mut moved = false;
    for arc in outline.arcs.outs.iter() {
        for limit in outline.limits(arc.to) {
            let missing = room(outline, arc.from, *limit, parts).wrapping_neg();
            if missing > 0 {
                let span = Span::new(outline, arc.from, *limit, parts);
                if is_kept(outline, arc.from, *limit, numbers, span) {
                    span.shift(parts, missing);
                    moved = true;
                }
            }
        }
    }
    moved
}

/// What the numbers of a pool's feeds leave of a limit.
fn room(outline: &Outline, pool: usize, limit: Limit, numbers: &[i128]) -> i128 {
    let mut room = 0i128;
    for feed in outline.meetings.feeds_into.of(pool) {
        let gap = gap(outline, *feed, limit);
        room = room.wrapping_add(at(numbers, *feed, 0).wrapping_mul(gap));
    }
    room
}

/// How far what a feed brings through its pool keeps from a limit.
fn gap(outline: &Outline, feed: usize, limit: Limit) -> i128 {
    limit.gap(outline.feed_quality(feed, limit.quality))
}

/// Whether the numbers keep a limit, or break it by no more than a part of the grain makes up for.
fn is_kept(outline: &Outline, pool: usize, limit: Limit, numbers: &[i128], span: Span) -> bool {
    let mut total = 0i128;
    for feed in outline.meetings.feeds_into.of(pool) {
        total = total.wrapping_add(at(numbers, *feed, 0));
    }
    let part = (total / GRAIN).wrapping_mul(span.width());
    room(outline, pool, limit, numbers) >= part.wrapping_neg()
}

/// The feeds of a pool that are best and worst for a limit, with how far they keep from it. The worst one has a part.
#[derive(Clone, Copy)]
struct Span {
    best: usize,
    most: i128,
    worst: usize,
    least: i128,
}

impl Span {
    fn new(outline: &Outline, pool: usize, limit: Limit, parts: &[i128]) -> Span {
        let mut span = Span {
            best: usize::MAX,
            most: i128::MIN,
            worst: usize::MAX,
            least: i128::MAX,
        };
        for feed in outline.meetings.feeds_into.of(pool) {
            let gap = gap(outline, *feed, limit);
            if gap > span.most {
                span.best = *feed;
                span.most = gap;
            }
            if gap < span.least && at(parts, *feed, 0) > 0 {
                span.worst = *feed;
                span.least = gap;
            }
        }
        span
    }

    fn width(self) -> i128 {
        self.most.saturating_sub(self.least).max(0)
    }

    /// Moves as few parts as make up for what is missing, from the worst feed to the best one.
    fn shift(self, parts: &mut [i128], missing: i128) {
        let width = self.width();
        let more = missing.wrapping_add(width).wrapping_sub(1);
        let count = more.checked_div(width).unwrap_or(0);
        let count = count.clamp(0, at(parts, self.worst, 0).max(0));
        add_at(parts, self.worst, count.wrapping_neg());
        add_at(parts, self.best, count);
    }
}

fn short_parts(alloc: Global, parts: &[i128]) -> Result<Vec<u32>, AllocError> {
    let mut short = Vec::with_capacity(alloc, parts.len())?;
    for part in parts {
        short.push((*part).clamp(0, GRAIN) as u32)?;
    }
    Ok(short)
}

/// For each pool its first feed of the greatest number.
fn leaders(alloc: Global, outline: &Outline, numbers: &[i128]) -> Result<Vec<usize>, AllocError> {
    let mut leaders = vec![in alloc; usize::MAX; outline.nodes.pools.len()]?;
    for (feed, arc) in outline.arcs.feeds.iter().enumerate() {
        let leader = at(&leaders, arc.to, usize::MAX);
        if at(numbers, feed, 0) > at(numbers, leader, -1) {
            put(&mut leaders, arc.to, feed);
        }
    }
    Ok(leaders)
}
