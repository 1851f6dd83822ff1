//! A step of successive linear programming: proportions and flows move together.
//!
//! What flows along a path is a proportion times a flow, and not linear. Near given proportions and flows it nearly is: the
//! program of the flows has a column more for each feed, by how much its proportion changes, and each row has what that
//! change does to the flows that are there (R. E. Griffith and R. A. Stewart, A nonlinear programming technique for the
//! optimization of continuous processing systems, 1961; on pooling C. A. Haverly, Studies of the behavior of recursion for
//! the pooling problem, 1978). Changes are at most a radius, and sum to 0 in each pool.

use crate::blend::{Blend, Proportions};
use crate::flows::{Layout, flow_program};
use crate::outline::{GRAIN, Limit, Outline};
use crate::program::SmallProgram;
use crate::rounding::rounded;
use lp_sparse::lookup::at;
use std::alloc::{AllocError, Global};

/// How far a step may go, and what it keeps from the limits, in units of the grain times the spread of a pool's qualities:
/// as much as rounding the proportions may shift a pool.
#[derive(Clone, Copy)]
pub struct Reach {
    pub radius: i128,
    pub margin: i128,
}

/// Where a step begins: the proportions and the outflows.
#[derive(Clone, Copy)]
pub struct Place<'a> {
    pub parts: &'a [u32],
    pub outflows: &'a [u64],
}

/// The proportions to which a step leads, and how its program sees it.
#[derive(Drop)]
pub struct Stepped {
    pub parts: Vec<u32>,
    pub outlook: Outlook,
}

/// What a step's program takes the flows at its end to cost, in picos over the grain, and how far it moves a proportion at the most, in
/// parts of the grain.
#[derive(Clone, Copy)]
pub struct Outlook {
    pub cost: i128,
    pub length: i128,
}

/// Where a step leads, by a point of its program.
pub fn step_end(
    alloc: Global,
    outline: &Outline,
    place: Place<'_>,
    program: &SmallProgram,
    point: &[i128],
) -> Result<Stepped, AllocError> {
    let numbers = moved(alloc, outline, place.parts, point)?;
    Ok(Stepped {
        parts: rounded(alloc, outline, &numbers)?,
        outlook: Outlook {
            cost: program.cost(point),
            length: length(outline, point),
        },
    })
}

/// How far the program moves a proportion at the most, rounded up.
fn length(outline: &Outline, point: &[i128]) -> i128 {
    let layout = Layout::new(outline);
    let mut most = 0;
    for feed in 0..outline.arcs.feeds.len() {
        let change = at(point, layout.feeds.saturating_add(feed), 0);
        most = most.max(change.wrapping_abs());
    }
    most.unbounded_shr(32).wrapping_add(1)
}

/// The proportions with what the program changes of them, in units of 2^-32 of the grain's parts.
fn moved(
    alloc: Global,
    outline: &Outline,
    parts: &[u32],
    point: &[i128],
) -> Result<Vec<i128>, AllocError> {
    let layout = Layout::new(outline);
    let mut numbers = Vec::with_capacity(alloc, parts.len())?;
    for (feed, part) in parts.iter().enumerate() {
        let change = at(point, layout.feeds.saturating_add(feed), 0);
        let whole = i128::from(*part).unbounded_shl(32);
        numbers.push(whole.wrapping_add(change).max(0))?;
    }
    Ok(numbers)
}

/// The program of a step.
pub fn step_program(
    alloc: Global,
    outline: &Outline,
    place: Place<'_>,
    reach: Reach,
) -> Result<SmallProgram, AllocError> {
    let layout = Layout::new(outline);
    let blend = Blend::new(alloc, outline, Proportions::over_grain(place.parts))?;
    let mut program = flow_program(alloc, outline, &blend)?;
    let outflows = outline.pool_outflows(alloc, place.outflows)?;
    for (feed, arc) in outline.arcs.feeds.iter().enumerate() {
        let sent = at(&outflows, arc.to, 0);
        let part = blend.part(feed);
        let low = reach.radius.min(part).wrapping_neg();
        let high = reach.radius.min(GRAIN.wrapping_sub(part));
        program.add_variable(low, high, sent.wrapping_mul(arc.cost))?;
        let column = layout.feeds.saturating_add(feed);
        program.add_term(arc.from, column, sent.wrapping_neg())?;
    }
    add_feed_shifts(&mut program, outline, layout, &outflows)?;
    add_balances(alloc, &mut program, outline, layout)?;
    add_shifts(&mut program, outline, layout, place, reach)?;
    Ok(program)
}

/// What changes of proportions take from the maxima of feeds, by what their pools send out.
fn add_feed_shifts(
    program: &mut SmallProgram,
    outline: &Outline,
    layout: Layout,
    outflows: &[i128],
) -> Result<(), AllocError> {
    for (number, feed) in outline.narrow_feeds.iter().enumerate() {
        let row = layout.narrow_feeds.saturating_add(number);
        let sent = at(outflows, outline.feed(*feed).to, 0);
        let column = layout.feeds.saturating_add(*feed);
        program.add_term(row, column, sent.wrapping_neg())?;
    }
    Ok(())
}

/// The changes of each pool's proportions sum to 0.
fn add_balances(
    alloc: Global,
    program: &mut SmallProgram,
    outline: &Outline,
    layout: Layout,
) -> Result<(), AllocError> {
    for pool in 0..outline.nodes.pools.len() {
        let _ = pool;
        program.add_row(alloc, true, 0)?;
    }
    for (feed, arc) in outline.arcs.feeds.iter().enumerate() {
        let row = layout.balances.saturating_add(arc.to);
        program.add_term(row, layout.feeds.saturating_add(feed), 1)?;
    }
    Ok(())
}

/// What changes of proportions do to the limits of the products, by the flows that are there.
fn add_shifts(
    program: &mut SmallProgram,
    outline: &Outline,
    layout: Layout,
    place: Place<'_>,
    reach: Reach,
) -> Result<(), AllocError> {
    for (arc, flow) in outline.arcs.outs.iter().zip(place.outflows) {
        let flow = i128::from(*flow);
        let first = layout.limits.saturating_add(outline.first_limit(arc.to));
        for (number, limit) in outline.limits(arc.to).iter().enumerate() {
            let row = first.saturating_add(number);
            add_pool_shift(program, outline, layout, row, arc.from, *limit, flow)?;
            let spread = spread(outline, arc.from, limit.quality);
            let kept = flow.wrapping_mul(spread).wrapping_mul(reach.margin);
            program.add_constant(row, kept.wrapping_neg());
        }
    }
    Ok(())
}

fn add_pool_shift(
    program: &mut SmallProgram,
    outline: &Outline,
    layout: Layout,
    row: usize,
    pool: usize,
    limit: Limit,
    flow: i128,
) -> Result<(), AllocError> {
    for feed in outline.meetings.feeds_into.of(pool) {
        let quality = outline.feed_quality(*feed, limit.quality);
        let more = flow.wrapping_mul(quality);
        let coef = if limit.is_most {
            more.wrapping_neg()
        } else {
            more
        };
        program.add_term(row, layout.feeds.saturating_add(*feed), coef)?;
    }
    Ok(())
}

/// How far apart is what a pool's feeds bring of a quality.
fn spread(outline: &Outline, pool: usize, quality: usize) -> i128 {
    let mut ends: Option<(i128, i128)> = None;
    for feed in outline.meetings.feeds_into.of(pool) {
        let value = outline.feed_quality(*feed, quality);
        ends = match ends {
            None => Some((value, value)),
            Some((least, most)) => Some((least.min(value), most.max(value))),
        };
    }
    match ends {
        None => 0,
        Some((least, most)) => most.wrapping_sub(least),
    }
}
