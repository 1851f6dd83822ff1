//! The flows of least cost at given proportions.
//!
//! Where the pools' qualities are fixed, what is left is a linear program in the outflows and the directs. Its columns are
//! the outs and then the directs, in millionths. Its rows count over the base where proportions are in them: that
//! each source, pool and product stays within its maximum and each product gets its minimum, that its mean keeps each
//! limit, and that each feed stays within its maximum. Those of outs and directs are the ends of their columns.

use crate::blend::Blend;
use crate::outline::{Arc, Outline};
use crate::program::SmallProgram;
use lp_sparse::lookup::at;
use std::alloc::{AllocError, Global};

/// Where the rows of each kind begin, and the columns of directs.
#[derive(Clone, Copy)]
pub struct Layout {
    pub pools: usize,
    pub maxima: usize,
    pub minima: usize,
    pub limits: usize,
    pub narrow_feeds: usize,
    pub balances: usize,
    pub directs: usize,
    pub feeds: usize,
}

impl Layout {
    /// The layout of a network's programs. Balances and feeds are those of steps.
    pub fn new(outline: &Outline) -> Layout {
        let pools = outline.nodes.sources.len();
        let maxima = pools.saturating_add(outline.nodes.pools.len());
        let minima = maxima.saturating_add(outline.nodes.products.len());
        let limits = minima.saturating_add(outline.nodes.products.len());
        let narrow_feeds = limits.saturating_add(outline.limit_count());
        let balances = narrow_feeds.saturating_add(outline.narrow_feeds.len());
        let directs = outline.arcs.outs.len();
        let feeds = directs.saturating_add(outline.arcs.directs.len());
        Layout {
            pools,
            maxima,
            minima,
            limits,
            narrow_feeds,
            balances,
            directs,
            feeds,
        }
    }
}

/// The program of the flows at these proportions.
pub fn flow_program(
    alloc: Global,
    outline: &Outline,
    blend: &Blend,
) -> Result<SmallProgram, AllocError> {
    let mut program = SmallProgram::new(alloc);
    add_columns(&mut program, outline, blend)?;
    add_rows(alloc, &mut program, outline, blend.base())?;
    add_terms(&mut program, outline, blend)?;
    Ok(program)
}

/// The outs and the directs, with what a unit costs, over the base.
fn add_columns(
    program: &mut SmallProgram,
    outline: &Outline,
    blend: &Blend,
) -> Result<(), AllocError> {
    for arc in outline.arcs.outs.iter() {
        let product = outline.product(arc.to);
        let margin = arc.cost.wrapping_sub(product.price);
        let cost = blend
            .cost(arc.from)
            .wrapping_add(margin.wrapping_mul(blend.base()));
        let high = arc.capped(outline.pool_max(arc.from).min(product.max));
        program.add_variable(0, high, cost)?;
    }
    for arc in outline.arcs.directs.iter() {
        let product = outline.product(arc.to);
        let cost = arc.cost.wrapping_sub(product.price);
        let high = arc.capped(outline.source_max(arc.from).min(product.max));
        program.add_variable(0, high, cost.wrapping_mul(blend.base()))?;
    }
    Ok(())
}

/// All rows, without terms yet.
fn add_rows(
    alloc: Global,
    program: &mut SmallProgram,
    outline: &Outline,
    base: i128,
) -> Result<(), AllocError> {
    add_maxima(alloc, program, outline, base)?;
    for product in 0..outline.nodes.products.len() {
        program.add_row(alloc, false, asked(outline, product).wrapping_neg())?;
    }
    for limit in 0..outline.limit_count() {
        let _ = limit;
        program.add_row(alloc, false, 0)?;
    }
    for feed in outline.narrow_feeds.iter() {
        let max = outline.feed(*feed).capped(i128::MAX);
        program.add_row(alloc, false, max.wrapping_mul(base))?;
    }
    Ok(())
}

/// The rows of the maxima: of sources, pools and products.
fn add_maxima(
    alloc: Global,
    program: &mut SmallProgram,
    outline: &Outline,
    base: i128,
) -> Result<(), AllocError> {
    for max in outline.nodes.sources.iter() {
        program.add_row(alloc, false, max.wrapping_mul(base))?;
    }
    for max in outline.nodes.pools.iter() {
        program.add_row(alloc, false, *max)?;
    }
    for product in outline.nodes.products.iter() {
        program.add_row(alloc, false, product.max)?;
    }
    Ok(())
}

/// What each column has in the rows.
fn add_terms(
    program: &mut SmallProgram,
    outline: &Outline,
    blend: &Blend,
) -> Result<(), AllocError> {
    let layout = Layout::new(outline);
    for out in 0..outline.arcs.outs.len() {
        add_out_terms(program, outline, blend, layout, out)?;
    }
    for direct in 0..outline.arcs.directs.len() {
        add_direct_terms(program, outline, blend.base(), layout, direct)?;
    }
    for (number, feed) in outline.narrow_feeds.iter().enumerate() {
        let row = layout.narrow_feeds.saturating_add(number);
        add_feed_terms(
            program,
            outline,
            row,
            outline.feed(*feed).to,
            blend.part(*feed),
        )?;
    }
    Ok(())
}

/// What the outs of a pool take from the maximum of a feed into it.
fn add_feed_terms(
    program: &mut SmallProgram,
    outline: &Outline,
    row: usize,
    pool: usize,
    part: i128,
) -> Result<(), AllocError> {
    for (out, arc) in outline.arcs.outs.iter().enumerate() {
        if arc.from == pool {
            program.add_term(row, out, part.wrapping_neg())?;
        }
    }
    Ok(())
}

/// What a program asks a product to take: its minimum and, where there is room, a millionth for each arc, which rounding
/// down may lose.
fn asked(outline: &Outline, number: usize) -> i128 {
    let product = outline.product(number);
    let outs = outline.meetings.outs_into.of(number).len();
    let directs = outline.meetings.directs_into.of(number).len();
    let lost = outs.saturating_add(directs) as i128;
    let room = product.max.wrapping_sub(product.min);
    if product.min > 0 {
        product.min.wrapping_add(lost.min(room))
    } else {
        0
    }
}

/// A unit along an out: what it takes from the sources of its pool, and from the room at its ends and of its limits.
fn add_out_terms(
    program: &mut SmallProgram,
    outline: &Outline,
    blend: &Blend,
    layout: Layout,
    out: usize,
) -> Result<(), AllocError> {
    let arc = outline.out(out);
    for feed in outline.meetings.feeds_into.of(arc.from) {
        let source = outline.feed(*feed).from;
        program.add_term(source, out, blend.part(*feed).wrapping_neg())?;
    }
    program.add_term(layout.pools.saturating_add(arc.from), out, -1)?;
    add_product_terms(program, layout, arc, out)?;
    let first = layout.limits.saturating_add(outline.first_limit(arc.to));
    for (number, limit) in outline.limits(arc.to).iter().enumerate() {
        let quality = blend.quality(outline, arc.from, limit.quality);
        let row = first.saturating_add(number);
        program.add_term(row, out, limit.room(quality, blend.base()))?;
    }
    Ok(())
}

/// A unit along a direct.
fn add_direct_terms(
    program: &mut SmallProgram,
    outline: &Outline,
    base: i128,
    layout: Layout,
    direct: usize,
) -> Result<(), AllocError> {
    let arc = outline.direct(direct);
    let column = layout.directs.saturating_add(direct);
    program.add_term(arc.from, column, base.wrapping_neg())?;
    add_product_terms(program, layout, arc, column)?;
    let first = layout.limits.saturating_add(outline.first_limit(arc.to));
    for (number, limit) in outline.limits(arc.to).iter().enumerate() {
        let gap = limit.gap(outline.direct_quality(direct, limit.quality));
        let row = first.saturating_add(number);
        program.add_term(row, column, gap.wrapping_mul(base))?;
    }
    Ok(())
}

/// What a unit into a product takes from its maximum and gives to its minimum.
fn add_product_terms(
    program: &mut SmallProgram,
    layout: Layout,
    arc: Arc,
    column: usize,
) -> Result<(), AllocError> {
    program.add_term(layout.maxima.saturating_add(arc.to), column, -1)?;
    program.add_term(layout.minima.saturating_add(arc.to), column, 1)
}

/// The flows of a point on some columns, rounded down to millionths.
pub fn flows_of(
    alloc: Global,
    point: &[i128],
    first: usize,
    count: usize,
) -> Result<Vec<u64>, AllocError> {
    let mut flows = Vec::with_capacity(alloc, count)?;
    for arc in 0..count {
        let number = at(point, first.saturating_add(arc), 0);
        flows.push(rounded_flow(number))?;
    }
    Ok(flows)
}

/// A number in units of 2^-32 millionths, rounded down; at least 0 and at most 2^62.
fn rounded_flow(number: i128) -> u64 {
    number.unbounded_shr(32).clamp(0, 4_611_686_018_427_387_904) as u64
}
