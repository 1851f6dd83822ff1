//! A network's numbers as plain lists, in which anything may be looked up.

use crate::groups::ArcsByEnd;
use lp_sparse::lookup::at;
use std::alloc::{AllocError, Global};

/// How many parts proportions are counted in where no smaller base serves.
pub const GRAIN: i128 = 1_048_576;

/// A product: its price in millionths of money a unit, its minimum and its maximum in millionths.
#[derive(Clone, Copy)]
pub struct Product {
    pub price: i128,
    pub min: i128,
    pub max: i128,
}

/// An arc, by the numbers of its two ends: what a unit along it costs, in millionths of money, and its maximum in millionths, if it
/// has one. Along a feed or a direct the cost is that of a unit delivered, with what it costs at its source.
#[derive(Clone, Copy)]
pub struct Arc {
    pub from: usize,
    pub to: usize,
    pub cost: i128,
    pub max: Option<i128>,
}

impl Arc {
    /// The lesser of an amount and the arc's maximum.
    pub fn capped(self, amount: i128) -> i128 {
        match self.max {
            None => amount,
            Some(max) => amount.min(max),
        }
    }
}

/// A limit on a quality of a product, in the unit of [`Qualities`].
#[derive(Clone, Copy)]
pub struct Limit {
    pub quality: usize,
    pub value: i128,
    pub is_most: bool,
}

impl Limit {
    /// How far a quality keeps from the limit; below 0 where it breaks it.
    pub fn gap(self, quality: i128) -> i128 {
        self.between(self.value, quality)
    }

    /// The same for a quality over a base.
    pub fn room(self, quality: i128, base: i128) -> i128 {
        self.between(self.value.wrapping_mul(base), quality)
    }

    fn between(self, limit: i128, quality: i128) -> i128 {
        if self.is_most {
            limit.wrapping_sub(quality)
        } else {
            quality.wrapping_sub(limit)
        }
    }
}

/// Sources and pools by their maxima, in millionths; products.
#[derive(Drop)]
pub struct Nodes {
    pub sources: Vec<i128>,
    pub pools: Vec<i128>,
    pub products: Vec<Product>,
}

/// Feeds, outs and directs.
#[derive(Drop)]
pub struct Arcs {
    pub feeds: Vec<Arc>,
    pub outs: Vec<Arc>,
    pub directs: Vec<Arc>,
}

/// The arcs by a node at one of their ends.
#[derive(Drop)]
pub struct Meetings {
    pub feeds_into: ArcsByEnd,
    pub outs_into: ArcsByEnd,
    pub directs_into: ArcsByEnd,
}

/// What reaches a product of each quality, and the products' limits: all of them in millionths over the same scale.
///
/// The scale is 1 where no pool removes anything. Else a feed has as many parts of its source's quality as its pool leaves of it, and
/// directs and limits have all of them.
#[derive(Drop)]
pub struct Qualities {
    pub count: usize,
    /// What a unit along each feed brings through its pool, those of one feed after another.
    pub of_feeds: Vec<i128>,
    /// What a unit along each direct brings, those of one direct after another.
    pub of_directs: Vec<i128>,
    /// The limits of the products, those of one product after another, most before least.
    pub limits: Vec<Limit>,
    /// For each product the end of its limits in the list.
    pub ends: Vec<usize>,
}

/// A network's numbers. What is asked for and is not there counts as nothing.
#[derive(Drop)]
pub struct Outline {
    pub nodes: Nodes,
    pub arcs: Arcs,
    pub meetings: Meetings,
    pub qualities: Qualities,
    /// The feeds whose maximum is below what their ends may carry.
    pub narrow_feeds: Vec<usize>,
}

impl Outline {
    /// The outline of these parts.
    pub fn new(
        alloc: Global,
        nodes: Nodes,
        arcs: Arcs,
        qualities: Qualities,
    ) -> Result<Outline, AllocError> {
        let meetings = Meetings::new(alloc, &nodes, &arcs)?;
        let narrow_feeds = narrow_feeds(alloc, &nodes, &arcs)?;
        Ok(Outline {
            nodes,
            arcs,
            meetings,
            qualities,
            narrow_feeds,
        })
    }

    /// The most that a source sends out.
    pub fn source_max(&self, source: usize) -> i128 {
        at(&self.nodes.sources, source, 0)
    }

    /// The most that flows through a pool.
    pub fn pool_max(&self, pool: usize) -> i128 {
        at(&self.nodes.pools, pool, 0)
    }

    /// A product.
    pub fn product(&self, product: usize) -> Product {
        let none = Product {
            price: 0,
            min: 0,
            max: 0,
        };
        at(&self.nodes.products, product, none)
    }

    /// The pool from which an out goes, and the product to which it goes.
    pub fn out(&self, out: usize) -> Arc {
        at(&self.arcs.outs, out, NO_ARC)
    }

    /// The source and the product of a direct.
    pub fn direct(&self, direct: usize) -> Arc {
        at(&self.arcs.directs, direct, NO_ARC)
    }

    /// The source and the pool of a feed.
    pub fn feed(&self, feed: usize) -> Arc {
        at(&self.arcs.feeds, feed, NO_ARC)
    }

    /// How many qualities there are.
    pub fn quality_count(&self) -> usize {
        self.qualities.count
    }

    /// What a unit along a feed brings of a quality through its pool.
    pub fn feed_quality(&self, feed: usize, quality: usize) -> i128 {
        let place = self.quality_place(feed, quality);
        at(&self.qualities.of_feeds, place, 0)
    }

    /// What a unit along a direct brings of a quality.
    pub fn direct_quality(&self, direct: usize, quality: usize) -> i128 {
        let place = self.quality_place(direct, quality);
        at(&self.qualities.of_directs, place, 0)
    }

    /// Where a quality of a pool or of an arc stands in a list by these and then by quality.
    pub fn quality_place(&self, number: usize, quality: usize) -> usize {
        let first = number.wrapping_mul(self.qualities.count);
        first.wrapping_add(quality)
    }

    /// The place of a product's first limit among all.
    pub fn first_limit(&self, product: usize) -> usize {
        match product.checked_sub(1) {
            None => 0,
            Some(before) => at(&self.qualities.ends, before, 0),
        }
    }

    /// The limits of a product, most before least.
    pub fn limits(&self, product: usize) -> &[Limit] {
        let end = at(&self.qualities.ends, product, 0);
        let list = self.qualities.limits.as_slice();
        list.get(self.first_limit(product)..end).unwrap_or(&[])
    }

    /// How many limits there are.
    pub fn limit_count(&self) -> usize {
        self.qualities.limits.len()
    }

    /// For each pool the sum of the numbers of its feeds.
    pub fn pool_sums(&self, alloc: Global, numbers: &[i128]) -> Result<Vec<i128>, AllocError> {
        let mut sums = vec![in alloc; 0i128; self.nodes.pools.len()]?;
        for (arc, number) in self.arcs.feeds.iter().zip(numbers) {
            add_at(&mut sums, arc.to, *number);
        }
        Ok(sums)
    }

    /// What each pool sends out.
    pub fn pool_outflows(&self, alloc: Global, flows: &[u64]) -> Result<Vec<i128>, AllocError> {
        let mut sums = vec![in alloc; 0i128; self.nodes.pools.len()]?;
        for (arc, flow) in self.arcs.outs.iter().zip(flows) {
            add_at(&mut sums, arc.from, i128::from(*flow));
        }
        Ok(sums)
    }
}

/// An arc that is not there.
const NO_ARC: Arc = Arc {
    from: usize::MAX,
    to: usize::MAX,
    cost: 0,
    max: None,
};

/// The feeds whose maximum is below what their ends may carry.
fn narrow_feeds(alloc: Global, nodes: &Nodes, arcs: &Arcs) -> Result<Vec<usize>, AllocError> {
    let mut narrow = Vec::new(alloc);
    for (feed, arc) in arcs.feeds.iter().enumerate() {
        let most = at(&nodes.sources, arc.from, 0).min(at(&nodes.pools, arc.to, 0));
        if arc.capped(most) < most {
            narrow.push(feed)?;
        }
    }
    Ok(narrow)
}

/// Adds to the number at a place, if it is there.
pub fn add_at(numbers: &mut [i128], place: usize, more: i128) {
    if place < numbers.len() {
        numbers[place] = numbers[place].wrapping_add(more);
    }
}

impl Meetings {
    fn new(alloc: Global, nodes: &Nodes, arcs: &Arcs) -> Result<Meetings, AllocError> {
        let pools = nodes.pools.len();
        let products = nodes.products.len();
        Ok(Meetings {
            feeds_into: ArcsByEnd::by_end(alloc, &arcs.feeds, pools)?,
            outs_into: ArcsByEnd::by_end(alloc, &arcs.outs, products)?,
            directs_into: ArcsByEnd::by_end(alloc, &arcs.directs, products)?,
        })
    }
}
