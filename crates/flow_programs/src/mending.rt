//! Mending: flows that were rounded are lowered until each rule holds again, by as little as may be.
//!
//! Rounding down shifts a product's mean by a hair, and a limit that was met exactly is then broken. So for each limit that
//! a product breaks, what its worst arc for that limit brings is lowered by the least number of millionths that makes up
//! for what is missing, round after round. Only where that does not end is the product dropped.

use crate::blend::Blend;
use crate::outline::{Arc, Limit, Outline};
use lp_sparse::least_cut;
use lp_sparse::lookup::{at, put};

/// How many rounds a product is mended before it is dropped.
const ROUNDS: u32 = 64;

/// Flows in millionths, by out and by direct.
#[derive(Drop)]
pub struct ArcFlows {
    pub outs: Vec<u64>,
    pub directs: Vec<u64>,
}

/// An arc into a product.
#[derive(Clone, Copy)]
enum Along {
    Out(usize),
    Direct(usize),
}

/// What the flows into a product leave of a limit, and the arc with the least room: of `room` for each millionth.
#[derive(Clone, Copy)]
struct Balance {
    left: i128,
    room: i128,
    worst: Option<Along>,
}

impl ArcFlows {
    /// Lowers the flows until no maximum is passed and no limit is broken.
    pub fn mend(&mut self, outline: &Outline, blend: &Blend) {
        cap(&mut self.outs, &outline.arcs.outs);
        cap(&mut self.directs, &outline.arcs.directs);
        for product in 0..outline.nodes.products.len() {
            self.mend_maximum(outline, product);
        }
        for pool in 0..outline.nodes.pools.len() {
            self.mend_pool(outline, pool);
        }
        for feed in outline.narrow_feeds.iter() {
            self.mend_feed(outline, blend, *feed);
        }
        for source in 0..outline.nodes.sources.len() {
            self.mend_source(outline, blend, source);
        }
        for product in 0..outline.nodes.products.len() {
            self.mend_product(outline, blend, product);
        }
    }

    /// Lowers flows into a product until it takes no more than its maximum.
    fn mend_maximum(&mut self, outline: &Outline, product: usize) {
        let mut over = outline.product(product).max.wrapping_neg();
        for out in outline.meetings.outs_into.of(product) {
            over = over.wrapping_add(i128::from(at(&self.outs, *out, 0)));
        }
        for direct in outline.meetings.directs_into.of(product) {
            over = over.wrapping_add(i128::from(at(&self.directs, *direct, 0)));
        }
        for out in outline.meetings.outs_into.of(product) {
            over = lower(&mut self.outs, *out, over, 1);
        }
        for direct in outline.meetings.directs_into.of(product) {
            over = lower(&mut self.directs, *direct, over, 1);
        }
    }

    /// Lowers flows out of a pool until it sends no more than its maximum.
    fn mend_pool(&mut self, outline: &Outline, pool: usize) {
        let mut over = self
            .outflow(outline, pool)
            .wrapping_sub(outline.pool_max(pool));
        for (out, arc) in outline.arcs.outs.iter().enumerate() {
            if arc.from == pool {
                over = lower(&mut self.outs, out, over, 1);
            }
        }
    }

    /// Lowers flows out of a feed's pool until what flows along the feed is no more than its maximum.
    fn mend_feed(&mut self, outline: &Outline, blend: &Blend, feed: usize) {
        let arc = outline.feed(feed);
        let part = blend.part(feed);
        let flow = self.outflow(outline, arc.to).wrapping_mul(part);
        let most = arc
            .capped(outline.pool_max(arc.to))
            .wrapping_mul(blend.base());
        self.lower_pool(outline, arc.to, flow.wrapping_sub(most), part);
    }

    /// Lowers flows from a source until it sends no more than its maximum: first its directs, then what its pools send.
    fn mend_source(&mut self, outline: &Outline, blend: &Blend, source: usize) {
        let max = outline.source_max(source).wrapping_mul(blend.base());
        let mut over = self.sent(outline, blend, source).wrapping_sub(max);
        for (direct, arc) in outline.arcs.directs.iter().enumerate() {
            if arc.from == source {
                over = lower(&mut self.directs, direct, over, blend.base());
            }
        }
        for (feed, arc) in outline.arcs.feeds.iter().enumerate() {
            if arc.from == source && over > 0 {
                over = self.lower_pool(outline, arc.to, over, blend.part(feed));
            }
        }
    }

    fn lower_pool(&mut self, outline: &Outline, pool: usize, over: i128, each: i128) -> i128 {
        let mut over = over;
        for (out, arc) in outline.arcs.outs.iter().enumerate() {
            if arc.from == pool {
                over = lower(&mut self.outs, out, over, each);
            }
        }
        over
    }

    /// What a source sends out, over the base.
    fn sent(&self, outline: &Outline, blend: &Blend, source: usize) -> i128 {
        let mut sent = 0i128;
        for (direct, arc) in outline.arcs.directs.iter().enumerate() {
            if arc.from == source {
                let flow = i128::from(at(&self.directs, direct, 0));
                sent = sent.wrapping_add(flow.wrapping_mul(blend.base()));
            }
        }
        for (feed, arc) in outline.arcs.feeds.iter().enumerate() {
            if arc.from == source {
                let flow = self.outflow(outline, arc.to);
                sent = sent.wrapping_add(flow.wrapping_mul(blend.part(feed)));
            }
        }
        sent
    }

    fn outflow(&self, outline: &Outline, pool: usize) -> i128 {
        let mut sum = 0i128;
        for (arc, flow) in outline.arcs.outs.iter().zip(self.outs.iter()) {
            if arc.from == pool {
                sum = sum.wrapping_add(i128::from(*flow));
            }
        }
        sum
    }

    /// Lowers flows into a product until its mean keeps each limit, or drops the product.
    fn mend_product(&mut self, outline: &Outline, blend: &Blend, product: usize) {
        for round in 0..ROUNDS {
            let _ = round;
            if !self.mend_limits(outline, blend, product) {
                return;
            }
        }
        for out in outline.meetings.outs_into.of(product) {
            put(&mut self.outs, *out, 0);
        }
        for direct in outline.meetings.directs_into.of(product) {
            put(&mut self.directs, *direct, 0);
        }
    }

    /// One round: whether a limit was broken.
    fn mend_limits(&mut self, outline: &Outline, blend: &Blend, product: usize) -> bool {
        let mut broken = false;
        for limit in outline.limits(product) {
            let balance = self.balance(outline, blend, product, *limit);
            if balance.left < 0 {
                broken |= self.lower_worst(balance);
            }
        }
        broken
    }

    /// Lowers the worst arc for a limit, if there is one.
    fn lower_worst(&mut self, balance: Balance) -> bool {
        let missing = balance.left.wrapping_neg();
        let each = balance.room.wrapping_neg();
        let _rest = match balance.worst {
            None => return false,
            Some(Along::Out(out)) => lower(&mut self.outs, out, missing, each),
            Some(Along::Direct(direct)) => lower(&mut self.directs, direct, missing, each),
        };
        true
    }

    fn balance(&self, outline: &Outline, blend: &Blend, product: usize, limit: Limit) -> Balance {
        let mut balance = Balance {
            left: 0,
            room: 0,
            worst: None,
        };
        for out in outline.meetings.outs_into.of(product) {
            let pool = outline.out(*out).from;
            let quality = blend.quality(outline, pool, limit.quality);
            let flow = at(&self.outs, *out, 0);
            let room = limit.room(quality, blend.base());
            balance.add(Along::Out(*out), room, flow);
        }
        for direct in outline.meetings.directs_into.of(product) {
            let room = limit.gap(outline.direct_quality(*direct, limit.quality));
            let flow = at(&self.directs, *direct, 0);
            let room = room.wrapping_mul(blend.base());
            balance.add(Along::Direct(*direct), room, flow);
        }
        balance
    }
}

impl Balance {
    fn add(&mut self, along: Along, room: i128, flow: u64) {
        let more = room.wrapping_mul(i128::from(flow));
        self.left = self.left.wrapping_add(more);
        if flow > 0 && room < self.room {
            self.room = room;
            self.worst = Some(along);
        }
    }
}

/// Lowers flows to their arcs' maxima.
fn cap(flows: &mut [u64], arcs: &[Arc]) {
    for (flow, arc) in flows.iter_mut().zip(arcs) {
        if let Some(max) = arc.max {
            let most = max.clamp(0, 4_611_686_018_427_387_904) as u64;
            *flow = (*flow).min(most);
        }
    }
}

/// Lowers a flow by the least number of millionths that makes up for `over`, each of which makes up for `each`, or as far as
/// it goes. What is left of `over`.
fn lower(flows: &mut [u64], place: usize, over: i128, each: i128) -> i128 {
    if over <= 0 || each <= 0 {
        return over;
    }
    let flow = at(flows, place, 0);
    let cut = least_cut(over.unsigned_abs(), each.unsigned_abs());
    let cut = cut.min(u128::from(flow)) as u64;
    put(flows, place, flow.wrapping_sub(cut));
    over.wrapping_sub(i128::from(cut).wrapping_mul(each))
}
