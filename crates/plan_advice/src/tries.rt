//! In which order plans near a point are tried.
//!
//! First the flows of least cost at the point's own proportions. Then steps from the point's own flows, of three radii. Then
//! steps from the best plan so far, of a radius that doubles where a step gains and shrinks where none does, as long as a step's
//! program takes some plan to be cheaper. A plan that is cheaper than the caller's best one is polished. Last, the exact vertex at the best
//! plan's proportions, and at the nearest ones of a small base.
//!
//! Steps go from plans that this search found, and never from the caller's best plan. So who asks again about the same
//! point, with what he was answered for his best plan, is told nothing new. The caller's best plan only ends a search early,
//! before a step from a plan: where the last step's program takes no plan near it to be cheaper, or where the plan is a little above
//! the caller's, on the same hill as that.

use crate::solving::solve;
use blend_network::Network;
use flow_programs::{
    ArcFlows, Blend, GRAIN, Layout, Outline, Outlook, Place, Proportions, Reach, Stepped, Vertex,
    flow_program, flows_of, rounded, small_parts, step_end, step_program, vertex_of,
};
use lp_sparse::lookup::{at, put};
use plan_core::{Cost, WrittenPlan, check_plan, compare_cost};
use std::alloc::{AllocError, Global};
use std::cmp::Ordering;

/// The flow of a pool, in units of 2^-32 millionths, below which it counts as empty.
const EMPTY: i128 = 4_294_967_296;

/// The steps from the point's own flows. Those of the middle radius are left out once a step has gained.
const FROM_POINT: [Reach; 5] = [
    Reach {
        radius: GRAIN,
        margin: 0,
    },
    Reach {
        radius: GRAIN,
        margin: 1,
    },
    Reach {
        radius: MIDDLE,
        margin: 1,
    },
    Reach {
        radius: NEAR,
        margin: 1,
    },
    Reach {
        radius: NEAR,
        margin: 2,
    },
];

const MIDDLE: i128 = 209_715;

const NEAR: i128 = 5_242;

/// The radius of the first step from a plan, and the least radius.
const FIRST_RADIUS: i128 = 314_572;

const LEAST_RADIUS: i128 = 64;

/// How many steps are taken from a plan.
const STEPS: u32 = 20;

/// What a step from a plan has to gain: a millionth of money, in picos over the grain.
const LEAST_GAIN: i128 = 1_048_576_000_000;

/// The part of a plan's cost that a step's program has to gain, for shorter steps to be tried.
const LEAST_PART: i128 = 4_194_304;

/// The part of the limit by which a plan may be dearer and still be on the hill of the caller's best plan: steps from it lead there again.
const SAME_HILL: i128 = 65_536;

/// The part of the limit by which a plan may be dearer and still be gone on from, where the last step's program is against
/// it.
const NEAR_LIMIT: i128 = 200;

/// A plan that obeys, and what it costs. But for the exact one at the end, all have the grain for their base.
#[derive(Drop)]
struct Found {
    plan: WrittenPlan,
    cost: Cost,
}

/// Where steps begin: proportions and outflows.
#[derive(Drop)]
struct Start {
    parts: Vec<u32>,
    outflows: Vec<u64>,
}

/// The last bases of the two kinds of programs, from which the next ones start.
#[derive(Drop)]
struct Bases {
    flows: Vec<u32>,
    steps: Vec<u32>,
}

/// A search for plans near a point, with the cheapest that was found.
#[derive(Drop)]
pub struct Search<'a> {
    net: &'a Network,
    outline: &'a Outline,
    bases: Bases,
    best: Option<Found>,
    /// What the best plan of the caller costs, in picos over the grain.
    limit: Option<i128>,
    /// What the program of the first step takes plans to cost, or that of the last radius from a plan, in picos over the grain.
    outlook: Option<i128>,
}

impl<'a> Search<'a> {
    pub fn new(
        alloc: Global,
        net: &'a Network,
        outline: &'a Outline,
        limit: Option<Cost>,
    ) -> Search<'a> {
        let bases = Bases {
            flows: Vec::new(alloc),
            steps: Vec::new(alloc),
        };
        Search {
            net,
            outline,
            bases,
            best: None,
            limit: limit.map(over_grain),
            outlook: None,
        }
    }

    /// Looks for plans near the point.
    pub fn run(&mut self, alloc: Global, point: &[i128]) -> Result<(), AllocError> {
        let start = Start::new(alloc, self.outline, point)?;
        self.from_point(alloc, &start)?;
        self.from_plan(alloc)?;
        if self.is_new_best() {
            self.polish(alloc)?;
        }
        if self.is_near() {
            self.exact(alloc)?;
        }
        Ok(())
    }

    /// The cheapest plan that was found.
    pub fn into_best(self) -> Option<WrittenPlan> {
        self.best.map(|found| shortened(found.plan))
    }

    /// The plans at the point's proportions and after a step from there.
    fn from_point(&mut self, alloc: Global, start: &Start) -> Result<(), AllocError> {
        self.at_parts(alloc, Vec::from_slice(alloc, &start.parts)?)?;
        let first = self.cost();
        for reach in FROM_POINT {
            if self.is_on_the_hill() {
                break;
            }
            if reach.radius != MIDDLE || self.cost() >= first {
                let _outlook = self.after_step(alloc, start, reach)?;
            }
        }
        Ok(())
    }

    /// Steps from the best plan, as long as they gain or can be shorter, and may lead below the limit.
    fn from_plan(&mut self, alloc: Global) -> Result<(), AllocError> {
        let mut radius = FIRST_RADIUS;
        for step in 0..STEPS {
            let _ = step;
            if radius < LEAST_RADIUS || self.is_on_the_hill() || !self.is_promising() {
                break;
            }
            radius = match self.start(alloc)? {
                None => 0,
                Some(start) => self.next_radius(alloc, &start, radius)?,
            };
        }
        Ok(())
    }

    /// Steps of a radius from the best plan, with no margin or else with one. The next radius: twice as much where one gained, a quarter of
    /// how far they went where none did, and 0 where the first one's program takes no plan to be cheaper.
    fn next_radius(
        &mut self,
        alloc: Global,
        start: &Start,
        radius: i128,
    ) -> Result<i128, AllocError> {
        let cost = self.cost();
        let hoped = cost.wrapping_sub(cost.wrapping_abs() / LEAST_PART);
        let mut length = 0;
        for margin in [0, 1] {
            if let Some(outlook) = self.after_step(alloc, start, Reach { radius, margin })? {
                if margin == 0 {
                    self.outlook = Some(outlook.cost);
                }
                if self.cost() < cost.wrapping_sub(LEAST_GAIN) {
                    return Ok(radius.wrapping_mul(2).min(GRAIN));
                }
                if margin == 0 && outlook.cost > hoped {
                    return Ok(0);
                }
                length = outlook.length.max(length);
            }
        }
        Ok(length.min(radius) / 4)
    }

    /// The proportions and the outflows of the best plan.
    fn start(&self, alloc: Global) -> Result<Option<Start>, AllocError> {
        match &self.best {
            None => Ok(None),
            Some(found) => Ok(Some(Start {
                parts: Vec::from_slice(alloc, &found.plan.weights)?,
                outflows: Vec::from_slice(alloc, &found.plan.outflows)?,
            })),
        }
    }

    /// What the best plan costs, in picos over the grain; more than any plan where there is none.
    pub(crate) fn cost(&self) -> i128 {
        self.best.as_ref().map_or(i128::MAX, |found| found.cost.num)
    }

    /// The plan at the proportions to which a step leads. How the step's program sees it, where it has a point.
    fn after_step(
        &mut self,
        alloc: Global,
        start: &Start,
        reach: Reach,
    ) -> Result<Option<Outlook>, AllocError> {
        let place = Place {
            parts: &start.parts,
            outflows: &start.outflows,
        };
        match self.step(alloc, place, reach)? {
            None => Ok(None),
            Some(stepped) => {
                let Stepped { parts, outlook } = stepped;
                self.outlook = self.outlook.or(Some(outlook.cost));
                self.at_parts(alloc, parts)?;
                Ok(Some(outlook))
            }
        }
    }

    /// Where a step leads; none where its program seems to have no point.
    fn step(
        &mut self,
        alloc: Global,
        place: Place<'_>,
        reach: Reach,
    ) -> Result<Option<Stepped>, AllocError> {
        let mut program = step_program(alloc, self.outline, place, reach)?;
        match solve(alloc, &mut program, &mut self.bases.steps)? {
            None => Ok(None),
            Some(advice) => {
                let point = advice.point.as_slice();
                let stepped = step_end(alloc, self.outline, place, &program, point)?;
                Ok(Some(stepped))
            }
        }
    }

    /// Whether steps from the best plan may lead below the limit: a step's program says so, or the plan is no dearer than the limit by
    /// more than a part of it.
    fn is_promising(&self) -> bool {
        match (self.limit, self.outlook) {
            (Some(limit), Some(outlook)) => {
                let above = self.cost().saturating_sub(limit);
                outlook < limit || above <= limit.wrapping_abs() / NEAR_LIMIT
            }
            _ => true,
        }
    }

    /// Whether the best plan is on the hill of the caller's: no cheaper, and dearer by a small part of the limit at the most.
    fn is_on_the_hill(&self) -> bool {
        self.is_near() && self.limit.is_some_and(|limit| self.cost() >= limit)
    }

    /// Whether the best plan is cheaper than the limit, or dearer by a small part of it at the most.
    fn is_near(&self) -> bool {
        match self.limit {
            None => true,
            Some(limit) => { self.cost().saturating_sub(limit) < limit.wrapping_abs() / SAME_HILL }
        }
    }

    /// Whether there is a plan, cheaper than the limit.
    fn is_new_best(&self) -> bool {
        self.best.is_some() && self.limit.is_none_or(|limit| self.cost() < limit)
    }

    /// The network's numbers.
    pub(crate) fn outline(&self) -> &'a Outline {
        self.outline
    }

    /// The best plan's weights; none where there is no plan.
    pub(crate) fn weights(&self) -> &[u32] {
        match &self.best {
            None => &[],
            Some(found) => &found.plan.weights,
        }
    }

    /// The plan of least cost at these proportions, mended.
    pub(crate) fn at_parts(&mut self, alloc: Global, parts: Vec<u32>) -> Result<(), AllocError> {
        let proportions = Proportions::over_grain(&parts);
        let base = proportions.base;
        if let Some(flows) = self.mended_flows(alloc, proportions)? {
            self.keep(WrittenPlan {
                base,
                flow_base: 1,
                weights: parts,
                outflows: flows.outs,
                direct: flows.directs,
            });
        }
        Ok(())
    }

    fn mended_flows(
        &mut self,
        alloc: Global,
        proportions: Proportions<'_>,
    ) -> Result<Option<ArcFlows>, AllocError> {
        let blend = Blend::new(alloc, self.outline, proportions)?;
        let mut program = flow_program(alloc, self.outline, &blend)?;
        match solve(alloc, &mut program, &mut self.bases.flows)? {
            None => Ok(None),
            Some(advice) => {
                let outs = self.outline.arcs.outs.len();
                let directs = self.outline.arcs.directs.len();
                let mut flows = ArcFlows {
                    outs: flows_of(alloc, &advice.point, 0, outs)?,
                    directs: flows_of(alloc, &advice.point, outs, directs)?,
                };
                flows.mend(self.outline, &blend);
                Ok(Some(flows))
            }
        }
    }

    /// The plans at the vertex of the flows at the best plan's proportions, over the grain and over a small base, where they can be had.
    fn exact(&mut self, alloc: Global) -> Result<(), AllocError> {
        if let Some(start) = self.start(alloc)? {
            let small = small_parts(alloc, &start.parts)?;
            self.at_vertex(alloc, 1_048_576, start.parts)?;
            if let Some(small) = small {
                self.at_vertex(alloc, small.base, small.parts)?;
            }
        }
        Ok(())
    }

    /// The plan at the vertex of the flows at these proportions, if it can be had.
    fn at_vertex(&mut self, alloc: Global, base: u32, parts: Vec<u32>) -> Result<(), AllocError> {
        let proportions = Proportions {
            base,
            parts: &parts,
        };
        if let Some(vertex) = self.exact_flows(alloc, proportions)? {
            self.keep(WrittenPlan {
                base,
                flow_base: vertex.base,
                weights: parts,
                outflows: vertex.outflows,
                direct: vertex.directs,
            });
        }
        Ok(())
    }

    fn exact_flows(
        &mut self,
        alloc: Global,
        proportions: Proportions<'_>,
    ) -> Result<Option<Vertex>, AllocError> {
        let blend = Blend::new(alloc, self.outline, proportions)?;
        let program = flow_program(alloc, self.outline, &blend)?;
        let mut short = flow_program(alloc, self.outline, &blend)?;
        match solve(alloc, &mut short, &mut self.bases.flows)? {
            None => Ok(None),
            Some(advice) => vertex_of(alloc, &program, &advice, self.outline.arcs.outs.len()),
        }
    }

    /// Keeps a plan that obeys and is better than the best.
    fn keep(&mut self, plan: WrittenPlan) {
        if let Ok(cost) = check_plan(self.net, &plan) {
            if self.is_better(&plan, &cost) {
                self.best = Some(Found { plan, cost });
            }
        }
    }

    /// Whether a plan of this cost is cheaper than the best, or costs as much and has a smaller base.
    fn is_better(&self, plan: &WrittenPlan, cost: &Cost) -> bool {
        match &self.best {
            None => true,
            Some(best) if cost.base > 0 && best.cost.base > 0 => {
                match compare_cost(cost, &best.cost) {
                    Ordering::Less => true,
                    Ordering::Equal => plan.base < best.plan.base,
                    Ordering::Greater => false,
                }
            }
            Some(_) => false,
        }
    }
}

impl Start {
    /// A point's own proportions and outflows.
    fn new(alloc: Global, outline: &Outline, point: &[i128]) -> Result<Start, AllocError> {
        let feeds = outline.arcs.feeds.len();
        let outs = outline.arcs.outs.len();
        Ok(Start {
            parts: start_parts(alloc, outline, point)?,
            outflows: flows_of(alloc, point, feeds, outs)?,
        })
    }
}

/// The same plan over the least base, where that is a power of two.
fn shortened(plan: WrittenPlan) -> WrittenPlan {
    let mut plan = plan;
    let mut bits = plan.base.trailing_zeros();
    for weight in plan.weights.iter() {
        bits = bits.min(weight.trailing_zeros());
    }
    plan.base = plan.base.unbounded_shr(bits);
    for weight in plan.weights.iter_mut() {
        *weight = weight.unbounded_shr(bits);
    }
    plan
}

/// A cost in picos over the grain.
fn over_grain(cost: Cost) -> i128 {
    let picos = cost.num.checked_div(i128::from(cost.base)).unwrap_or(0);
    picos.wrapping_mul(GRAIN)
}

/// The point's own proportions: what flows along the feeds or, for a pool that is nearly empty, the point's proportions
/// themselves.
fn start_parts(alloc: Global, outline: &Outline, point: &[i128]) -> Result<Vec<u32>, AllocError> {
    let feeds = outline.arcs.feeds.len();
    let mut numbers = Vec::with_capacity(alloc, feeds)?;
    for feed in 0..feeds {
        numbers.push(at(point, feed, 0).max(0))?;
    }
    let totals = outline.pool_sums(alloc, &numbers)?;
    let first = first_proportion(outline);
    for (feed, arc) in outline.arcs.feeds.iter().enumerate() {
        if at(&totals, arc.to, 0) < EMPTY {
            let number = at(point, first.saturating_add(feed), 0);
            put(&mut numbers, feed, number.max(0));
        }
    }
    rounded(alloc, outline, &numbers)
}

/// The variable of the first proportion: it stands behind the flows of arcs and of paths.
fn first_proportion(outline: &Outline) -> usize {
    let mut first = Layout::new(outline).feeds;
    first = first.saturating_add(outline.arcs.feeds.len());
    for arc in outline.arcs.outs.iter() {
        let feeds = outline.meetings.feeds_into.of(arc.from).len();
        first = first.saturating_add(feeds);
    }
    first
}
