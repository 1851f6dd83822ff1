//! By how much the products of a program are violated at a point, by coordinate.

ghost use Rattle.std.specs.Prelude.{◌<◌};
ghost use Rattle.pool_model.specs.Network.{net_of};

use crate::square_root::square_root;
use blend_network::Network;
use box_space::{Block, Form, coords, flow_coordinate, quality_coordinate, variable_number};
use linear_program::{Advice, Lp};
use lp_sparse::fixed::clamped;
use lp_sparse::lookup::{at, put};
use row_book::{Group, exact_rows};
use std::alloc::{AllocError, Global};

/// How many parts a proportion is counted in.
const GRAIN: i128 = 1_048_576;

/// The greatest size of a path's value: 2^90.
const MOST_VALUE: i128 = 1_237_940_039_285_380_274_899_124_224;

/// The greatest violation and the greatest weight that count: 2^50 and 2^40.
const MOST_VIOLATION: i64 = 1_125_899_906_842_624;

const MOST_WEIGHT: u64 = 1_099_511_627_776;

/// A number of the point, in parts of 2^20.
fn point_at(advice: &Advice, variable: u32) -> i128 {
    at(advice.point.as_slice(), variable as usize, 0).unbounded_shr(12)
}

fn add(sums: &mut Vec<i128>, place: u32, number: i128) {
    let sum = at(sums.as_slice(), place as usize, 0).saturating_add(number);
    put(sums.as_mut_slice(), place as usize, sum);
}

/// By how much the products of each coordinate are violated at the point of an advice on a program of the form, by number.
// Promise: By how much a coordinate is missed is counted for all bounds of cuts and every advice, of whatever program
pub fn violations(
    alloc: Global,
    net: &Network,
    form: Form,
    program: &Lp,
    advice: &Advice,
) -> Result<Vec<i128>, AllocError> {
    match form {
        Form::P => mixed_violations(alloc, net, advice),
        Form::Q | Form::Pq => path_violations(alloc, net, program, advice),
    }
}

/// In form P: how far each mixed variable is from its pool's quality times its flow, for both coordinates; the more the pool leaves of the
/// quality, the more of that reaches a product.
fn mixed_violations(
    alloc: Global,
    net: &Network,
    advice: &Advice,
) -> Result<Vec<i128>, AllocError> {
    let counts = net.sizes();
    let mut sums = vec![in alloc; 0i128; coords(net) as usize]?;
    for out in 0..counts.outs {
        let (pool, _) = net.out(out);
        let flow = point_at(advice, variable_number(net, Block::Outs, out));
        for quality in 0..counts.qualities {
            let held = point_at(
                advice,
                variable_number(net, Block::Qualities(quality), pool),
            );
            let mixed = point_at(advice, variable_number(net, Block::Mixed(quality), out));
            let product = held.wrapping_mul(flow.unbounded_shr(8)).unbounded_shr(12);
            let gap = mixed.wrapping_sub(product).wrapping_abs().unbounded_shr(40);
            let violation = gap.wrapping_mul(net.retained(pool, quality).into());
            add(&mut sums, quality_coordinate(net, pool, quality), violation);
            add(&mut sums, flow_coordinate(net, out), violation);
        }
    }
    Ok(sums)
}

/// What the weights of paths are made of.
#[derive(Drop)]
struct Worths {
    /// How far what is left of each feed's qualities is from the means of its pool, in thousandths, and 1 more.
    feeds: Vec<u64>,
    /// What a unit along each path is worth by the duals of the rows without envelopes, in parts of 2^20.
    paths: Vec<i128>,
    /// The mean of the paths of each out.
    outs: Vec<i128>,
}

impl Worths {
    /// The distances and the values, of a point and its duals.
    fn new(
        alloc: Global,
        net: &Network,
        program: &Lp,
        advice: &Advice,
    ) -> Result<Worths, AllocError> {
        let paths = path_values(alloc, net, program, advice)?;
        Ok(Worths {
            feeds: feed_distances(alloc, net, advice)?,
            outs: out_values(alloc, net, advice, paths.as_slice())?,
            paths,
        })
    }

    /// The weight of a path of a feed and an out: f^(5/8) * v^(3/8), for f how far the feed's qualities are from the pool's means,
    /// and v how far the path's value is from the mean of its out.
    fn weight(&self, path: u32, feed: u32, out: u32) -> u64 {
        let value = at(self.paths.as_slice(), path as usize, 0);
        let mean = at(self.outs.as_slice(), out as usize, 0);
        let apart = value.wrapping_sub(mean).wrapping_abs().unbounded_shr(20);
        let apart = clamped(apart).max(0).unsigned_abs().saturating_add(1);
        let far = at(self.feeds.as_slice(), feed as usize, 1);
        let half = root(far, apart);
        root(half, root(far, half)).saturating_add(1)
    }
}

/// In forms Q and PQ: how far what flows along each path is from its feed's proportion times its out's flow, times the path's weight,
/// for both coordinates.
fn path_violations(
    alloc: Global,
    net: &Network,
    program: &Lp,
    advice: &Advice,
) -> Result<Vec<i128>, AllocError> {
    let worths = Worths::new(alloc, net, program, advice)?;
    let mut sums = vec![in alloc; 0i128; coords(net) as usize]?;
    for path in 0..net.paths() {
        let (feed, out) = net.path(path);
        let share = point_at(advice, variable_number(net, Block::Proportions, feed));
        let flow = point_at(advice, variable_number(net, Block::Outs, out));
        let along = point_at(advice, variable_number(net, Block::Paths, path));
        let product = share.unbounded_shr(10).wrapping_mul(flow.unbounded_shr(10)) / GRAIN;
        let gap = along.wrapping_sub(product).wrapping_abs().unbounded_shr(10);
        // most paths are not violated, and need no weight
        if gap != 0 {
            let gap = i128::from(clamped(gap).min(MOST_VIOLATION));
            let weight = i128::from(worths.weight(path, feed, out).min(MOST_WEIGHT));
            let weighed = gap.wrapping_mul(weight);
            add(&mut sums, feed, weighed);
            add(&mut sums, flow_coordinate(net, out), weighed);
        }
    }
    Ok(sums)
}

/// The geometric mean of two numbers, rounded down.
fn root(a: u64, b: u64) -> u64 {
    square_root(u128::from(a).saturating_mul(u128::from(b)))
}

/// How far what is left of each feed's qualities is from the means of its pool, in thousandths, and 1 more.
fn feed_distances(alloc: Global, net: &Network, advice: &Advice) -> Result<Vec<u64>, AllocError> {
    let means = pool_qualities(alloc, net, advice)?;
    let mut distances = Vec::new(alloc);
    for feed in 0..net.sizes().feeds {
        distances.push(feed_distance(net, means.as_slice(), feed))?;
    }
    Ok(distances)
}

/// How far the qualities of a feed are from the means of its pool, as far as this leaves them, in thousandths, and 1 more.
fn feed_distance(net: &Network, means: &[i128], feed: u32) -> u64
    requires { feed < (net_of net.now).feeds }
{
    let counts = net.sizes();
    let (source, pool) = net.feed(feed);
    let mut far = 1i128;
    for quality in 0..counts.qualities {
        let own = i128::from(net.source_quality(source, quality)).wrapping_mul(GRAIN);
        let mean = at(means, (pool * counts.qualities + quality) as usize, 0);
        let apart = own.wrapping_sub(mean).wrapping_abs().unbounded_shr(20);
        far = far.saturating_add(apart.wrapping_mul(net.retained(pool, quality).into()));
    }
    clamped(far / 1000).max(0).unsigned_abs().saturating_add(1)
}

/// The mean of each quality in each pool, in parts of 2^20, by pool and then quality, by its feeds' proportions.
fn pool_qualities(alloc: Global, net: &Network, advice: &Advice) -> Result<Vec<i128>, AllocError> {
    let counts = net.sizes();
    let mut means = vec![in alloc; 0i128; (counts.pools * counts.qualities) as usize]?;
    for feed in 0..counts.feeds {
        let (source, pool) = net.feed(feed);
        let share = point_at(advice, variable_number(net, Block::Proportions, feed)) / GRAIN;
        for quality in 0..counts.qualities {
            let part = share.wrapping_mul(i128::from(net.source_quality(source, quality)));
            add(&mut means, pool * counts.qualities + quality, part);
        }
    }
    Ok(means)
}

/// What a unit along each path is worth: the sum of dual times coefficient over the rows that are no envelopes.
fn path_values(
    alloc: Global,
    net: &Network,
    program: &Lp,
    advice: &Advice,
) -> Result<Vec<i128>, AllocError> {
    let counts = net.sizes();
    let first = counts.feeds + counts.outs + counts.directs;
    // the envelopes of Q stand between its other rows and those that PQ adds
    let exact = exact_rows(net, Group::Q);
    let envelopes = exact.first + exact.count..exact_rows(net, Group::Further).first;
    let mut values = vec![in alloc; 0i128; counts.paths as usize]?;
    for (row, dual) in program.rows.iter().zip(&advice.duals) {
        if *dual != 0 && !envelopes.contains(&row.id) {
            let dual = i128::from(clamped(dual.unbounded_shr(12)));
            for term in row.terms.iter() {
                if term.var >= first {
                    add(
                        &mut values,
                        term.var - first,
                        dual.saturating_mul(term.coef),
                    );
                }
            }
        }
    }
    for value in values.iter_mut() {
        *value = (*value).clamp(-MOST_VALUE, MOST_VALUE);
    }
    Ok(values)
}

/// The mean value of the paths along each out, by their feeds' proportions.
fn out_values(
    alloc: Global,
    net: &Network,
    advice: &Advice,
    paths: &[i128],
) -> Result<Vec<i128>, AllocError> {
    let counts = net.sizes();
    let mut outs = vec![in alloc; 0i128; counts.outs as usize]?;
    for path in 0..net.paths() {
        let (feed, out) = net.path(path);
        let share = point_at(advice, variable_number(net, Block::Proportions, feed));
        let value = at(paths, path as usize, 0).unbounded_shr(10);
        add(
            &mut outs,
            out,
            share.unbounded_shr(10).wrapping_mul(value) / GRAIN,
        );
    }
    Ok(outs)
}
