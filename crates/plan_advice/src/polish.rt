//! A plan's weights, polished by single units.
//!
//! Proportions are rounded to the grain, and steps can't be shorter than that. So a plan may stay a little above the best one of its
//! hill. Units of weight go from one feed of a pool to another, as long as that makes the plan cheaper.

use crate::tries::Search;
use lp_sparse::lookup::{at, put};
use std::alloc::{AllocError, Global};

/// How many programs a polish may take.
const PROGRAMS: u32 = 60;

/// How many units go at a time, one after the other.
const UNITS: [u32; 3] = [16, 4, 1];

/// A move of units of weight between two feeds of a pool.
#[derive(Clone, Copy)]
struct Move {
    pool: usize,
    from: usize,
    to: usize,
}

impl Search<'_> {
    /// Polishes the best plan, as long as that makes it cheaper.
    pub(crate) fn polish(&mut self, alloc: Global) -> Result<(), AllocError> {
        let moves = self.moves(alloc)?;
        let mut left = PROGRAMS;
        for _ in 0..PROGRAMS {
            let before = self.cost();
            for units in UNITS {
                self.move_each(alloc, moves.as_slice(), units, &mut left)?;
            }
            if self.cost() >= before {
                self.move_two(alloc, moves.as_slice(), &mut left)?;
            }
            if self.cost() >= before || left == 0 {
                return Ok(());
            }
        }
        Ok(())
    }

    /// All moves between two feeds of a pool.
    fn moves(&self, alloc: Global) -> Result<Vec<Move>, AllocError> {
        let outline = self.outline();
        let mut moves = Vec::new(alloc);
        for pool in 0..outline.nodes.pools.len() {
            let feeds = outline.meetings.feeds_into.of(pool);
            for to in feeds {
                for from in feeds {
                    if to != from {
                        moves.push(Move {
                            pool,
                            from: *from,
                            to: *to,
                        })?;
                    }
                }
            }
        }
        Ok(moves)
    }

    /// Tries each move of so many units.
    fn move_each(
        &mut self,
        alloc: Global,
        moves: &[Move],
        units: u32,
        left: &mut u32,
    ) -> Result<(), AllocError> {
        for one in moves {
            self.try_moves(alloc, &[*one], units, left)?;
        }
        Ok(())
    }

    /// Tries moves of a unit in two pools, until one makes the plan cheaper.
    fn move_two(
        &mut self,
        alloc: Global,
        moves: &[Move],
        left: &mut u32,
    ) -> Result<(), AllocError> {
        let before = self.cost();
        for (place, one) in moves.iter().enumerate() {
            for other in moves.iter().skip(place.saturating_add(1)) {
                if self.cost() < before || *left == 0 {
                    return Ok(());
                }
                if one.pool != other.pool {
                    self.try_moves(alloc, &[*one, *other], 1, left)?;
                }
            }
        }
        Ok(())
    }

    /// Tries the best plan's weights after some moves of so many units, where the feeds have them.
    fn try_moves(
        &mut self,
        alloc: Global,
        moves: &[Move],
        units: u32,
        left: &mut u32,
    ) -> Result<(), AllocError> {
        if *left == 0 {
            return Ok(());
        }
        let mut parts = Vec::from_slice(alloc, self.weights())?;
        for one in moves {
            let from = at(&parts, one.from, 0);
            let to = at(&parts, one.to, 0);
            if from < units || to == 0 {
                return Ok(());
            }
            put(&mut parts, one.from, from.wrapping_sub(units));
            put(&mut parts, one.to, to.wrapping_add(units));
        }
        *left = left.saturating_sub(1);
        self.at_parts(alloc, parts)
    }
}
