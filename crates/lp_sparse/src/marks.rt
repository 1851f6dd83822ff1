//! A set of places below a limit, in the order in which they came.
//!
//! It is as long as its limit from the start, so that adding a place takes no memory and cannot fail. Going over it and
//! emptying it cost what it holds, and not its limit.

use crate::lookup::{NOWHERE, at, put};
use std::alloc::{AllocError, Global};

/// A set of places, in order.
#[derive(Drop)]
pub struct Marks {
    places: Vec<usize>,
    is_marked: Vec<bool>,
    count: usize,
}

impl Marks {
    /// The empty set of places below `limit`.
    pub fn new(alloc: Global, limit: usize) -> Result<Marks, AllocError> {
        Ok(Marks {
            places: vec![in alloc; NOWHERE; limit]?,
            is_marked: vec![in alloc; false; limit]?,
            count: 0,
        })
    }

    /// How many places there are.
    #[inline]
    pub fn len(&self) -> usize {
        self.count
    }

    /// The place that came in this turn, or `NOWHERE`.
    #[inline]
    pub fn place(&self, turn: usize) -> usize {
        at(&self.places, turn, NOWHERE)
    }

    /// Whether a place is in the set, or past the limit.
    #[inline]
    pub fn contains(&self, place: usize) -> bool {
        at(&self.is_marked, place, true)
    }

    /// Adds a place, and says whether it is new. One past the limit is not.
    #[inline]
    pub fn mark(&mut self, place: usize) -> bool {
        if self.contains(place) {
            return false;
        }
        put(&mut self.is_marked, place, true);
        put(&mut self.places, self.count, place);
        self.count = self.count.wrapping_add(1);
        true
    }

    /// Takes the mark from a place. It stays in the list until `cut`.
    #[inline]
    pub fn unmark(&mut self, place: usize) {
        put(&mut self.is_marked, place, false);
    }

    /// Moves a place of the list to an earlier turn.
    #[inline]
    pub fn move_to(&mut self, turn: usize, place: usize) {
        put(&mut self.places, turn, place);
    }

    /// Ends the list after `count` places. Those past it have no mark any more.
    #[inline]
    pub fn cut(&mut self, count: usize) {
        self.count = count;
    }

    /// Takes all places out.
    pub fn clear(&mut self) {
        for turn in 0..self.count {
            let place = self.place(turn);
            self.unmark(place);
        }
        self.count = 0;
    }
}
