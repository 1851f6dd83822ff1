//! A sparse table, line by line, and what is computed along a line.

use crate::fixed::{GUARD_BITS, product, subtract};
use crate::lookup::{NOWHERE, at, put};
use std::alloc::{AllocError, Global};

/// A number, and its place in its line.
#[derive(Clone, Copy)]
pub struct Entry {
    pub place: usize,
    pub value: i64,
}

/// An entry of no line.
pub const NO_ENTRY: Entry = Entry {
    place: NOWHERE,
    value: 0,
};

/// The entries of a line, from `start` up to `end`.
#[derive(Clone, Copy)]
struct Span {
    start: usize,
    end: usize,
}

/// A table by lines, of which only what is not 0 is kept.
#[derive(Drop)]
pub struct Sparse {
    spans: Vec<Span>,
    entries: Vec<Entry>,
}

impl Sparse {
    /// The table of no lines.
    pub fn new(alloc: Global) -> Sparse {
        Sparse {
            spans: Vec::new(alloc),
            entries: Vec::new(alloc),
        }
    }

    /// The entries of a line, none past the last.
    #[inline]
    pub fn line(&self, place: usize) -> &[Entry] {
        let span = at(&self.spans, place, Span { start: 0, end: 0 });
        self.entries
            .as_slice()
            .get(span.start..span.end)
            .unwrap_or(&[])
    }

    /// How many lines there are.
    pub fn len(&self) -> usize {
        self.spans.len()
    }

    /// Adds an entry to the line that comes next.
    pub fn push_entry(&mut self, entry: Entry) -> Result<(), AllocError> {
        self.entries.push(entry)?;
        Ok(())
    }

    /// Makes a line of the entries that came since the last.
    pub fn end_line(&mut self) -> Result<(), AllocError> {
        let start = self.spans.last().map_or(0, |span| span.end);
        self.spans.push(Span {
            start,
            end: self.entries.len(),
        })?;
        Ok(())
    }

    /// The same table by its other side, which has `count` lines.
    pub fn transposed(&self, alloc: Global, count: usize) -> Result<Sparse, AllocError> {
        let mut entries = vec![in alloc; NO_ENTRY; self.entries.len()]?;
        let mut spans = self.empty_spans(alloc, count)?;
        for line in 0..self.len() {
            for entry in self.line(line) {
                let span = at(&spans, entry.place, Span { start: 0, end: 0 });
                let (place, value) = (line, entry.value);
                put(&mut entries, span.end, Entry { place, value });
                let (start, end) = (span.start, span.end.wrapping_add(1));
                put(&mut spans, entry.place, Span { start, end });
            }
        }
        Ok(Sparse { spans, entries })
    }

    /// The same lines with new numbers for the other side. What has none stays out.
    pub fn renumbered(&self, alloc: Global, numbers: &[usize]) -> Result<Sparse, AllocError> {
        let mut table = Sparse::new(alloc);
        for line in 0..self.len() {
            for entry in self.line(line) {
                let place = at(numbers, entry.place, NOWHERE);
                if place != NOWHERE {
                    let value = entry.value;
                    table.push_entry(Entry { place, value })?;
                }
            }
            table.end_line()?;
        }
        Ok(table)
    }

    /// For each line of the other side, the span that its entries will fill.
    fn empty_spans(&self, alloc: Global, count: usize) -> Result<Vec<Span>, AllocError> {
        let mut counts = vec![in alloc; 0usize; count]?;
        for entry in self.entries.iter() {
            let seen = at(&counts, entry.place, 0);
            put(&mut counts, entry.place, seen.wrapping_add(1));
        }
        let mut spans = Vec::new(alloc);
        let mut start = 0usize;
        for seen in counts.iter() {
            spans.push(Span { start, end: start })?;
            start = start.wrapping_add(*seen);
        }
        Ok(spans)
    }
}

/// The sum of the entries times the numbers at their places.
#[inline]
pub fn dot(line: &[Entry], numbers: &[i64]) -> i128 {
    let mut sum = 0i128;
    for entry in line {
        sum = sum.wrapping_add(product(entry.value, at(numbers, entry.place, 0)));
    }
    sum
}

/// The same, each product short of its guard bits.
#[inline]
pub fn guarded_dot(line: &[Entry], numbers: &[i64]) -> i128 {
    let mut sum = 0i128;
    for entry in line {
        sum = sum.wrapping_add(product(entry.value, at(numbers, entry.place, 0)) >> GUARD_BITS);
    }
    sum
}

/// Adds `factor` times the numbers to the sums, each product short of its guard bits.
#[inline]
pub fn add_multiple(sums: &mut [i128], numbers: &[i64], factor: i64) {
    for (sum, number) in sums.iter_mut().zip(numbers) {
        *sum = sum.wrapping_add(product(*number, factor) >> GUARD_BITS);
    }
}

/// Takes `factor` times the entries from the numbers at their places.
#[inline]
pub fn subtract_multiple(numbers: &mut [i64], entries: &[Entry], factor: i64) {
    for entry in entries {
        let place = entry.place;
        if place < numbers.len() {
            numbers[place] = subtract(numbers[place], entry.value, factor);
        }
    }
}

/// The number of a member in a list of entries, or 0.
pub fn number_of(entries: &[Entry], member: usize) -> i64 {
    for entry in entries {
        if entry.place == member {
            return entry.value;
        }
    }
    0
}
