//! Proportions that are nearly whole over a small base.
//!
//! Proportions are found over the grain, though those of a best plan are often thirds or fifths. Over such a base its flows are short
//! fractions too, and it costs exactly what it should.

use crate::outline::GRAIN;
use std::alloc::{AllocError, Global};

/// The greatest small base.
const MOST_BASE: u32 = 256;

/// How far proportions may be from whole ones, in parts of the grain: as far as rounding and a step's margin move them.
const NEAR: i128 = 3;

/// Proportions over a base of their own.
#[derive(Drop)]
pub struct SmallParts {
    pub base: u32,
    pub parts: Vec<u32>,
}

/// The proportions of the grain over the least base in which all are nearly whole; none where that is not small, or where they are
/// exactly whole there, so that nothing is won.
pub fn small_parts(alloc: Global, parts: &[u32]) -> Result<Option<SmallParts>, AllocError> {
    for base in 1..=MOST_BASE {
        if let Some(far) = farthest(parts, base) {
            return if far == 0 {
                Ok(None)
            } else {
                let parts = whole_parts(alloc, parts, base)?;
                Ok(Some(SmallParts { base, parts }))
            };
        }
    }
    Ok(None)
}

/// How far the proportions are from whole ones over a base at the most, times the base; none where one is too far.
fn farthest(parts: &[u32], base: u32) -> Option<i128> {
    let mut most = 0;
    for part in parts {
        let whole = whole_part(*part, base);
        let exact = i128::from(*part).wrapping_mul(base.into());
        let far = whole.wrapping_mul(GRAIN).wrapping_sub(exact).wrapping_abs();
        if far > NEAR.wrapping_mul(base.into()) {
            return None;
        }
        most = most.max(far);
    }
    Some(most)
}

fn whole_parts(alloc: Global, parts: &[u32], base: u32) -> Result<Vec<u32>, AllocError> {
    let mut whole = Vec::with_capacity(alloc, parts.len())?;
    for part in parts {
        whole.push(whole_part(*part, base).clamp(0, GRAIN) as u32)?;
    }
    Ok(whole)
}

/// The nearest part of a base.
fn whole_part(part: u32, base: u32) -> i128 {
    let exact = i128::from(part).wrapping_mul(base.into());
    exact.wrapping_add(GRAIN / 2) / GRAIN
}
