//! The sums of a pass over a proof's parts.

use exact_num::Weight;

/// What the costs and the parts so far weigh, and the sum of the parts' multiplied constants.
#[derive(Drop)]
pub(crate) struct Sums {
    pub(crate) weight: Weight,
    pub(crate) constants: i128,
}
