//! Lists of points of form P, lent.

use crate::flows::Flows;

/// The lists of a point of form P: its flows, the qualities of its pools over their base, by pool and then by quality, and for each
/// out and each quality its pool's quality times its flow, over the base of the flows.
#[derive(Clone, Copy)]
pub struct QualSlices<'a> {
    pub flows: Flows<'a>,
    pub qual_base: u32,
    pub quals: &'a [i128],
    pub mix: &'a [i128],
}
