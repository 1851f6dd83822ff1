//! Lists of points of form Q, lent.

use crate::flows::Flows;

/// The lists of a point of form Q: its flows, its proportions over their base, and what flows along each path over that of the
/// flows.
#[derive(Clone, Copy)]
pub struct PropSlices<'a> {
    pub flows: Flows<'a>,
    pub prop_base: u32,
    pub props: &'a [u32],
    pub paths: &'a [u128],
}
