//! Whether lists of numbers are a point of an exact program: row by row and product by product.
//!
//! [`PropSlices`] lends the lists of a point of form Q, [`QualSlices`] those of a point of form P. [`is_prop_point`] and
//! [`is_qual_point`] say whether it is one within the limits, [`are_bases`] whether bases are within theirs. Shape, sizes, the ends
//! of qualities and products are tested first, so that every sum fits.
//!
//! Beneath them are the rules of the network on flows, and the qualities that flows bring:
//!
//! - [`Flows`]: flows of feeds, outs and directs over a base.
//! - [`flows_fit`]: whether no flow is too large, and none is above the maximum of its arc; [`are_at_most`]: whether no number is above
//!   another.
//! - [`carry`]: whether no node takes or sends more than it may, and what flows into a pool flows out of it.
//! - [`sum_at_node`]: the sum of flows at a node.
//! - [`quality_into`]: the quality that flows bring to a node, and [`is_within_limits`], whether a product's
//!   mean lies between its limits.
//!
//! `specs/Flows.antt` says which plan flows stand for, and `specs/Qualities.antt` what they bring. `specs/PropSlices.antt` and
//! `specs/QualSlices.antt` say which point of `program_model` the lists stand for, and `specs/ProportionTests.antt` and
//! `specs/QualityTests.antt` what the tests look at, part by part. No call takes memory.
//!
//! Proofs above may cite `proofs/QualPoints.antt`: what the tests of a point of P show of it, and how large its numbers are.
#![tactic(auto)]

mod carried;
mod carriers;
mod fits;
mod flows;
mod maxima;
mod prop_checks;
mod prop_limits;
mod prop_slices;
mod qual_checks;
mod qual_limits;
mod qual_slices;
mod qual_sums;
mod qualities;
mod sums;

pub use carried::carry;
pub use carriers::Carrier;
pub use fits::{are_at_most, are_proportions, flows_fit, most_flow};
pub use flows::Flows;
pub use prop_checks::are_bases;
pub use prop_limits::is_prop_point;
pub use prop_slices::PropSlices;
pub use qual_limits::is_qual_point;
pub use qual_slices::QualSlices;
pub use qualities::{is_within_limits, quality_into, weighted};
pub use sums::{room, sum_at_node};
