//! The way back from points of the exact programs to written plans.
//!
//! [`q::plan_of`] and [`pq::plan_of`] take a [`PropPoint`] apart, [`p::plan_of`] a [`QualPoint`]; `point_of` beside each of them gives such a
//! point of a plan. They test whether it is a point of the program, row by row and product by product,
//! and give the plan that it stands for, over the least bases for its flows and, of a point of P, for the parts of its feeds. The
//! plan is well written, it obeys, and it has the point's flows and its cost. [`FormFault`] says why a point has no plan:
//! [`FormFault::NotAPoint`] exactly where it is none of the program within the limits, and then [`FormFault::TooFine`] exactly
//! where a least base passes the limit of written plans.
//!
//! [`common_divisor`] is the greatest common divisor of a number and others, [`flow_divisor`] that of a base and the flows over it,
//! [`lcm`] the least common multiple of two. [`divided`] gives flows over a divisor. [`part_base`] gives the least base over which
//! each feed's part of what its pool sends is whole, where it is within the limit of written plans, and [`weights`] the weights over
//! a base that makes the parts whole. All weight of a pool that sends nothing stands on its first feed.
//!
//! `point_checks` says what the tests look at, part by part, `program_model` what the plan of a point is, `specs/Parts.antt` what
//! the parts of feeds are, and `specs/Divisors.antt` what divisors and multiples are, by what they divide and what they are divided
//! by.
#![tactic(auto)]

mod divisors;
mod fault;
mod feeds;
mod flow_divisors;
mod made;
pub mod p;
mod part_bases;
pub mod pq;
pub mod q;
mod slices;

pub use divisors::{common_divisor, gcd, lcm};
pub use fault::FormFault;
pub use feeds::weights;
pub use flow_divisors::{divided, flow_divisor};
pub use part_bases::part_base;
pub use point_checks::flows_fit;
pub use program_points::{PropPoint, QualPoint};
