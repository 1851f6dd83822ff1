//! Points of the exact programs, as code holds them, and the points of written plans.
//!
//! A [`PropPoint`] is a point of form Q or Pq, a [`QualPoint`] one of form P. [`q::point_of`], [`pq::point_of`] and
//! [`p::point_of`] give the point of a plan that obeys: the plan's flows over both of its bases, and its weights as proportions,
//! or the qualities that they mix. It is a point of the exact program, with the plan's flows and its cost. Where a pool sends
//! nothing, its weights stand as they are written, and so does the quality that they would mix.
//!
//! `specs/Views.antt` says which point of `program_model` a type stands for, `specs/Held.antt` when it is one of a program within
//! the limits, and `specs/Written.antt` what the point of a written plan is, list by list.
//!
//! It leaves to others the way back, from a point to a plan.
#![tactic(auto)]

mod flows;
pub mod p;
mod points;
pub mod pq;
pub mod q;
mod qualities;

pub use points::{PropPoint, QualPoint};
