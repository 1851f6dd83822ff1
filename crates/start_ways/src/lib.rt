//! The ways of a network, and the starting plans that they make: what each carries, costs and leaves unmet.
//!
//! A [`Way`] goes from a source to a product, along a path or along a direct. [`path_flow`] and [`direct_flow`] give how much a way
//! alone carries. The starting plans have numbers: the zero plan, then the simple plan of each path, then that of each direct;
//! [`start_way`] gives the way of a number. [`cheapest`] gives the [`Choice`] of the first number whose starting plan obeys and costs
//! the least, by what each carries and by the products' minima, and takes no memory.
//!
//! The lists of a starting plan are [`first_weights`] or [`weights_on`], and [`no_flows`] or [`one_flow`]. They alone take memory.
//! [`is_first_feed`] tells on which feed of a pool all weight stands that nothing else decides. The plans themselves are made in the
//! crate above.
#![tactic(auto)]

mod choice;
mod cost;
mod flow;
mod lists;
mod way;

pub use choice::{Choice, cheapest};
pub use flow::{direct_flow, path_flow};
pub use lists::{first_weights, is_first_feed, no_flows, one_flow, weights_on};
pub use way::{Way, start_way};
