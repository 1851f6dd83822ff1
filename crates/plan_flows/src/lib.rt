//! What flows in the plan that a written plan stands for, and the mean qualities of its products.
//!
//! A written plan has weights of feeds and flows of outs and directs, over two bases; the plan that it stands for has a flow along
//! every arc, over the product of the bases, which is its denominator. [`feed_flow`], [`out_flow`] and [`direct_flow`] give what flows along an
//! arc, [`source_flow`], [`pool_flow`] and [`product_flow`] what flows through a node, all over that denominator, and [`mean`] a product's mean of
//! a quality as two numbers, of which the first over the second is the mean. All are exact, and take no memory.
//!
//! The layer above may use the clauses of these, which speak of the model's plan. It leaves to `plan_core` whether a plan obeys, and to others how
//! a flow or a mean is rounded.
#![tactic(auto)]

mod arcs;
mod means;
mod nodes;

pub use arcs::{direct_flow, feed_flow, out_flow};
pub use means::mean;
pub use nodes::{pool_flow, product_flow, source_flow};
