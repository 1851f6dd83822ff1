//! What stands for the parts of a network in its text: values of JSON for a name, an arc, a source, a pool and a product.
//!
//! `specs/Values.antt` has them: every member but a title, in byte order of the names; whole units as numbers and other quantities as
//! their shortest text; maxima written out, and of the limits those that are set. Of a pool and an arc it has what a text of version 1
//! says, and what one of version 2 does.
//!
//! The layer above may use [`name_value`], [`feed_value`], [`out_value`], [`direct_value`], [`source_value`], [`pool_value`] and
//! [`product_value`]. Each fails for want of memory alone. How they are put together, and that the whole is read as the same
//! network, is left to `network_text`.
//!
//! Its proofs may cite, of `proofs/`, how long the lists of a network are (`Lengths`).
#![tactic(auto)]

mod arcs;
mod nodes;
mod quantities;

pub use arcs::{direct_value, feed_value, out_value};
pub use nodes::{pool_value, product_value, source_value};
pub use quantities::name_value;
