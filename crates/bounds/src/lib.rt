//! Bounds on what plans cost: what a proof shows of a box that is held, what it adds to a bound, and which of two bounds is less.
//!
//! A bound is a number of picos; None is that there is no plan. [`value_in`] values a proof in the box that [`box_space::BoxEnds`]
//! hold, [`raised`] adds what it shows to a bound, [`lesser_bound`] is for the least of several. Trees and certificates both stand on
//! these.
#![tactic(auto)]

mod raising;
mod value;

pub use raising::{lesser_bound, raised};
pub use value::value_in;
