//! Quantities as text: a quantity is a whole number of millionths, and a text says it in units with up to six decimals.
//!
//! The layer above may use:
//!
//! - `quantity_of`: the number that a text stands for. It takes no memory.
//! - `text_of`: the shortest text of a number.
//!
//! Which texts stand for which numbers is defined in `pool_model`, `specs/Quantity.antt`. What range a quantity may have
//! is left to the layer above.
//!
//! Proofs above may cite, of `proofs/`: `Laws` (a text stands for one quantity) and `Spelled` (the shortest text stands for it).
#![tactic(auto)]

mod read;
mod write;

pub use read::quantity_of;
pub use write::text_of;
