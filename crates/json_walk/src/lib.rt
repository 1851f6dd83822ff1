//! How the value of a file is walked: each step gives the meaning of its place, or the first fault there.
//!
//! What `serde_json` read is walked from the top in one order. A step takes the value at a place and what has to stand there: an
//! object with its members ([`open`]), a member that is needed ([`needed`]), a list ([`items`]), a text, a quantity, a ratio or the
//! [`Version`]. [`ReadNet`] are the faults, with their [`Place`]. `specs/Walk.antt` has the steps, in do-notation, and `specs/NetCause.antt` what
//! a refusal of rows is as a refusal of their file.
//!
//! Which members there are is left to the layer above, `network_json`. Its proofs may cite, of `proofs/`, how a list is walked row
//! by row (`Each`), that the steps answer with faults of their own (`Found`), and what holds of all that a step gives (`Given`).
#![tactic(auto)]

mod fault;
mod version;
mod walk;

pub use fault::{Place, ReadNet, Section};
pub use version::{Version, version_of};
pub use walk::{items, needed, needed_quantity, needed_text, open, quantity, ratio, text};
