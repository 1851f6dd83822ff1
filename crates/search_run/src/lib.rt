//! What is due for a search under [`Orders`]: the form of the programs, how many splits there may be, the gap that is enough, the name of
//! the cut rule, whether leaves are squeezed, and whether the halves of splits are raised.
//!
//! [`due`] answers what comes next for the search by the rule of that name ([`next_by`]), in place of a cut a squeeze, where one is asked
//! for and found, and each split with its halves raised by `raised_splits`, where that is asked for; or how the search ended.
//!
//! `specs/Steps.antt` says what each step is, `specs/Runs.antt` what a run is: a list of entries, each the step that was due after
//! those before it, and an end that holds of the tree that they make. `specs/Found.antt` says what follows of that tree alone, and
//! `specs/Left.antt` how many steps are left, by which a run ends.
//!
//! What the next step is, is left to `search_core`; which row a rule picks, to `branching`; that steps are taken one after another, to
//! the crates above.
//!
//! Proofs above may cite, of `proofs/`: `Choosing` (which coordinate the rule of a name picks), `Stepping` (picks that keep to a rule, halves with
//! their bounds, and steps one after another), `Growing` (what a split of the least leaf adds), `Covering` (no starting plan is better than
//! the best plan) and `Ending` (what holds at the end of a run).
#![tactic(auto)]

mod deciding;
mod orders;
mod rules;

pub use deciding::due;
pub use orders::{Orders, PIVOTS};
pub use rules::next_by;
