//! Plans from the points of relaxations: a plan that obeys, cheaper than the best so far.
//!
//! [`repair`] takes an advice on the program of a box and looks for a plan near its point. The *plain plan* of the point is
//! the point's own flows, rounded down, with the proportions that its flows into the pools have (`specs/PlainPlan.antt`).
//! It is judged first; then `plan_advice` suggests a plan, which is judged too. The check of `plan_core` has the last word:
//! what is answered obeys, is cheaper than the best plan, and is no dearer than the plain plan where that obeys. Beyond the
//! plain plan nothing is promised of when a plan is found.
//!
//! Which point to ask about, and when, is left to the crates above.
//!
//! Proofs above may cite, of `proofs/`: `Choosing` (`accepted-is`, that a plan with a cost is accepted, and `some_at`).
#![tactic(auto)]

mod judging;
mod plain;
mod repairing;
mod weights;

pub use repairing::repair;
