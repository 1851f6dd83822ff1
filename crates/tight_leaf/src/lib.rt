//! Whether the bound of a leaf is the best that the rows of a form allow in its box.
//!
//! [`mark_leaf`] gives a leaf a mark of `leaf_marks`, which carries what it says: a point that is a witness for the bound, a proof of a greater
//! bound with a witness for that, or a proof that the box holds no plan. Where nothing is said, the mark carries the reason.
//!
//! A plan in the box that costs less than one pico above the bound decides: its point is the witness. Else the mark is what the exact run of
//! `exact_run` gives for the box's program, in so many pivots. So a leaf is loose only where the run gives a reason, and never by rounding.
//!
//! What each mark says of a box is defined in `leaf_marks`; `specs/Causes.antt` says when the run gives a reason, and `specs/Ends.antt` which mark
//! a leaf gets. The text of marks is left to the layers above, and so is what is done with them.
#![tactic(auto)]

mod leaf;
mod plan_point;
mod point;
mod program;
mod proof;
mod stop;

pub use leaf::mark_leaf;
