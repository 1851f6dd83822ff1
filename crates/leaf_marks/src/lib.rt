//! What is said of a leaf's bound: that it is the best that the rows of a form allow in its box, that it can be raised, that the box holds no plan,
//! or why none of these is said.
//!
//! A [`Mark`] carries what shows it: a point that is a witness for the bound ([`Mark::Tight`]), a proof of a greater bound with a witness for
//! that ([`Mark::Raised`]), or a proof that the box holds no plan ([`Mark::Empty`]). Where nothing is said it carries the [`Reason`]
//! ([`Mark::Loose`]). `specs/Marks.antt` says what each mark says of a box, whoever gave it.
//!
//! How marks are found, how they are written, and how a mark that somebody wrote is judged, is left to others. There is no code here but what is
//! derived, and so no proof.
#![tactic(auto)]

mod mark;

pub use mark::{Mark, Reason};
