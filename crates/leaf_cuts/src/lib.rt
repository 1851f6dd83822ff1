//! What is proved of leaves: the proof of the root, and a leaf of a tree with its cuts and the proofs of both halves.
//!
//! [`root_proof`] gives what rounding gives for the root. [`solve_leaf`] gives the least [`Leaf`] of a tree with advice on its program,
//! and a [`Bench`], which holds that program and the memory of rounding, and on which one box after another is proved. [`solve_node`] gives
//! the same of any node of a tree, above a bound that is told.
//! [`Bench::look`] shows the leaf to a cut rule: its [`Looked`] has the view of the leaf, a row for each coordinate of the form, and the
//! cuts whose halves are proved already. [`Bench::proved_at`] gives the [`Halving`] of the leaf in the middle of a coordinate: what
//! rounding gives for both halves, above the leaf's bound.
//!
//! `specs/Given.antt` says what a proof is that rounding gives, `specs/Halvings.antt` where a box is cut and what both halves get,
//! `specs/Leaves.antt` what a solved leaf is, `specs/Views.antt` what the cut rule sees, and `specs/Benches.antt` when a bench is one of
//! a network.
//!
//! What makes it quick is promised by no clause, since no answer rests on it:
//!
//! - A program starts where the one above it ended. A leaf's starts from the proof of the nearest node that has one, and
//!   those of its halves from the leaf's basis. The first seven (eight in form P) are solved from nothing, since other vertices
//!   give other plans.
//! - Where a look is asked for, halves of coordinates are solved, those first that are missed the most by what `cut_scores` says, up
//!   to so many and as long as new ones lead; and the one whose cut leaves the least to be done gets the greatest number. The rows of
//!   the view have these numbers, and else none. The second half of a cut that can't lead is left out, and no half is solved further than
//!   a look needs; those of the cut that is made are solved to their ends.
//! - What is known of a program is handed on ([`KnownAdvice`]), from the proof of the root to the first leaf, and from a leaf of which a plan
//!   came to the next call.
//!
//! A bench keeps what it solved of the halves ([`SolvedCut`]), for whoever tries other parts of the leaf ([`Bench::into_solved`]).
//!
//! When a leaf is looked at or cut, and what else a search does, is left to the crates above.
//!
//! Proofs above may cite, of `proofs/`: `FormCoords` (the rows of a view, one coordinate of the form after another), `Giving` (what
//! rounding answers of a view of ends, said of any box whose ends they are), `Middles` (the middle of ends that are at least 2 apart lies
//! strictly inside) and `RootEnds` (no end of a proper box is above 10^12 in size).
#![tactic(auto)]

mod bench;
mod ends;
mod gains;
mod halving;
mod known;
mod leaf;
mod looking;
mod root;
mod solved;
mod view;

pub use bench::Bench;
pub use halving::Halving;
pub use known::KnownAdvice;
pub use leaf::{Leaf, solve_leaf, solve_node};
pub use looking::Looked;
pub use root::root_proof;
pub use solved::{SolvedCut, SolvedCuts};
