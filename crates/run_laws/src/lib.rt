//! What follows of the exact run of `exact_run`, for the proofs of the crates above: definitions and laws, with no code.
//!
//! `specs/Points.antt` has the values of a state's variables over a base, and when such a point meets a program; `specs/Multipliers.antt`
//! has whole multiples of the multipliers at an end of a run, and the number that multipliers on rows are added up to.
//!
//! The laws stand in `laws.rt`: functions without code, whose clauses a proof can cite. They speak of each state that a run reaches.
//! [`basis_law`] and [`signs_law`] say what the run keeps: its basic columns are apart, and the cost's factors have the signs of the ends
//! at which their columns stand. [`point_law`] says of a run that ends with a point that it meets the program, [`multipliers_law`] that its
//! multipliers are added up to what the point costs, and [`empty_law`] that those of a run without a point are added up to more than 0.
//! [`best_law`] is what follows: the point is a best one, and where there is none no point meets the program.
//!
//! Behind them stands one table of whole numbers for each state (`proofs/Tables.antt`): its fractions over one denominator. A pivot on it
//! (`proofs/Pivots.antt`) keeps what the program's rows say.
//!
//! File of lemmas that crates above may cite: `proofs/Parts.antt` (multipliers that stand in a list, `specs/Parts.antt`, are added up as those
//! of all rows).
#![tactic(auto)]

mod laws;

pub use laws::{basis_law, best_law, empty_law, multipliers_law, point_law, signs_law};
