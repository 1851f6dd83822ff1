//! The exact run of `exact_run`, in memory.
//!
//! [`run_of`] runs a [`BoundedProgram`] for at most so many steps, and tells how the run ends ([`Run`]): with the state at which no column
//! is past an end, with the state and the column that leaves while none may enter, that it goes on, or with the operation of a step that is
//! too wide for 128 bits. Its one condition is `IsReady` (`specs/Fits.antt`): the terms of each row rise, and a row's value at the start is
//! short. `IsEnd` (`specs/Runs.antt`) says what each end tells, in the words of `exact_run`: it is an end of the run itself, and only want of
//! memory is free.
//!
//! The layer above reads a state by its public fields: [`Tableau`] has a [`Line`] for each place, whose factors are 0 but on a few columns,
//! so [`Factors`] holds those that are not, in rising order of columns. `state_of` (`specs/Views.antt`) is the state of the definition that
//! it stands for, and `Fits` what is known of it. A line holds -1 on the column that is basic there, so that one rule makes the new row of
//! the pivot: [`Factors::solved`] solves it for the column that enters, and [`Factors::change`] adds it to another row or to the cost.
//!
//! [`Tableau::start`], [`Tableau::leaving`], [`Tableau::entering`] and [`Tableau::step`] are the parts of the run, each by its definition.
//! What the end gives as a point or a proof, and how a box becomes a program, is left to the layers above.
//!
//! Files of lemmas that crates above may cite: `proofs/Reduced.antt` (fractions in lowest terms), `proofs/Exists.antt` (each fraction has
//! one in lowest terms), `proofs/Least.antt` (of finitely many ratios one is the first least), `proofs/PivotThere.antt` (where a column
//! leaves and another may enter, there is a pivot) and `proofs/Memory.antt` (the numbers of a state in memory are in lowest terms).
#![tactic(auto)]

mod entry;
mod factors;
mod pivots;
mod program;
mod run;
mod start;
mod step;
mod stop;
mod tableau;
mod wholes;

pub use entry::Entry;
pub use factors::Factors;
pub use pivots::Leaving;
pub use program::{BoundedProgram, BoundedRow, Coefficient, Variable};
pub use run::{Run, run_of};
pub use stop::Stop;
pub use tableau::{Line, Tableau};
pub use wholes::whole;
