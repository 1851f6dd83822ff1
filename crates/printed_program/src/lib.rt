//! What the text of an exact program says, and that it is the pooling problem. There is no code here.
//!
//! - `specs/ProgramLines.antt`: the lines of a program as data, and the text of each.
//! - `specs/Numbers.antt`: numbers for names over one denominator, and when they keep a line: its ends, its row, its product; what
//!   they cost. Whoever reads a printed program needs nothing else.
//! - `specs/Printed.antt`: the lines of the exact program of a form.
//! - `specs/Points.antt`: numbers for names as points of the exact programs and as plans, and points as numbers for names.
//! - `specs/Meaning.antt`: what lines mean: the exact program of a form, and the pooling problem.
//!
//! `printed_law` says that the text of a program is that of lines whose points are those of the exact program of its form, both ways
//! and at the same cost, and whose flows are the plans that obey, at the same cost. So a best point that any other solver finds of
//! the text is a best plan. `network_law` says the same of a network in memory.
//!
//! The lines stand beside those of `program_text`, which writes them, and those of `program_model`, which says what a point has to meet:
//! what one of the three leaves out the proof misses.
#![tactic(auto)]

mod laws;

pub use laws::{network_law, printed_law};
