//! What is told of a gathering.

use work_units::{Desk, Judged};

/// What came of an answer, or of a file.
#[derive(Clone, Copy, Debug, PartialEq, Eq)]
pub enum Line {
    /// An answer with this number was judged so.
    Answer { number: u32, judged: Judged },
    /// The file of this number, from 0, spells no answers, and this is its first faulty line.
    Faulty { file: usize, line: u64 },
}

/// What was gathered.
#[derive(Drop)]
pub struct Gathered {
    /// A line for each answer, and for each file that spells none, in order.
    pub lines: Vec<Line>,
    /// The desk after the last answer: its tree, and the answers that were taken.
    pub desk: Desk,
}
