//! Files of answers, as they were read.

use work_units::Answer;

/// What a file of answers was found to hold.
#[derive(Drop)]
pub enum AnswersFile {
    /// These answers, in order.
    Answers(Vec<Answer>),
    /// It spells no answers: the number of its first faulty line.
    Faulty(u64),
}
