//! The texts in which jobs are handed out and answers come back: plain lines, one text for each value and one value for each text.
//!
//! `specs/Texts.antt` says which jobs and which answers have a text, and what it is, line by line. `specs/Reading.antt` says how both are
//! read from left to right. [`text_law`] is what follows of the two: what is read is what was spelled, no two share a text, and what is no
//! such text has a first faulty line, as that of a certificate is.
//!
//! [`write_jobs`] and [`write_answers`] write these texts to a sink; they take no memory. [`read_jobs`] and [`read_answers`] read them back
//! from bytes in memory, and name the first faulty line of what is no such text.
//!
//! How long a text may be, where it comes from, and whether its jobs and answers are those of a tree is left to the layers above. Their proofs
//! may cite, of `proofs/`: `JobLaws` and `AnswerLaws` (each line, and the whole, is read as it is spelled).
#![tactic(auto)]

mod jobs;
mod laws;
mod reading;
mod writing;

pub use cert_text::ReadFault;
pub use jobs::JobsText;
pub use laws::text_law;
pub use reading::{read_answers, read_jobs};
pub use writing::{write_answers, write_jobs};
