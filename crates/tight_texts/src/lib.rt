//! The text that says of each leaf of a tree what a form's rows allow in its box: plain lines, one text for each value and one value for each
//! text.
//!
//! `specs/Texts.antt` says which marks have a text, and what it is, line by line. `specs/Reading.antt` says how it is read from left to right.
//! [`text_law`] is what follows of the two: what is read is what was spelled, no two share a text, and what is no such text has a first faulty
//! line, as that of a certificate is.
//!
//! [`write_tight`] writes the text of a [`TightText`] to a sink; it takes no memory. [`read_tight`] reads it back from bytes in memory, and names
//! the first faulty line of what is no such text.
//!
//! How long a text may be, where it comes from, and whether its marks hold is left to the layers above. Their proofs may cite, of `proofs/`:
//! `MarkLaws` (each line, and the whole, is read as it is spelled).
#![tactic(auto)]

mod kinds;
mod laws;
mod marks;
mod reading;
mod writing;

pub use cert_text::ReadFault;
pub use laws::text_law;
pub use marks::{LeafMark, TightText};
pub use reading::read_tight;
pub use writing::write_tight;
