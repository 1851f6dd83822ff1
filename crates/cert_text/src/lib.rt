//! Texts of lines, read from left to right, with the exact faulty line.
//!
//! A text comes byte by byte from a `Source`, which counts its lines and may fail; `SliceSource` is a text that lies in
//! memory and never fails. Words and numbers are read whole, each number with the byte behind it, or refused with the
//! number of their line. Numbers are canonical: no leading zero, no plus sign, no negative zero, and within the range of
//! their type. Nothing here takes memory; why a reader that does stopped is said by `Halt`, and of a whole text by `ReadFault`.
//!
//! `specs/Lines.antt` says which line of a text is the faulty one, with no reader in it. `specs/Reading.antt` has the
//! readers as functions on lists of bytes, which the contracts name, and `specs/Results.antt` what readers that take memory give. `proofs/Laws.antt` puts them together: a reader that is
//! made of readers of formats reads a format, and its fault is at the faulty line.
//! Proofs above may cite it, and beside it `PieceLaws` (words and numbers within a line), `NumberLaws` (the numbers of each type)
//! and `Each` (a count of items), `Outcomes` (what readers of lists and of whole texts come to). Also `LineLemmas` (lines, one behind another), `WindowLaws` (a reader that sees only the first
//! bytes of a text reads what it reads in the whole, if no spelling is longer) and `Windows` (how many bytes words and numbers take).
#![tactic(auto)]

mod fault;
mod pieces;
mod source;

pub use fault::{Halt, ReadFault, SourceFailed, Stop, TextFault};
pub use pieces::{Ends, i64_then, i128_then, number, same, u32_then, u64_then, word};
pub use source::{SliceSource, Source};
