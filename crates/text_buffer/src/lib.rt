//! A sink of fixed room, on the stack, where a text is put together.
//!
//! A text that is written in pieces reaches its sink in as many writes, and what other runs write may come between them.
//! So a writer puts the pieces into a `TextBuffer` first, by the same function, and hands its text on in one write. A text
//! that doesn't fit is written piece by piece. No memory is taken.
//!
//! The layer above may use the clauses of `Sink`, and that the bytes taken are what `text` lends: after a text was written
//! to an empty buffer without a fault, they are that text.
#![tactic(auto)]

mod text_buffer;

pub use text_buffer::TextBuffer;
