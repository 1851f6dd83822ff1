//! The sink.

ghost use Rattle.std.specs.Prelude.{◌≡◌, ◌↔◌, ◌+◌, ◌<◌, ◌≤◌, [], ◌++◌, Some, length, take, IsErr, OnErr, IfOk};
ghost use Rattle.edge_io.specs.Counts.{Grows, Rose};

use arrayvec::ArrayVec;
use edge_io::{Sink, SinkFailed};

/// How many bytes it holds at the most.
const ROOM: usize = 16_384;

/// A sink of fixed room. A piece that doesn't fit is a counted fault, and nothing of it is taken.
#[derive(Drop)]
pub struct TextBuffer {
    bytes: ArrayVec<u8, ROOM>,
    faults: u64,
}

impl TextBuffer {
    ghost use Rattle.text_buffer.specs.Buffers.{bytes_of};

    /// A buffer with nothing in it.
    pub fn new() -> TextBuffer
        ensures { bytes_of result ≡ [] }
    {
        TextBuffer {
            bytes: ArrayVec::new(),
            faults: 0,
        }
    }

    /// The bytes that it took.
    pub fn text(&self) -> &[u8]
        // Promise: A buffer holds what was written to it; a piece that does not fit is a fault, and none of it is taken
        ensures { result.now ≡ bytes_of self.now }
    {
        self.bytes.as_slice()
    }
}

impl Sink for TextBuffer {
    ghost use Rattle.text_buffer.specs.Buffers.{bytes_of};

    ghost taken = { λ b. Some (bytes_of b) };

    ghost faults = { λ b. b.faults };

    fn write(&mut self, bytes: &[u8]) -> Result<usize, SinkFailed>
        // What every sink does.
        ensures part { IfOk result (λ n. n ≤ length bytes.now) }
        ensures some { IfOk result (λ n. n ≡ 0 → length bytes.now ≡ 0) }
        ensures appended { IfOk result (λ n. bytes_of self.new ≡ bytes_of self.old ++ take n bytes.now) }
        ensures failed { OnErr result (Rose self.old.faults self.new.faults) }
        ensures unchanged { OnErr result (bytes_of self.new ≡ bytes_of self.old) }
        ensures faults_grow { Grows self.old.faults self.new.faults }

        // This one fails exactly where there is no room for the whole piece.
        ensures full { IsErr result ↔ (ROOM < length (bytes_of self.old) + length bytes.now) }
        ensures whole { IfOk result (λ n. n ≡ length bytes.now) }
    {
        match self.bytes.try_extend_from_slice(bytes) {
            Ok(()) => Ok(bytes.len()),
            Err(_) => {
                self.faults = self.faults.saturating_add(1);
                Err(SinkFailed)
            }
        }
    }
}
