//! A stream in memory.

ghost use Rattle.std.specs.Prelude.{◌<◌, Some};
ghost use Rattle.edge_io.specs.MemSinks.{bytes_of};

use crate::breaks::Breaks;
use crate::call::CallFault;
use crate::mem_sink::MemSink;
use crate::sink::Sink;
use crate::stream::StreamCalls;

/// The call of a stream over a sink in memory, which tells what it took: a write takes so many bytes at the most, those of some numbers are
/// broken off, and those that the sink is told to fail fail.
#[derive(Drop)]
pub struct MemStream {
    sink: MemSink,
    piece: usize,
    breaks: Breaks,
}

impl MemStream {
    /// Over a sink. Each write takes at most `piece` bytes.
    pub fn new(sink: MemSink, piece: usize, breaks: Breaks) -> MemStream {
        MemStream {
            sink,
            piece,
            breaks,
        }
    }

    /// The sink below.
    pub fn sink(&self) -> &MemSink {
        &self.sink
    }
}

impl StreamCalls for MemStream {
    ghost taken = { λ s. Some (bytes_of s.sink) };

    fn write(&mut self, bytes: &[u8]) -> Result<usize, CallFault> {
        self.breaks.pass()?;
        let count = bytes.len().min(self.piece);
        match self.sink.write(&bytes[..count]) {
            Ok(taken) => Ok(taken),
            Err(_) => Err(CallFault::Failed),
        }
    }
}
