//! A sink over a stream of the system.

ghost use Rattle.std.specs.Prelude.{◌≡◌, ◌≤◌, IfOk, OnErr, length, take};
ghost use Rattle.edge_io.specs.Writing.{behind};

use crate::call::CallFault;
use crate::fault::SinkFailed;
use crate::sink::Sink;
use crate::stream::StreamCalls;

/// A sink over the calls of a stream. It tells what they tell. Each write goes to the system at once, and nothing is kept back.
#[derive(Drop)]
pub struct StdSink<S: StreamCalls> {
    stream: S,
    faults: u64,
}

impl<S: StreamCalls> StdSink<S> {
    /// Over the calls of a stream.
    pub fn new(stream: S) -> StdSink<S>
        ensures sound { ⟦<StdSink<S> as Sink>⟧.faults result ≡ 0 }
        ensures taken { ⟦<StdSink<S> as Sink>⟧.taken result ≡ S.taken stream }
    {
        StdSink { stream, faults: 0 }
    }

    /// The calls below.
    pub fn stream(&self) -> &S {
        &self.stream
    }
}

/// One write, and how many bytes it took; one that a signal broke off is tried again. A write that fails has taken nothing.
fn write_once<S: StreamCalls>(stream: &mut S, bytes: &[u8]) -> Result<usize, CallFault>
    ensures part { IfOk result (λ n. n ≤ length bytes.now) }
    // A write that a signal broke off is tried again; one that fails has taken nothing
    ensures appended { IfOk result (λ n. S.taken stream.new ≡ behind (S.taken stream.old) (take n bytes.now)) }
    ensures unchanged { OnErr result (S.taken stream.new ≡ S.taken stream.old) }
{
    for _ in 0..u64::MAX {
        match stream.write(bytes) {
            Err(CallFault::Interrupted) => {}
            outcome => return outcome,
        }
    }
    Err(CallFault::Interrupted)
}

impl<S: StreamCalls> Sink for StdSink<S> {
    ghost taken = { λ s. S.taken s.stream };

    ghost faults = { λ s. s.faults };

    /// Fails too where the stream takes none of some bytes.
    fn write(&mut self, bytes: &[u8]) -> Result<usize, SinkFailed> {
        match write_once(&mut self.stream, bytes) {
            Ok(n) if n > 0 || bytes.is_empty() => Ok(n),
            _ => {
                self.faults = self.faults.saturating_add(1);
                Err(SinkFailed)
            }
        }
    }
}
