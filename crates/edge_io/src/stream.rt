//! The system's call on a stream that is written to.

ghost use Rattle.std.specs.Prelude.{◌≡◌, ◌≤◌, ℕ, List, Option, None, IfOk, OnErr, length, take};
ghost use Rattle.edge_io.specs.Writing.{behind};

use crate::call::CallFault;

/// A stream of the system, by its call as POSIX has it: a write may take a part, a signal may break it off, and it may fail.
pub trait StreamCalls {
    /// The bytes taken so far, where the system tells them.
    ghost taken: { Self → Option (List ℕ) };

    /// Writes some of the bytes, the first ones, and says how many.
    fn write(&mut self, bytes: &[u8]) -> Result<usize, CallFault>
        ensures part { IfOk result (λ n. n ≤ length bytes.now) }
        ensures appended { IfOk result (λ n. taken self.new ≡ behind (taken self.old) (take n bytes.now)) }
        ensures unchanged { OnErr result (taken self.new ≡ taken self.old) };
}

/// Standard output or standard error. It tells nothing.
///
/// The system is trusted to keep the clauses of `StreamCalls`.
#[derive(Drop)]
pub struct SystemStream<P: Print> {
    stream: P,
}

impl<P: Print> SystemStream<P> {
    /// Over a stream of the runtime, as `rt.stdout()` or `rt.stderr()`.
    pub fn new(stream: P) -> SystemStream<P> {
        SystemStream { stream }
    }
}

impl<P: Print> StreamCalls for SystemStream<P> {
    ghost taken = { λ _. None };

    fn write(&mut self, bytes: &[u8]) -> Result<usize, CallFault> {
        Ok(self.stream.write_some(bytes)?)
    }
}
