//! Where bytes are written to, and the counts of what goes wrong outside.
//!
//! A `Sink` is what bytes are written to. Code that writes takes one by this trait alone. Over a sink in memory (`MemSink`)
//! the contracts say which bytes were written, and what happened at a failure; `StdSink` is one over the calls of a stream
//! (`StreamCalls`), and tells what they tell. Those of the system (`SystemStream`) tell nothing, those in memory (`MemStream`) all.
//!
//! The layer above may use the clauses of the trait, of `write_whole` and of `write_number`: a write appends, and a failure
//! comes only where a count of faults rose in that call. The lemmas of `proofs/Writes.antt` and `proofs/Counting.antt` put
//! several writes together.
//!
//! That a stream of the system keeps the clauses of `StreamCalls`, and what standard output shows, is left to the system.
#![tactic(auto)]

mod breaks;
mod call;
mod fault;
mod mem_sink;
mod mem_stream;
mod sink;
mod std_sink;
mod stream;
mod writing;

pub use breaks::Breaks;
pub use call::CallFault;
pub use fault::{Memory, SinkFailed, WriteFault};
pub use mem_sink::MemSink;
pub use mem_stream::MemStream;
pub use sink::Sink;
pub use std_sink::StdSink;
pub use stream::{StreamCalls, SystemStream};
pub use writing::{write_number, write_whole};
