//! A sink in memory.

ghost use Rattle.std.specs.Prelude.{◌≡◌, ◌+◌, ◌-◌, ◌^◌, ◌<◌, ◌≤◌, ◌⊎◌, [], ◌++◌, Some, None, min, length};
ghost use Rattle.std.specs.Prelude.{take, vec_len, vec_capacity, option_map, Contains, IsTrue, IsNone, IsErr, OnErr, IfOk, IfSome, IfNone};
ghost use Rattle.std.specs.Option.{ForSome};
ghost use Rattle.edge_io.specs.Counts.{Grows, Rose};

use crate::fault::{Memory, SinkFailed};
use crate::sink::Sink;
use std::alloc::Global;

/// A sink that keeps what it takes, and fails where it was told to.
#[derive(Drop)]
pub struct MemSink {
    bytes: Vec<u8>,
    failing: Vec<u64>,
    room: Option<usize>,
    calls: u64,
    faults: u64,
    ghost has_room: { ForSome room (λ n. vec_len bytes + n ≤ vec_capacity bytes) },
}

impl MemSink {
    ghost use Rattle.edge_io.specs.MemSinks.{bytes_of, failing_of, calls_of, faults_of, room_of};

    /// An empty sink. The calls of the numbers in `failing`, from 0, fail; another fails only where a growth finds no
    /// memory.
    pub fn new(alloc: Global, failing: Vec<u64>) -> MemSink
        ensures empty { bytes_of result ≡ [] }
        ensures told { failing_of result ≡ failing.items }
        ensures first { calls_of result ≡ 0 }
        ensures sound { faults_of result ≡ 0 }
        ensures endless { room_of result ≡ None }
    {
        MemSink {
            bytes: Vec::new(alloc),
            failing,
            room: None,
            calls: 0,
            faults: 0,
        }
    }

    /// An empty sink that takes that many bytes without a failure and then fails each call. Its room is taken here.
    pub fn limit(alloc: Global, bytes: u64) -> Result<MemSink, Memory>
        ensures empty { IfOk result (λ s. bytes_of s ≡ []) }
        ensures told { IfOk result (λ s. failing_of s ≡ []) }
        ensures sound { IfOk result (λ s. faults_of s ≡ 0) }
        ensures room { IfOk result (λ s. room_of s ≡ Some bytes) }
    {
        let room = bytes as usize;
        Ok(MemSink {
            bytes: Vec::with_capacity(alloc, room)?,
            failing: Vec::new(alloc),
            room: Some(room),
            calls: 0,
            faults: 0,
        })
    }

    /// The bytes that it took.
    pub fn taken(&self) -> &[u8]
        ensures { result.now ≡ bytes_of self.now }
    {
        self.bytes.as_slice()
    }

    /// Counts a call, and says whether it was told to fail.
    fn is_told(&mut self) -> bool
        ensures told { IsTrue result → Contains (failing_of self.old) (calls_of self.old) }
        ensures only { Contains (failing_of self.old) (calls_of self.old) → IsTrue result }
        ensures next { self.new ≡ record self.old { calls = min (self.old.calls + 1) (2 ^ 64 - 1) } }
    {
        let call = self.calls;
        self.calls = call.saturating_add(1);
        self.failing.contains(&call)
    }

    /// Keeps the bytes, or as many as there is room for, and says how many; none where there is no room left, or a growth finds no
    /// memory.
    fn keep(&mut self, bytes: &[u8]) -> Option<usize>
        ensures part { IfSome result (λ n. n ≤ length bytes.now) }
        ensures some { IfSome result (λ n. n ≡ 0 → length bytes.now ≡ 0) }
        ensures appended { IfSome result (λ n. bytes_of self.new ≡ bytes_of self.old ++ take n bytes.now) }
        ensures unchanged { IfNone result (bytes_of self.new ≡ bytes_of self.old) }
        ensures full { room_of self.old ≡ Some 0 → IsNone result }
        ensures only { IfNone result (ForSome (room_of self.old) (λ room. room ≡ 0)) }
        ensures whole { room_of self.old ≡ None → IfSome result (λ n. n ≡ length bytes.now) }
        ensures limited { IfSome result (λ n. ForSome (room_of self.old) (λ room. n ≡ min (length bytes.now) room)) }
        ensures room_left { IfSome result (λ n. room_of self.new ≡ option_map (λ room. room - n) (room_of self.old)) }
        ensures room_kept { IfNone result (room_of self.new ≡ room_of self.old) }
        ensures same_failing { self.new.failing ≡ self.old.failing }
        ensures same_calls { self.new.calls ≡ self.old.calls }
        ensures same_faults { self.new.faults ≡ self.old.faults }
    {
        let part = match self.room {
            Some(0) => return None,
            Some(room) => {
                let part = bytes.len().min(room);
                self.room = Some(room - part);
                part
            }
            None => bytes.len(),
        };
        match self.bytes.extend_from_slice(&bytes[..part]) {
            Ok(()) => Some(part),
            Err(_) => None,
        }
    }

    /// Counts a failure.
    fn fail(&mut self) -> SinkFailed
        ensures counted { Rose self.old.faults self.new.faults }
        ensures grows { Grows self.old.faults self.new.faults }
        ensures bytes { self.new.bytes ≡ self.old.bytes }
        ensures failing { self.new.failing ≡ self.old.failing }
        ensures room { self.new.room ≡ self.old.room }
        ensures calls { self.new.calls ≡ self.old.calls }
    {
        self.faults = self.faults.saturating_add(1);
        SinkFailed
    }
}

impl Sink for MemSink {
    ghost use Rattle.edge_io.specs.MemSinks.{bytes_of, failing_of, calls_of, faults_of, room_of};

    ghost taken = { λ s. Some (bytes_of s) };

    ghost faults = { faults_of };

    /// Takes all of the bytes, or as many as there is room for.
    fn write(&mut self, bytes: &[u8]) -> Result<usize, SinkFailed>
        // What every sink does.
        ensures part { IfOk result (λ n. n ≤ length bytes.now) }
        ensures some { IfOk result (λ n. n ≡ 0 → length bytes.now ≡ 0) }
        ensures appended { IfOk result (λ n. bytes_of self.new ≡ bytes_of self.old ++ take n bytes.now) }
        ensures failed { OnErr result (Rose (faults_of self.old) (faults_of self.new)) }
        ensures unchanged { OnErr result (bytes_of self.new ≡ bytes_of self.old) }
        ensures faults_grow { Grows (faults_of self.old) (faults_of self.new) }

        // When this one fails, and how much it takes.
        ensures told { Contains (failing_of self.old) (calls_of self.old) → IsErr result }
        ensures full { room_of self.old ≡ Some 0 → IsErr result }
        ensures only { OnErr result (ForSome (room_of self.old) (λ room.
            Contains (failing_of self.old) (calls_of self.old) ⊎ (room ≡ 0))) }
        ensures whole { room_of self.old ≡ None → IfOk result (λ n. n ≡ length bytes.now) }
        ensures limited { IfOk result (λ n. ForSome (room_of self.old) (λ room. n ≡ min (length bytes.now) room)) }
        ensures room_left { IfOk result (λ n. room_of self.new ≡ option_map (λ room. room - n) (room_of self.old)) }
        ensures room_kept { OnErr result (room_of self.new ≡ room_of self.old) }
        ensures next { calls_of self.new ≡ min (calls_of self.old + 1) (2 ^ 64 - 1) }
        ensures same { failing_of self.new ≡ failing_of self.old }
    {
        if self.is_told() {
            return Err(self.fail());
        }
        match self.keep(bytes) {
            Some(part) => Ok(part),
            None => Err(self.fail()),
        }
    }
}
