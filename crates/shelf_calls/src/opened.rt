//! A file that is open and lies in memory.

ghost use Rattle.std.specs.Prelude.{◌≡◌, ◌≤◌, [], length, drop, min, take, vec_len};

use std::alloc::Global;

/// A file, and how much of it is handed out.
#[derive(Drop)]
pub(crate) struct Opened {
    pub(crate) bytes: Vec<u8>,
    pub(crate) done: usize,
    ghost within: { done ≤ vec_len bytes },
}

impl Opened {
    ghost use Rattle.shelf_calls.specs.MemFiles.{rest_in};

    /// A file of which nothing is left.
    pub(crate) fn none(alloc: Global) -> Opened
        ensures { rest_in result ≡ [] }
    {
        Opened {
            bytes: Vec::new(alloc),
            done: 0,
        }
    }

    /// A file of which nothing is handed out yet.
    pub(crate) fn new(bytes: Vec<u8>) -> Opened
        ensures { rest_in result ≡ bytes.items }
    {
        Opened { bytes, done: 0 }
    }

    /// Hands out the next bytes, as many as there are and as there is room for, and at most so many.
    pub(crate) fn hand_out(&mut self, into: &mut [u8], most: usize) -> usize
        ensures count { result ≡ min (min (length (rest_in self.old)) (length into.new)) most }
        ensures front { take result into.new ≡ take result (rest_in self.old) }
        ensures rest { rest_in self.new ≡ drop result (rest_in self.old) }
    {
        let count = copy_front(&self.bytes.as_slice()[self.done..], into, most);
        self.done += count;
        count
    }
}

/// Copies bytes to the front, as many as there are and as there is room for, and at most so many.
pub(crate) fn copy_front(from: &[u8], into: &mut [u8], most: usize) -> usize
    ensures count { result ≡ min (min (length from.now) (length into.new)) most }
    ensures front { take result into.new ≡ take result from.now }
{
    let count = from.len().min(into.len()).min(most);
    into[..count].copy_from_slice(&from[..count]);
    count
}
