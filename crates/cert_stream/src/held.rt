//! Bytes that are taken from an opened file and not read.

ghost use Rattle.std.specs.Prelude.{◌≡◌, ◌-◌, ◌<◌, ◌≤◌, List, ℕ, [], length, drop, IfOk, OnOk, OnErr};
ghost use Rattle.edge_io.specs.Counts.{Rose, RoseBy};
ghost use Rattle.shelf_calls.specs.Told.{Keeps};
ghost use Rattle.cert_stream.specs.Rooms.{IsHandedOut};

use shelf_calls::{ReadFailed, Shelf};
use std::alloc::{AllocError, Global};
use std::marker::Model;

/// How many bytes there is room for.
const ROOM: usize = 65_536;

/// The bytes between two places of a room of fixed length.
#[derive(Drop)]
pub(crate) struct Held {
    buffer: Vec<u8>,
    from: usize,
    to: usize,
}

impl Model for Held {
    ghost use Rattle.std.specs.Prelude.{List, ℕ, slice_range};
    ghost use Rattle.cert_stream.specs.Rooms.{IsInRoom};

    ghost Value = { List ℕ };

    ghost view = { λ h. slice_range h.buffer.items h.from h.to };

    ghost invariant = { λ h. IsInRoom h.buffer.items h.from h.to };
}

impl Held {
    /// No bytes, with room for 65,536.
    pub(crate) fn new(alloc: Global) -> Result<Held, AllocError>
        ensures { IfOk result (λ h. h ≡ []) }
    {
        Ok(Held {
            buffer: vec![in alloc; 0; ROOM]?,
            from: 0,
            to: 0,
        })
    }

    /// How many there are.
    pub(crate) fn len(&self) -> usize
        ensures { result ≡ length self.now }
    {
        self.to - self.from
    }

    /// The bytes.
    pub(crate) fn as_slice(&self) -> &[u8]
        ensures { result.now ≡ self.now }
    {
        &self.buffer.as_slice()[self.from..self.to]
    }

    /// Lets all but the last so many go.
    pub(crate) fn keep_last(&mut self, count: usize)
        requires { count ≤ length self.old }
        ensures { self.new ≡ drop (length self.old - count) self.old }
    {
        self.from = self.to - count;
    }

    /// Lets all of them go.
    pub(crate) fn clear(&mut self)
        ensures { self.new ≡ [] }
    {
        self.from = self.to;
    }

    /// Takes the next piece of the opened file, behind the bytes that are held, and says how long it is. `ReadFailed` comes only
    /// where the shelf failed.
    pub(crate) fn take_from<S: Shelf>(&mut self, shelf: &mut S) -> Result<usize, ReadFailed>
        requires { length self.old < 65536 }
        ensures handed { IfOk result (IsHandedOut self.old (S.told shelf.old).rest self.new (S.told shelf.new).rest) }
        ensures counted { IfOk result (λ n. RoseBy n (S.told shelf.old).taken (S.told shelf.new).taken) }
        ensures failed { OnErr result (Rose (S.told shelf.old).faults (S.told shelf.new).faults) }
        ensures quiet { OnOk result ((S.told shelf.new).faults ≡ (S.told shelf.old).faults) }
        ensures kept { Keeps (S.told shelf.old) (S.told shelf.new) }
    {
        let held = self.to - self.from;
        self.buffer.copy_within(self.from..self.to, 0);
        self.from = 0;
        self.to = held;
        let count = shelf.read_some(&mut self.buffer.as_mut_slice()[held..])?;
        self.to = held + count;
        Ok(count)
    }
}
