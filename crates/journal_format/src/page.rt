//! A room of fixed size, where the bytes of a record are put together.

ghost use Rattle.std.specs.Prelude.{◌≡◌, ◌+◌, ◌≤◌, [], ◌++◌, length, take, drop};

use std::marker::Model;

/// Bytes that are put one after another into a room that was taken before.
#[derive(Drop)]
pub struct Page {
    bytes: Vec<u8>,
    len: usize,
}

impl Model for Page {
    ghost use Rattle.std.specs.Prelude.{◌≤◌, length, take};
    ghost use Rattle.journal_format.specs.Pages.{Filled};

    ghost Value = { Filled };

    ghost view = { λ p. record { bytes = take p.len p.bytes.items; room = length p.bytes.items } };

    ghost invariant = { λ p. p.len ≤ length p.bytes.items };
}

impl Page {
    ghost use Rattle.journal_format.specs.Pages.{with_bytes};

    /// An empty page, in this room.
    pub fn new(room: Vec<u8>) -> Page
        ensures { result ≡ record { bytes = []; room = length room.items } }
    {
        Page {
            bytes: room,
            len: 0,
        }
    }

    /// Takes everything out.
    pub(crate) fn clear(&mut self)
        ensures { self.new ≡ record { bytes = []; room = self.old.room } }
    {
        self.len = 0;
    }

    /// Puts the bytes behind what is there.
    pub(crate) fn put(&mut self, bytes: &[u8])
        requires { length self.old.bytes + length bytes.now ≤ self.old.room }
        ensures { self.new ≡ with_bytes self.old bytes.now }
    {
        overwrite(self.bytes.as_mut_slice(), self.len, bytes);
        self.len += bytes.len();
    }

    /// What is there.
    pub fn bytes(&self) -> &[u8]
        ensures { result.now ≡ self.now.bytes }
    {
        &self.bytes[..self.len]
    }
}

/// Writes the bytes from that place on.
fn overwrite(into: &mut [u8], at: usize, bytes: &[u8])
    requires { at + length bytes.now ≤ length into.old }
    ensures { into.new ≡ take at into.old ++ bytes.now ++ drop (at + length bytes.now) into.old }
{
    into[at..at + bytes.len()].copy_from_slice(bytes);
}
