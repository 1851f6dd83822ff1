//! What stands before the payload of a record.

ghost use Rattle.std.specs.Prelude.{◌≡◌, ℕ, List, take};
ghost use Rattle.journal_format.specs.Records.{Opens};

use byteorder::{BigEndian, ByteOrder};

/// How many bytes stand before the payload: the gate and a length.
pub const HEAD: usize = 5;

/// What stands before the payload of a record.
#[derive(Clone, Copy, Debug, PartialEq, Eq)]
pub enum RecordHead {
    /// No open gate.
    Closed,
    /// An open gate, and fewer bytes than a length has.
    CutShort,
    /// An open gate, and this length of the payload.
    Payload(u32),
}

/// What stands at the front of the bytes, which are the first five of a record, or all that there are.
pub fn opening_of(head: &[u8]) -> RecordHead
    ensures { (rest : List ℕ) → head.now ≡ take HEAD rest → Opens rest result }
{
    match head {
        [1, _, _, _, _, ..] => RecordHead::Payload(BigEndian::read_u32(&head[1..])),
        [1, ..] => RecordHead::CutShort,
        _ => RecordHead::Closed,
    }
}
