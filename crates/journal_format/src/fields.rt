//! Numbers as fields of bytes, the most significant byte first.

ghost use Rattle.std.specs.Prelude.{◌≡◌};
ghost use Rattle.journal_format.specs.Fields.{field, signed_field, number_at, signed_at};
ghost use Rattle.journal_format.specs.Gives.{Gives};

use crate::fault::EntryUnread;
use byteorder::{BigEndian, ByteOrder};

// ---- written

#[tactic(auto, unfolding(crate::specs::Fields::field))]
pub(crate) fn u16_field(n: u16) -> [u8; 2]
    ensures { result ≡ field 2 n }
{
    let mut bytes = [0; 2];
    BigEndian::write_u16(&mut bytes, n);
    bytes
}

#[tactic(auto, unfolding(crate::specs::Fields::field))]
pub(crate) fn u32_field(n: u32) -> [u8; 4]
    ensures { result ≡ field 4 n }
{
    let mut bytes = [0; 4];
    BigEndian::write_u32(&mut bytes, n);
    bytes
}

#[tactic(auto, unfolding(crate::specs::Fields::field))]
pub(crate) fn u64_field(n: u64) -> [u8; 8]
    ensures { result ≡ field 8 n }
{
    let mut bytes = [0; 8];
    BigEndian::write_u64(&mut bytes, n);
    bytes
}

#[tactic(auto, unfolding(crate::specs::Fields::field))]
pub(crate) fn i64_field(n: i64) -> [u8; 8]
    ensures { result ≡ signed_field n }
{
    let mut bytes = [0; 8];
    BigEndian::write_i64(&mut bytes, n);
    bytes
}

// ---- read: the number, and the bytes behind it

#[tactic(auto, unfolding(crate::specs::Fields::number_at))]
pub(crate) fn u16_at(bytes: &[u8]) -> Result<(u16, &[u8]), EntryUnread>
    ensures { Gives (λ x. (x.0, x.1.now)) result (number_at 2 bytes.now) }
{
    if bytes.len() < 2 {
        return Err(EntryUnread::Malformed);
    }
    Ok((BigEndian::read_u16(bytes), &bytes[2..]))
}

#[tactic(auto, unfolding(crate::specs::Fields::number_at))]
pub(crate) fn u32_at(bytes: &[u8]) -> Result<(u32, &[u8]), EntryUnread>
    ensures { Gives (λ x. (x.0, x.1.now)) result (number_at 4 bytes.now) }
{
    if bytes.len() < 4 {
        return Err(EntryUnread::Malformed);
    }
    Ok((BigEndian::read_u32(bytes), &bytes[4..]))
}

#[tactic(auto, unfolding(crate::specs::Fields::number_at))]
pub(crate) fn u64_at(bytes: &[u8]) -> Result<(u64, &[u8]), EntryUnread>
    ensures { Gives (λ x. (x.0, x.1.now)) result (number_at 8 bytes.now) }
{
    if bytes.len() < 8 {
        return Err(EntryUnread::Malformed);
    }
    Ok((BigEndian::read_u64(bytes), &bytes[8..]))
}

#[tactic(auto, unfolding(crate::specs::Fields::number_at, crate::specs::Fields::signed_at))]
pub(crate) fn i64_at(bytes: &[u8]) -> Result<(i64, &[u8]), EntryUnread>
    ensures { Gives (λ x. (x.0, x.1.now)) result (signed_at bytes.now) }
{
    if bytes.len() < 8 {
        return Err(EntryUnread::Malformed);
    }
    Ok((BigEndian::read_i64(bytes), &bytes[8..]))
}
