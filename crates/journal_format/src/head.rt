//! What stands before the records: birth byte, magic, version and text.

ghost use Rattle.std.specs.Prelude.{◌≡◌, ◌≢◌, ◌↔◌, ◌+◌, ◌^◌, ◌≤◌, ℕ, List, length, take, drop, get_or, IsTrue, IfOk, IsErrOf, MatchResult, MatchOption};
ghost use Rattle.journal_format.specs.Versions.{version_byte};
ghost use Rattle.journal_format.specs.Files.{text_bytes, newborn, HasMagic};
ghost use Rattle.journal_format.specs.Faults.{Has};
ghost use Rattle.journal_format.specs.States.{IsIn};

use crate::fault::JournalFault;
use crate::fields::u32_field;
use crate::version::Version;
use std::alloc::{AllocError, Global};

/// What stands at the bytes 1 to 7 of a journal.
const MAGIC: [u8; 7] = *b"POOLJNL";

/// How many bytes stand before the length of the text: birth byte, magic and version.
pub const FRONT: usize = 9;

/// What the bytes before the records say of a file.
#[derive(Clone, Copy, Debug, PartialEq, Eq)]
pub enum State {
    /// No journal has come to be yet, and byte 0 has to be written first.
    Unborn,
    /// The same, but byte 0 is 0 already, and more stands behind it.
    Zeroed,
    /// The journal is there, and it was born in this version.
    Born(Version),
}

/// The whole file of a journal of this text without entries, as it is born; an error where there is no memory.
pub fn newborn_file(alloc: Global, text: &[u8]) -> Result<Vec<u8>, AllocError>
    requires { length text.now ≤ 2 ^ 20 }
    ensures { IfOk result (λ v. v.items ≡ newborn text.now) }
{
    let length = u32_field(text.len() as u32);
    let mut file = Vec::with_capacity(alloc, MAGIC.len() + text.len() + 7)?;
    file.push(1)?;
    file.extend_from_slice(&MAGIC)?;
    file.push(2)?;
    file.extend_from_slice(&length)?;
    file.extend_from_slice(text)?;
    file.push(0)?;
    Ok(file)
}

/// What the first bytes of a file say of it, as many as stand before the records of a born file of the text, or all that there are;
/// `tail` is the text behind its length, as it stands behind the version there. The fault is one that the file has, however long a
/// payload may be.
pub fn state_of(front: &[u8], tail: &[u8]) -> Result<State, JournalFault>
    ensures state { (text file : List ℕ) → tail.now ≡ text_bytes text → front.now ≡ take (FRONT + length tail.now) file →
        MatchResult result (IsIn text file) (λ e. (largest : ℕ) → Has text largest file e) }
    ensures whole { IfOk result (λ state. (v : Version) → state ≡ State.Born v → length front.now ≡ FRONT + length tail.now) }
    ensures sound { ¬ IsErrOf result JournalFault.Disk }
{
    let birth = match front {
        [] | [_] => return Ok(State::Unborn),
        [0, ..] => return Ok(State::Zeroed),
        [birth, ..] => *birth,
    };
    if !has_magic(front) {
        return Err(JournalFault::NotAJournal);
    }
    if birth != 1 {
        return Ok(State::Unborn);
    }
    let byte = version_byte_of(front);
    let Some(version) = version_of(byte) else {
        return Err(JournalFault::UnknownVersion(byte));
    };
    if has_tail(front, tail) {
        Ok(State::Born(version))
    } else {
        Err(JournalFault::OtherNetwork)
    }
}

/// Whether the magic stands behind the first byte.
fn has_magic(front: &[u8]) -> bool
    ensures { IsTrue result ↔ HasMagic front.now }
{
    front.len() > MAGIC.len() && &front[1..=MAGIC.len()] == MAGIC.as_slice()
}

/// Whether this stands behind the version, and nothing more.
fn has_tail(front: &[u8], tail: &[u8]) -> bool
    ensures { IsTrue result ↔ (9 ≤ length front.now) × (drop 9 front.now ≡ tail.now) }
{
    front.len() >= FRONT && &front[FRONT..] == tail
}

/// The byte of the version; 0 where it is missing.
fn version_byte_of(front: &[u8]) -> u8
    ensures { result ≡ get_or front.now 8 0 }
{
    match front.get(8) {
        Some(byte) => *byte,
        None => 0,
    }
}

/// The version that this byte tells; None where there is no such version.
fn version_of(byte: u8) -> Option<Version>
    ensures { MatchOption result ((byte ≢ 1) × (byte ≢ 2)) (λ v. byte ≡ version_byte v) }
{
    match byte {
        1 => Some(Version::One),
        2 => Some(Version::Two),
        _ => None,
    }
}
