//! Where the bytes of a text come from, one after another, with the number of the line.

ghost use Rattle.std.specs.Prelude.{◌≡◌, ◌+◌, ◌<◌, ◌^◌, length, Bool, false, IfOk, IfErr, IsTrue};
ghost use Rattle.cert_text.specs.Reading.{At, first_of, behind};

use crate::fault::SourceFailed;

/// A text, from the byte on that comes next.
pub trait Source {
    /// The line in which the next byte stands, and the bytes to come.
    ghost at: { Self → At };

    /// Whether a call failed.
    ghost broken: { Self → Bool };

    /// The number of the line in which the next byte stands, from 1.
    fn line(&self) -> u64
        ensures { result ≡ (at self.now).line };

    /// The next byte, where there is one. `SourceFailed` comes only where the source is broken then.
    fn next(&mut self) -> Result<Option<u8>, SourceFailed>
        ensures byte { IfOk result (λ b. b ≡ first_of (at self.old)) }
        ensures rest { IfOk result (λ _. at self.new ≡ behind (at self.old)) }
        ensures failed { IfErr result (λ _. IsTrue (broken self.new)) };
}

/// A text that lies in memory.
#[derive(Drop)]
pub struct SliceSource<'a> {
    rest: &'a [u8],
    line: u64,
    ghost in_range: { line + length rest.now < 2 ^ 64 },
}

impl<'a> SliceSource<'a> {
    /// All of the bytes, of which the first stands in this line.
    pub fn resume(bytes: &'a [u8], line: u64) -> SliceSource<'a>
        requires { line + length bytes.now < 2 ^ 64 }
        ensures rest { result.rest.now ≡ bytes.now }
        ensures line { result.line ≡ line }
    {
        SliceSource { rest: bytes, line }
    }

    /// The bytes to come.
    pub fn rest(&self) -> &'a [u8]
        ensures { result.now ≡ self.now.rest.now }
    {
        self.rest
    }

    /// All of the bytes, from line 1 on.
    pub fn new(bytes: &'a [u8]) -> SliceSource<'a>
        ensures rest { result.rest.now ≡ bytes.now }
        ensures line { result.line ≡ 1 }
    {
        SliceSource {
            rest: bytes,
            line: 1,
        }
    }
}

impl<'a> Source for SliceSource<'a> {
    ghost at = { λ s. record { line = s.line; rest = s.rest.now } };

    ghost broken = { λ _. false };

    fn line(&self) -> u64 {
        self.line
    }

    fn next(&mut self) -> Result<Option<u8>, SourceFailed> {
        match self.rest {
            [] => Ok(None),
            [c, rest @ ..] => {
                let c = *c;
                if c == b'\n' {
                    self.line += 1;
                }
                self.rest = rest;
                Ok(Some(c))
            }
        }
    }
}
