//! Words and numbers, each read whole or refused with its line.

ghost use Rattle.std.specs.Prelude.{◌≡◌, ◌-◌, ◌/◌, ◌<◌, ◌≤◌, ◌^◌, IfOk};
ghost use Rattle.cert_text.specs.Reading.{Gives, word_at, digits_at, number_at, int_at, IsWithin, same_at, is_next_digit, end_of, ends_before, u32_at, u64_at, i64_at, i128_at};

use crate::fault::{Stop, TextFault};
use crate::source::Source;

/// The byte that ends a number.
#[derive(Clone, Copy)]
pub enum Ends {
    Space,
    /// A line feed.
    Line,
    /// A line feed behind 0, and a space behind another number.
    LineIfZero,
}

impl Ends {
    /// How a number ends that k others follow in its line.
    pub fn before(k: u32) -> Ends
        ensures { result ≡ ends_before k }
    {
        if k == 0 { Ends::Line } else { Ends::Space }
    }

    /// The byte behind the number n.
    pub fn byte(self, n: u128) -> u8
        ensures { result ≡ end_of self n }
    {
        match self {
            Ends::Space => b' ',
            Ends::Line => b'\n',
            Ends::LineIfZero => { if n == 0 { b'\n' } else { b' ' } }
        }
    }
}

/// This word, or the fault of its line.
pub fn word<S: Source>(src: &mut S, word: &[u8]) -> Result<(), Stop>
    // Promise: A word, and a number in its range and in its one spelling, is read exactly where it stands there; else its line is told
    ensures { Gives (λ x. x) result (S.at src.new) (S.broken src.new) (word_at word.now (S.at src.old)) }
{
    let line = src.line();
    for c in word {
        if src.next()? != Some(*c) {
            return Err(Stop::Text(TextFault { line }));
        }
    }
    Ok(())
}

/// Whether the digit may stand behind the number, by a tenth of the most, so that no digit costs a division.
fn is_next(most: u128, tenth: u128, n: u128, c: u8) -> bool
    requires { tenth ≡ most / 10 }
    ensures { result ≡ is_next_digit most n c }
{
    n > 0
        && c.is_ascii_digit()
        && (n < tenth || (n == tenth && u128::from(c - b'0') <= most - tenth * 10))
}

/// The number whose digits so far make n, and the byte behind it.
fn digits<S: Source>(src: &mut S, most: u128, ends: Ends, n: u128) -> Result<u128, Stop>
    requires n_within { n ≤ most }
    requires nine { 9 ≤ most }
    ensures read { Gives (λ x. x) result (S.at src.new) (S.broken src.new) (digits_at most (end_of ends) n (S.at src.old)) }
    ensures within { IfOk result (λ x. x ≤ most) }
{
    let line = src.line();
    let tenth = most / 10;
    let mut n = n;
    loop {
        let Some(c) = src.next()? else {
            return Err(Stop::Text(TextFault { line }));
        };
        if c == ends.byte(n) {
            return Ok(n);
        }
        if !is_next(most, tenth, n, c) {
            return Err(Stop::Text(TextFault { line }));
        }
        n = n * 10 + u128::from(c - b'0');
    }
}

/// A number up to a most, and the byte behind it.
pub fn number<S: Source>(src: &mut S, most: u128, ends: Ends) -> Result<u128, Stop>
    requires { 9 ≤ most }
    // Promise: A word, and a number in its range and in its one spelling, is read exactly where it stands there; else its line is told
    ensures read { Gives (λ x. x) result (S.at src.new) (S.broken src.new) (number_at most (end_of ends) (S.at src.old)) }
    ensures within { IfOk result (λ x. x ≤ most) }
{
    let line = src.line();
    match src.next()? {
        Some(c) if c.is_ascii_digit() => digits(src, most, ends, u128::from(c - b'0')),
        _ => Err(Stop::Text(TextFault { line })),
    }
}

/// A number that may be negative, of a magnitude up to a most, or one more below zero.
fn int<S: Source>(src: &mut S, most: u128, ends: Ends) -> Result<i128, Stop>
    requires nine { 9 ≤ most }
    requires high { most < 2 ^ 127 }
    ensures read { Gives (λ x. x) result (S.at src.new) (S.broken src.new) (int_at most (end_of ends) (S.at src.old)) }
    ensures within { IfOk result (λ x. IsWithin most x) }
{
    let line = src.line();
    match src.next()? {
        Some(b'-') => match number(src, most + 1, ends)? {
            0 => Err(Stop::Text(TextFault { line })),
            n => Ok(-((n - 1) as i128) - 1),
        },
        Some(c) if c.is_ascii_digit() => Ok(digits(src, most, ends, u128::from(c - b'0'))? as i128),
        _ => Err(Stop::Text(TextFault { line })),
    }
}

/// This very number, and the byte behind it.
pub fn same<S: Source>(src: &mut S, n: u64, ends: Ends) -> Result<(), Stop>
    // Promise: A word, and a number in its range and in its one spelling, is read exactly where it stands there; else its line is told
    ensures { Gives (λ _. n) result (S.at src.new) (S.broken src.new) (same_at (2 ^ 64 - 1) (end_of ends) n (S.at src.old)) }
{
    let line = src.line();
    if number(src, u128::from(u64::MAX), ends)? == u128::from(n) {
        Ok(())
    } else {
        Err(Stop::Text(TextFault { line }))
    }
}

/// A number of 32 bits, and the byte behind it.
pub fn u32_then<S: Source>(src: &mut S, ends: Ends) -> Result<u32, Stop>
    // Promise: A word, and a number in its range and in its one spelling, is read exactly where it stands there; else its line is told
    ensures { Gives (λ x. x) result (S.at src.new) (S.broken src.new) (u32_at ends (S.at src.old)) }
{
    Ok(number(src, u128::from(u32::MAX), ends)? as u32)
}

/// A number of 64 bits, and the byte behind it.
pub fn u64_then<S: Source>(src: &mut S, ends: Ends) -> Result<u64, Stop>
    ensures { Gives (λ x. x) result (S.at src.new) (S.broken src.new) (u64_at ends (S.at src.old)) }
{
    Ok(number(src, u128::from(u64::MAX), ends)? as u64)
}

/// A signed number of 64 bits, and the byte behind it.
pub fn i64_then<S: Source>(src: &mut S, ends: Ends) -> Result<i64, Stop>
    ensures { Gives (λ x. x) result (S.at src.new) (S.broken src.new) (i64_at ends (S.at src.old)) }
{
    Ok(int(src, i64::MAX as u128, ends)? as i64)
}

/// A signed number of 128 bits, and the byte behind it.
pub fn i128_then<S: Source>(src: &mut S, ends: Ends) -> Result<i128, Stop>
    // Promise: A word, and a number in its range and in its one spelling, is read exactly where it stands there; else its line is told
    ensures { Gives (λ x. x) result (S.at src.new) (S.broken src.new) (i128_at ends (S.at src.old)) }
{
    int(src, i128::MAX as u128, ends)
}
