//! Numbers of millionths, written in decimals.

ghost use Rattle.std.specs.Prelude.{◌≡◌, ◌-◌, ◌+◌, ◌/◌, ◌%◌, ◌^◌, ◌<◌, ◌≤◌, length, replicate, OnErr, ℤ, pos, unsigned_abs, int_lt};
ghost use Rattle.std.specs.Fmt.{decimal};
ghost use Rattle.edge_io.specs.Counts.{Grows, Rose};
ghost use Rattle.edge_io.specs.Writing.{Wrote};
ghost use Rattle.pool_model.specs.Quantity.{fixed, sign};
ghost use Rattle.text_pieces.specs.Decimals.{column_text, decimal_text, right_in, signed_text};

use edge_io::{Sink, WriteFault, write_whole};
use itoa::Buffer;

/// How many places a column of numbers has.
const PLACES: usize = 20;

/// A decimal: whole units, a point and six digits.
pub(crate) fn write_decimal<K: Sink>(out: &mut K, m: i128) -> Result<(), WriteFault>
    ensures wrote { Wrote result (K.taken out.old) (decimal_text m) (K.taken out.new) }
    ensures failed { OnErr result (Rose (K.faults out.old) (K.faults out.new)) }
    ensures faults_grow { Grows (K.faults out.old) (K.faults out.new) }
{
    write_signed(out, m < 0, m.unsigned_abs())
}

/// So many millionths, with their sign.
fn write_signed<K: Sink>(out: &mut K, negative: bool, size: u128) -> Result<(), WriteFault>
    ensures wrote { Wrote result (K.taken out.old) (signed_text negative size) (K.taken out.new) }
    ensures failed { OnErr result (Rose (K.faults out.old) (K.faults out.new)) }
    ensures faults_grow { Grows (K.faults out.old) (K.faults out.new) }
{
    write_whole(out, minus(negative))?;
    write_units(out, size / 1_000_000)?;
    write_whole(out, b".")?;
    write_whole(out, &six_digits(size % 1_000_000))
}

/// A minus before a number below 0.
fn minus(negative: bool) -> &'static [u8]
    ensures { result.now ≡ sign negative }
{
    if negative { b"-" } else { b"" }
}

/// Whole units, with no leading zero.
fn write_units<K: Sink>(out: &mut K, units: u128) -> Result<(), WriteFault>
    ensures wrote { Wrote result (K.taken out.old) (decimal units) (K.taken out.new) }
    ensures failed { OnErr result (Rose (K.faults out.old) (K.faults out.new)) }
    ensures faults_grow { Grows (K.faults out.old) (K.faults out.new) }
{
    let mut buffer = Buffer::new();
    write_whole(out, buffer.format(units).as_bytes())
}

/// The last six digits of a number.
#[tactic(auto, unfolding(pool_model::specs::Quantity::fixed))]
fn six_digits(n: u128) -> [u8; 6]
    ensures { result ≡ fixed 6 n }
{
    let tens = n / 10;
    let hundreds = tens / 10;
    let thousands = hundreds / 10;
    let ten_thousands = thousands / 10;
    [
        last_digit(ten_thousands / 10),
        last_digit(ten_thousands),
        last_digit(thousands),
        last_digit(hundreds),
        last_digit(tens),
        last_digit(n),
    ]
}

/// The last digit of a number.
fn last_digit(n: u128) -> u8
    ensures { result ≡ 48 + n % 10 }
{
    b'0' + (n % 10) as u8
}

/// A decimal, right in the places of a column.
pub(crate) fn write_column<K: Sink>(out: &mut K, m: i128) -> Result<(), WriteFault>
    ensures wrote { Wrote result (K.taken out.old) (column_text m) (K.taken out.new) }
    ensures failed { OnErr result (Rose (K.faults out.old) (K.faults out.new)) }
    ensures faults_grow { Grows (K.faults out.old) (K.faults out.new) }
{
    write_right(out, m < 0, m.unsigned_abs())
}

/// So many millionths, with their sign, right in the places of a column.
fn write_right<K: Sink>(out: &mut K, negative: bool, size: u128) -> Result<(), WriteFault>
    ensures wrote { Wrote result (K.taken out.old) (right_in 20 (signed_text negative size)) (K.taken out.new) }
    ensures failed { OnErr result (Rose (K.faults out.old) (K.faults out.new)) }
    ensures faults_grow { Grows (K.faults out.old) (K.faults out.new) }
{
    write_spaces(out, signed_length(negative, size))?;
    write_signed(out, negative, size)
}

/// The spaces before a text of this length in a column.
fn write_spaces<K: Sink>(out: &mut K, length: usize) -> Result<(), WriteFault>
    ensures wrote { Wrote result (K.taken out.old) (replicate (20 - length) 32) (K.taken out.new) }
    ensures failed { OnErr result (Rose (K.faults out.old) (K.faults out.new)) }
    ensures faults_grow { Grows (K.faults out.old) (K.faults out.new) }
{
    write_whole(out, &b"                    "[length.min(PLACES)..])
}

/// How many bytes so many millionths have, with their sign.
fn signed_length(negative: bool, size: u128) -> usize
    ensures { result ≡ length (signed_text negative size) }
{
    let mut buffer = Buffer::new();
    let units = buffer.format(size / 1_000_000).len();
    minus(negative).len() + units + 7
}
