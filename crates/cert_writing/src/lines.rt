//! Lines of a word and numbers.

ghost use Rattle.std.specs.Prelude.{[], ◌∷◌, ◌++◌, length, map, decimal, OnErr};
ghost use Rattle.std.specs.List.{flat_map};
ghost use Rattle.edge_io.specs.Counts.{Grows, Rose};
ghost use Rattle.edge_io.specs.Writing.{Wrote};
ghost use Rattle.cert_writing.specs.Text.{field, line};

use crate::text::{Text, write_list, write_text};
use edge_io::{Sink, WriteFault, write_whole};
use itoa::{Buffer, Integer};

/// Numbers, with one space before each.
#[derive(Clone, Copy)]
pub struct Fields<'a, N>(pub &'a [N]);

impl<'a, N: Integer> Text for Fields<'a, N> {
    ghost text = { λ fields. flat_map field (map N.text fields.0.now) };

    fn put<K: Sink>(&self, out: &mut K) -> Result<(), WriteFault> {
        for n in self.0 {
            write_field(out, *n)?;
        }
        Ok(())
    }
}

/// A word and numbers, with one space before each, and a line feed.
#[derive(Clone, Copy)]
pub struct Line<'a, N> {
    pub word: &'a [u8],
    pub numbers: &'a [N],
}

impl<'a, N: Integer> Text for Line<'a, N> {
    ghost text = { λ it. line it.word.now (map N.text it.numbers.now) };

    fn put<K: Sink>(&self, out: &mut K) -> Result<(), WriteFault> {
        write_whole(out, self.word)?;
        Fields(self.numbers).put(out)?;
        write_whole(out, b"\n")
    }
}

/// Writes a number, with one space before it.
fn write_field<K: Sink, N: Integer>(out: &mut K, n: N) -> Result<(), WriteFault>
    ensures wrote { Wrote result (K.taken out.old) (field (N.text n)) (K.taken out.new) }
    ensures failed { OnErr result (Rose (K.faults out.old) (K.faults out.new)) }
    ensures faults_grow { Grows (K.faults out.old) (K.faults out.new) }
{
    write_whole(out, b" ")?;
    let mut buffer = Buffer::new();
    write_whole(out, buffer.format(n).as_bytes())
}

/// Writes numbers, with one space before each.
pub fn write_fields<K: Sink, N: Integer>(out: &mut K, numbers: &[N]) -> Result<(), WriteFault>
    ensures wrote { Wrote result (K.taken out.old) (flat_map field (map N.text numbers.now)) (K.taken out.new) }
    ensures failed { OnErr result (Rose (K.faults out.old) (K.faults out.new)) }
    ensures faults_grow { Grows (K.faults out.old) (K.faults out.new) }
{
    write_text(out, &Fields(numbers))
}

/// Writes a line of a word and numbers.
pub fn write_line<K: Sink, N: Integer>(
    out: &mut K,
    word: &[u8],
    numbers: &[N],
) -> Result<(), WriteFault>
    ensures wrote { Wrote result (K.taken out.old) (line word.now (map N.text numbers.now)) (K.taken out.new) }
    ensures failed { OnErr result (Rose (K.faults out.old) (K.faults out.new)) }
    ensures faults_grow { Grows (K.faults out.old) (K.faults out.new) }
{
    write_text(out, &Line { word, numbers })
}

/// Writes a line of a word and how many texts there are, and these.
pub fn write_counted<K: Sink, T: Text>(
    out: &mut K,
    word: &[u8],
    items: &[T],
) -> Result<(), WriteFault>
    ensures wrote { Wrote result (K.taken out.old) (line word.now (decimal (length items.now) ∷ []) ++ flat_map T.text items.now) (K.taken out.new) }
    ensures failed { OnErr result (Rose (K.faults out.old) (K.faults out.new)) }
    ensures faults_grow { Grows (K.faults out.old) (K.faults out.new) }
{
    write_line(out, word, &[items.len()])?;
    write_list(out, items)
}
