//! What has a text, and the ways to hand a text on: as one piece where it fits the room on the stack, and else in smaller ones.

ghost use Rattle.std.specs.Prelude.{◌≡◌, ℕ, List, None, OnErr};
ghost use Rattle.std.specs.Option.{ForSome};
ghost use Rattle.std.specs.List.{flat_map};
ghost use Rattle.edge_io.specs.Counts.{Grows, Rose};
ghost use Rattle.edge_io.specs.Writing.{Wrote};

use edge_io::{Sink, WriteFault, write_whole};
use text_buffer::TextBuffer;

/// What has a text.
pub trait Text {
    ghost text: { Self → List ℕ };

    /// Writes the text, piece by piece.
    fn put<K: Sink>(&self, out: &mut K) -> Result<(), WriteFault>
        ensures wrote { Wrote result (K.taken out.old) (text self.now) (K.taken out.new) }
        ensures failed { OnErr result (Rose (K.faults out.old) (K.faults out.new)) }
        ensures faults_grow { Grows (K.faults out.old) (K.faults out.new) };

    /// How many parts it has, where they are most of it.
    fn parts(&self) -> usize {
        0
    }
}

/// The texts of several, one behind the other.
impl<'a, T: Text> Text for &'a [T] {
    ghost text = { λ items. flat_map T.text items.now };

    fn put<K: Sink>(&self, out: &mut K) -> Result<(), WriteFault> {
        for item in self.iter() {
            item.put(out)?;
        }
        Ok(())
    }
}

/// Writes a text as one piece, or nothing where it is too long. No room is held but while it runs.
#[inline(never)]
fn write_short<K: Sink, T: Text>(out: &mut K, text: &T) -> Option<Result<(), WriteFault>>
    ensures wrote { ForSome result (λ r. Wrote r (K.taken out.old) (T.text text.now) (K.taken out.new)) }
    ensures nothing { result ≡ None → out.new ≡ out.old }
    ensures failed { ForSome result (λ r. OnErr r (Rose (K.faults out.old) (K.faults out.new))) }
    ensures faults_grow { Grows (K.faults out.old) (K.faults out.new) }
{
    let mut buffer = TextBuffer::new();
    match text.put(&mut buffer) {
        Ok(()) => Some(write_whole(out, buffer.text())),
        Err(_) => None,
    }
}

/// Writes a text as one piece, or piece by piece where it is too long.
pub fn write_text<K: Sink, T: Text>(out: &mut K, text: &T) -> Result<(), WriteFault>
    ensures wrote { Wrote result (K.taken out.old) (T.text text.now) (K.taken out.new) }
    ensures failed { OnErr result (Rose (K.faults out.old) (K.faults out.new)) }
    ensures faults_grow { Grows (K.faults out.old) (K.faults out.new) }
{
    match write_short(out, text) {
        Some(written) => written,
        None => text.put(out),
    }
}

/// Writes texts, one behind the other, as one piece, or by halves where that is too long. One alone that is too long goes piece by piece.
pub fn write_list<K: Sink, T: Text>(out: &mut K, items: &[T]) -> Result<(), WriteFault>
    ensures wrote { Wrote result (K.taken out.old) (flat_map T.text items.now) (K.taken out.new) }
    ensures failed { OnErr result (Rose (K.faults out.old) (K.faults out.new)) }
    ensures faults_grow { Grows (K.faults out.old) (K.faults out.new) }
{
    if let Some(written) = short_list(out, items) {
        return written;
    }
    if items.len() < 2 {
        return items.put(out);
    }
    let (first, second) = items.split_at(items.len() / 2);
    write_list(out, first)?;
    write_list(out, second)
}

/// Writes texts as one piece, or nothing where that is too long, or where they have so many parts that it hardly fits.
fn short_list<K: Sink, T: Text>(out: &mut K, items: &[T]) -> Option<Result<(), WriteFault>>
    ensures wrote { ForSome result (λ r. Wrote r (K.taken out.old) (flat_map T.text items.now) (K.taken out.new)) }
    ensures nothing { result ≡ None → out.new ≡ out.old }
    ensures failed { ForSome result (λ r. OnErr r (Rose (K.faults out.old) (K.faults out.new))) }
    ensures faults_grow { Grows (K.faults out.old) (K.faults out.new) }
{
    if items.len() > 1 && have_many_parts(items) {
        return None;
    }
    write_short(out, &items)
}

/// How many parts fit one piece, as a rule.
const PIECE_PARTS: usize = 700;

/// Whether texts would hardly fit one piece, so that to try it costs time alone.
fn have_many_parts<T: Text>(items: &[T]) -> bool {
    let mut count: usize = 0;
    for item in items {
        count = count.saturating_add(item.parts());
    }
    count > PIECE_PARTS
}
