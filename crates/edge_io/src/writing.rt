//! Pieces and numbers, written whole.

ghost use Rattle.std.specs.Prelude.{OnErr};
ghost use Rattle.std.specs.Fmt.{signed_decimal};
ghost use Rattle.edge_io.specs.Counts.{Grows, Rose};
ghost use Rattle.edge_io.specs.Writing.{Wrote};

use crate::fault::WriteFault;
use crate::sink::Sink;
use itoa::Buffer;

/// Writes all of the bytes. It takes no memory.
///
/// `WriteFault` comes only where the sink's count of faults rose; the sink has taken a front of the bytes then.
pub fn write_whole<K: Sink>(out: &mut K, bytes: &[u8]) -> Result<(), WriteFault>
    // Promise: A whole text is written, or a front of it
    ensures wrote { Wrote result (K.taken out.old) bytes.now (K.taken out.new) }
    ensures failed { OnErr result (Rose (K.faults out.old) (K.faults out.new)) }
    ensures faults_grow { Grows (K.faults out.old) (K.faults out.new) }
{
    let mut done = 0;
    while done < bytes.len() {
        done += out.write(&bytes[done..])?;
    }
    Ok(())
}

/// Writes the decimal digits of the number, with a `-` before them where it is negative. It takes no memory.
///
/// `WriteFault` comes only where the sink's count of faults rose; the sink has taken a front of the digits then.
pub fn write_number<K: Sink>(out: &mut K, n: i128) -> Result<(), WriteFault>
    ensures wrote { Wrote result (K.taken out.old) (signed_decimal n) (K.taken out.new) }
    ensures failed { OnErr result (Rose (K.faults out.old) (K.faults out.new)) }
    ensures faults_grow { Grows (K.faults out.old) (K.faults out.new) }
{
    let mut buffer = Buffer::new();
    write_whole(out, buffer.format(n).as_bytes())
}
