//! Certificates as text: read and written again, in one piece or in few.

use super::{FULL, NO_PLAN, TREE};
use cert_format::{read_cert, write_cert};
use edge_io::{MemSink, WriteFault};
use std::alloc::{AllocError, Global};
use std::test::Fail;

/// The certificate of a text, written to a sink; nothing where the text is of none.
fn write_again(alloc: Global, text: &str, sink: &mut MemSink) -> Option<Result<(), WriteFault>> {
    let cert = read_cert(alloc, text.as_bytes()).ok()?;
    Some(write_cert(&cert, sink))
}

/// Whether the certificate of a text is written as that text in so many pieces: to a sink that would refuse one more, and not to one
/// that refuses the last.
fn is_written_in(alloc: Global, text: &str, pieces: u64) -> Result<bool, AllocError> {
    let mut sink = MemSink::new(alloc, vec![in alloc; pieces]?);
    let mut less = MemSink::new(alloc, vec![in alloc; pieces.saturating_sub(1)]?);
    let written = write_again(alloc, text, &mut sink) == Some(Ok(()));
    let refused = write_again(alloc, text, &mut less) == Some(Err(WriteFault));
    Ok(written && refused && sink.taken() == text.as_bytes())
}

const SPLITS: u32 = 2_000;

const PARTS: usize = 6_000;

/// The text of many splits and of a proof of many parts, of 88,971 bytes.
fn long_text(alloc: Global) -> Result<String, AllocError> {
    let mut text = String::from_str(
        alloc,
        "poolcert 1\nkind none\nshape 0 0 0 0 0 0 0\nsplits 2000\n",
    )?;
    for leaf in 0..SPLITS {
        text.push_str(&format!(in alloc; "split {leaf} 0 1\n")?)?;
    }
    text.push_str("proofs 1\nproof 0 1 6000")?;
    text.push_str(&" 7 -100000".repeat(alloc, PARTS)?)?;
    text.push_str("\nend\n")?;
    Ok(text)
}

/// Of the long one: three lines, the count of the splits, two halves of them, the count of the proofs, the word of the proof, its
/// number, its scale and count of parts, these in quarters, the end of its line, and the last line.
#[test]
fn is_read_and_written_in_few_pieces(rt: HostRuntime) -> Result<(), Fail> {
    let alloc = rt.alloc();
    let long = long_text(alloc)?;
    for (text, pieces) in [(FULL, 1), (NO_PLAN, 1), (TREE, 1), (long.as_str(), 16)] {
        assert!(rt; is_written_in(alloc, text, pieces)?, "{pieces} pieces");
    }
    Ok(())
}
