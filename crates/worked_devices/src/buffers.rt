//! A text buffer, filled to its end.

use edge_io::{Sink, SinkFailed, WriteFault, write_whole};
use text_buffer::TextBuffer;

#[test]
fn a_buffer_takes_what_fits(rt: HostRuntime) {
    let mut buffer = TextBuffer::new();
    let wrote = write_whole(&mut buffer, b"cost 1\n");
    assert_eq!(rt; (wrote, buffer.text()), (Ok(()), b"cost 1\n".as_slice()));
    for _ in 7..16_384 {
        assert_eq!(rt; buffer.write(b"x"), Ok(1));
    }
    let length = buffer.text().len();
    let more = [buffer.write(b"x"), buffer.write(b"")];
    let whole = write_whole(&mut buffer, b"x");
    assert_eq!(rt; (length, more), (16_384, [Err(SinkFailed), Ok(0)]));
    assert_eq!(rt; (whole, buffer.text().len()), (Err(WriteFault), 16_384));
}
