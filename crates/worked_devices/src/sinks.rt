//! Sinks in memory and streams, and what is written where one fails.

use edge_io::{
    Breaks, MemSink, MemStream, Sink, SinkFailed, StdSink, SystemStream, WriteFault, write_number,
    write_whole,
};
use std::fmt::Display;
use std::io;
use std::test::Fail;

#[test]
fn texts_and_numbers_are_written(rt: HostRuntime) {
    let alloc = rt.alloc();
    let mut sink = MemSink::new(alloc, Vec::new(alloc));
    let wrote = [
        write_whole(&mut sink, b"cost"),
        write_number(&mut sink, i128::MIN),
        write_number(&mut sink, 0),
    ];
    assert_eq!(rt; wrote, [Ok(()); 3]);
    let text = b"cost-1701411834604692317316873037158841057280";
    assert_eq!(rt; sink.taken(), text.as_slice());
}

/// One that fails its second call, and one that is full after three bytes.
#[test]
fn a_sink_fails_where_it_is_told(rt: HostRuntime) -> Result<(), Fail> {
    let alloc = rt.alloc();
    let mut sink = MemSink::new(alloc, [1].to_vec(alloc)?);
    let mut small = MemSink::limit(alloc, 3)?;
    let wrote = [sink.write(b"a"), sink.write(b"b"), sink.write(b"c")];
    let whole = write_whole(&mut small, b"abcde");
    let more = small.write(b"");
    assert_eq!(rt; wrote, [Ok(1), Err(SinkFailed), Ok(1)]);
    assert_eq!(rt; (whole, more), (Err(WriteFault), Err(SinkFailed)));
    assert_eq!(rt;
        [sink.taken(), small.taken()],
        [b"ac".as_slice(), b"abc".as_slice()]
    );
    Ok(())
}

/// A stream of which every write takes that many bytes, or fails.
#[derive(Drop)]
struct Stuck(Option<usize>);

impl Print for Stuck {
    fn print<D: Display + Drop>(&self, _value: D) -> io::Result<()> {
        Ok(())
    }

    fn println<D: Display + Drop>(&self, _value: D) -> io::Result<()> {
        Ok(())
    }

    fn write_all(&self, _bytes: &[u8]) -> io::Result<()> {
        Ok(())
    }

    fn write_some(&self, bytes: &[u8]) -> io::Result<usize> {
        match self.0 {
            Some(n) => Ok(n.min(bytes.len())),
            None => Err(io::Error::from(io::ErrorKind::BrokenPipe)),
        }
    }
}

#[test]
fn a_stream_that_takes_nothing_has_failed(rt: HostRuntime) {
    for (took, wrote) in [
        (Some(2), Ok(2)),
        (Some(0), Err(SinkFailed)),
        (None, Err(SinkFailed)),
    ] {
        let stream = Stuck(took);
        let mut sink = StdSink::new(SystemStream::new(&stream));
        assert_eq!(rt; sink.write(b"abc"), wrote);
    }
}

#[test]
fn standard_output_is_written(rt: HostRuntime) {
    let mut shown = StdSink::new(SystemStream::new(rt.stdout()));
    let wrote = write_whole(&mut shown, b"written to standard output\n");
    assert_eq!(rt; wrote, Ok(()));
}
