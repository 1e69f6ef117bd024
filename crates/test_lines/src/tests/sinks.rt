//! Sinks, and readers and writers as sources and sinks.
use eb_io::{CountSink, Got, MemSink, Sink, SinkFailed, Source, StdSink, StdSource, write_all};
use std::io;
use std::test::Fail;

#[test]
fn a_sink_takes_what_it_has_room_for(rt: HostRuntime) -> Result<(), Fail> {
    let mut sink = MemSink::new(rt.alloc(), 6, 4, &[2])?;
    for wanted in [Ok(4), Err(SinkFailed), Ok(2), Err(SinkFailed)] {
        assert_eq!(rt; sink.put(b"abcde"), wanted);
    }
    assert!(rt; sink.bytes() == b"abcdab".as_slice());
    Ok(())
}

#[test]
fn all_is_written_where_there_is_room(rt: HostRuntime) -> Result<(), Fail> {
    let mut sink = MemSink::new(rt.alloc(), 6, 2, &[])?;
    assert_eq!(rt; write_all(&mut sink, b"abcde"), Ok(()));
    assert_eq!(rt; write_all(&mut sink, b"fg"), Err(SinkFailed));
    assert!(rt; sink.bytes() == b"abcdef".as_slice());
    Ok(())
}

#[test]
fn a_sink_counts(rt: HostRuntime) {
    let mut sink = CountSink::new();
    assert_eq!(rt; write_all(&mut sink, b"abcde"), Ok(()));
    assert_eq!(rt; sink.put(b"fg"), Ok(2));
    assert_eq!(rt; sink.count(), 7);
}

// A reader and writer whose first call works, whose second fails, whose third moves no bytes, and
// whose flush after the fourth fails.
#[derive(Drop)]
struct Uneven {
    calls: u8,
}

impl io::Read for Uneven {
    fn read(&mut self, buf: &mut [u8]) -> io::Result<usize> {
        self.calls = self.calls.saturating_add(1);
        match self.calls {
            1 => {
                let count = buf.len().min(2);
                buf[..count].copy_from_slice(&b"ab"[..count]);
                Ok(count)
            }
            2 => Err(io::Error::other("broken")),
            _ => Ok(0),
        }
    }
}

impl io::Write for Uneven {
    fn write(&mut self, buf: &[u8]) -> io::Result<usize> {
        self.calls = self.calls.saturating_add(1);
        match self.calls {
            2 => Err(io::Error::other("broken")),
            3 => Ok(0),
            _ => Ok(buf.len().min(2)),
        }
    }

    fn flush(&mut self) -> io::Result<()> {
        if self.calls == 4 {
            return Err(io::Error::other("broken"));
        }
        Ok(())
    }
}

#[test]
fn a_reader_is_a_source(rt: HostRuntime) {
    let mut source = StdSource::new(Uneven { calls: 0 });
    let mut buffer = [0; 3];
    for wanted in [Got::Bytes(2), Got::Failed, Got::End] {
        assert_eq!(rt; source.read(&mut buffer), wanted);
        assert_eq!(rt; buffer, [b'a', b'b', 0]);
    }
}

#[test]
fn a_writer_is_a_sink(rt: HostRuntime) {
    let mut sink = StdSink::new(Uneven { calls: 0 });
    for wanted in [
        Ok(2),
        Err(SinkFailed),
        Err(SinkFailed),
        Err(SinkFailed),
        Ok(2),
    ] {
        assert_eq!(rt; sink.put(b"abc"), wanted);
    }
}
