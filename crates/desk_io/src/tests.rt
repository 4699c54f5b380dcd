// Whole reads and writes by pieces, with calls that fail.
ghost use Rattle.std.specs.Prelude.{◌<◌};

use super::*;
use minute_line::{Many, Memory};
use std::alloc::Global;
use std::io;
use std::io::Write;
use std::test::Fail;

// 50 bytes.
const TEXT: &[u8] = b"01234567890123456789012345678901234567890123456789";

// A whole read of the text: the number of bytes or the error, then the bytes given, the calls and the faults.
fn whole_read(
    alloc: Global,
    piece: usize,
    fails: u64,
    limit: usize,
) -> Result<(Result<usize, ReadError>, usize, u64, u64), Memory>
    requires { 0 < piece }
{
    let mut source = MemorySource {
        bytes: Many::from_slice(alloc, TEXT)?,
        at: 0,
        piece,
        calls: 0,
        fails: Many::from_slice(alloc, &[fails])?,
        faults: 0,
    };
    let read = match read_all(alloc, &mut source, limit) {
        Ok(bytes) => Ok(bytes.len()),
        Err(error) => Err(error),
    };
    Ok((read, source.at, source.calls, source.faults))
}

// By hand: a piece a call, and one call more to see the end. Call 0 is none, so that no call fails.
#[test]
fn a_whole_read_gives_all_or_ends_past_its_limit(rt: HostRuntime) -> Result<(), Fail> {
    // piece, failing call, limit
    let rows = [
        (1, 0, 50, (Ok(50), 50, 51, 0)),
        (1, 0, 49, (Err(ReadError::TooLong), 50, 50, 0)),
        (1, 1, 50, (Err(ReadError::Fault), 0, 1, 1)),
        (1, 26, 50, (Err(ReadError::Fault), 25, 26, 1)),
        (20, 0, 51, (Ok(50), 50, 4, 0)),
        (20, 0, 39, (Err(ReadError::TooLong), 40, 2, 0)),
        (20, 1, 50, (Err(ReadError::Fault), 0, 1, 1)),
        (20, 2, 50, (Err(ReadError::Fault), 20, 2, 1)),
        (50, 0, 50, (Ok(50), 50, 2, 0)),
        (50, 0, 0, (Err(ReadError::TooLong), 50, 1, 0)),
        (50, 1, 50, (Err(ReadError::Fault), 0, 1, 1)),
        (50, 2, 50, (Err(ReadError::Fault), 50, 2, 1)),
    ];
    for (piece, fails, limit, want) in rows {
        assert!(rt; piece > 0);
        let got = whole_read(rt.alloc(), piece, fails, limit)
            .ok()
            .ok_or("memory")?;
        assert_eq!(rt; got, want, "piece {piece}, failing {fails}, limit {limit}");
    }
    Ok(())
}

// A whole write of the text: whether all of it was taken, then the bytes held, the calls and the faults.
fn whole_write(
    alloc: Global,
    piece: usize,
    fails: u64,
    room: usize,
) -> Result<(bool, usize, u64, u64), Memory>
    requires { 0 < piece }
{
    let mut sink = memory_sink(alloc, room, piece, Many::from_slice(alloc, &[fails])?)?;
    let written = write_all(&mut sink, TEXT).is_ok();
    Ok((written, sink.held.len(), sink.calls, sink.faults))
}

// By hand: a piece a call, the last one shorter, and a failing call where the room ends.
#[test]
fn a_whole_write_appends_all_or_a_beginning(rt: HostRuntime) -> Result<(), Fail> {
    // piece, failing call, room
    let rows = [
        (1, 0, 50, (true, 50, 50, 0)),
        (1, 1, 50, (false, 0, 1, 1)),
        (1, 26, 50, (false, 25, 26, 1)),
        (20, 0, 51, (true, 50, 3, 0)),
        (20, 2, 50, (false, 20, 2, 1)),
        (20, 0, 30, (false, 30, 3, 1)),
        (50, 0, 50, (true, 50, 1, 0)),
        (50, 1, 50, (false, 0, 1, 1)),
        (50, 0, 0, (false, 0, 1, 1)),
    ];
    for (piece, fails, room, want) in rows {
        assert!(rt; piece > 0);
        let got = whole_write(rt.alloc(), piece, fails, room)
            .ok()
            .ok_or("memory")?;
        assert_eq!(rt; got, want, "piece {piece}, failing {fails}, room {room}");
    }
    Ok(())
}

#[test]
fn all_that_std_gives_is_read_and_written(rt: HostRuntime) -> Result<(), Fail> {
    let mut source = StdSource {
        inner: TEXT,
        faults: 0,
    };
    let bytes = read_all(rt.alloc(), &mut source, 50).ok().ok_or("read")?;
    let mut sink = StdSink {
        inner: Vec::new(rt.alloc()),
        faults: 0,
    };
    assert!(rt; write_all(&mut sink, bytes.as_slice()).is_ok());
    assert!(rt; sink.inner.as_slice() == TEXT);
    assert_eq!(rt; (source.faults, sink.faults), (0, 0));
    Ok(())
}

// A writer that takes one byte a call, and writes it at its place in the text.
#[derive(Drop)]
struct Slow {
    bytes: [u8; 50],
    at: usize,
}

impl Write for Slow {
    fn write(&mut self, buf: &[u8]) -> io::Result<usize> {
        match (buf.first(), self.bytes.get_mut(self.at)) {
            (Some(byte), Some(place)) => {
                *place = *byte;
                self.at += 1;
                Ok(1)
            }
            _ => Ok(0),
        }
    }

    fn flush(&mut self) -> io::Result<()> {
        Ok(())
    }
}

#[test]
fn a_writer_of_one_byte_a_call_gets_each_byte_once(rt: HostRuntime) {
    let mut sink = StdSink {
        inner: Slow {
            bytes: [0; 50],
            at: 0,
        },
        faults: 0,
    };
    assert!(rt; write_all(&mut sink, TEXT).is_ok());
    assert!(rt; sink.inner.bytes.as_slice() == TEXT);
    assert_eq!(rt; (sink.inner.at, sink.faults), (50, 0));
    assert_eq!(rt; write_all(&mut sink, b"x"), Err(SinkFault));
    assert_eq!(rt; (sink.inner.at, sink.faults), (50, 1));
}

// A writer that takes each byte, and whose flush fails.
#[derive(Drop)]
struct Stuck;

impl Write for Stuck {
    fn write(&mut self, buf: &[u8]) -> io::Result<usize> {
        Ok(buf.len())
    }

    fn flush(&mut self) -> io::Result<()> {
        Err(io::Error::from(io::ErrorKind::BrokenPipe))
    }
}

#[test]
fn a_failed_flush_is_a_fault(rt: HostRuntime) {
    let mut sink = StdSink {
        inner: Stuck,
        faults: u64::MAX - 1,
    };
    assert_eq!(rt; sink.write(TEXT), Put::Failed);
    assert_eq!(rt; sink.faults, u64::MAX);
    assert_eq!(rt; write_all(&mut sink, TEXT), Err(SinkFault));
    assert_eq!(rt; sink.faults, u64::MAX);
}

#[test]
fn a_link_reads_its_source_and_writes_its_sink(rt: HostRuntime) -> Result<(), Fail> {
    let mut link = Link {
        source: StdSource {
            inner: TEXT,
            faults: 3,
        },
        sink: memory_sink(rt.alloc(), 70, 20, Many::from_slice(rt.alloc(), &[4])?)
            .ok()
            .ok_or("memory")?,
    };
    let bytes = read_all(rt.alloc(), &mut link, 50).ok().ok_or("read")?;
    assert!(rt; write_all(&mut link, bytes.as_slice()).is_ok());
    assert_eq!(rt; write_all(&mut link, b"x"), Err(SinkFault));
    assert!(rt; link.sink.held.as_slice() == TEXT);
    assert_eq!(rt; (link.source.faults, link.sink.faults), (3, 1));
    Ok(())
}
