// std's readers and writers as sources and sinks. Nothing is told of their bytes.
ghost use Rattle.std.specs.Prelude.{◌≡◌, None, ◌<◌, ◌≤◌, length};
ghost use Rattle.desk_io.specs.Calls.{failed_reads, failed_writes, Reads, Writes};
ghost use Rattle.desk_io.specs.Streams.{HandsOn, PassesOn};

use crate::device::{Got, Put, Sink, Source};
use std::io::{Read, Write};

/// A reader of std as a source, which tells nothing of its bytes.
#[derive(Drop)]
pub struct StdSource<R> {
    pub inner: R,
    /// How many reads were an `Err`. At its last value it stands.
    pub faults: u64,
}

impl<R: Read> Source for StdSource<R> {
    ghost left = { λ _. None };

    ghost faults = { λ s. s.faults };

    /// One read of the reader: an `Err` is a fault.
    fn read(&mut self, buf: &mut [u8]) -> Got
        requires { 0 < length buf.old }
        ensures bytes { Reads None buf.new result None }
        ensures counts { self.new.faults ≡ failed_reads self.old.faults result }
        ensures counted { self.old.faults ≤ self.new.faults }
        ensures passed { PassesOn (R.remaining self.old.inner) buf.new result (R.remaining self.new.inner) }
    {
        match self.inner.read(buf) {
            Ok(0) => Got::End,
            Ok(n) => Got::Bytes(n),
            Err(_) => {
                self.faults = self.faults.saturating_add(1);
                Got::Failed
            }
        }
    }
}

/// A writer of std as a sink, which tells nothing of its bytes. It flushes what it writes, so that a fault shows at the
/// call that it belongs to; after a failed flush some bytes may be out.
#[derive(Drop)]
pub struct StdSink<W> {
    pub inner: W,
    /// How many writes took nothing, or were an `Err` of the write or of its flush. At its last value it stands.
    pub faults: u64,
}

impl<W: Write> Sink for StdSink<W> {
    ghost held = { λ _. None };

    ghost faults = { λ s. s.faults };

    /// One write of the writer, and its flush: an `Err` of either is a fault, and so is a write that takes nothing.
    fn write(&mut self, bytes: &[u8]) -> Put
        requires { 0 < length bytes.now }
        ensures bytes { Writes None bytes.now result None }
        ensures counts { self.new.faults ≡ failed_writes self.old.faults result }
        ensures counted { self.old.faults ≤ self.new.faults }
        ensures passed { HandsOn (W.contents self.old.inner) bytes.now result (W.contents self.new.inner) }
    {
        match self.inner.write(bytes) {
            Ok(n) if n > 0 && self.inner.flush().is_ok() => Put::Took(n),
            _ => {
                self.faults = self.faults.saturating_add(1);
                Put::Failed
            }
        }
    }
}
