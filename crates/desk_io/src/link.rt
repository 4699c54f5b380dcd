// A source and a sink as one.
ghost use Rattle.std.specs.Prelude.{◌≡◌, ◌<◌, ◌≤◌, length};
ghost use Rattle.desk_io.specs.Calls.{failed_reads, failed_writes, Reads, Writes};

use crate::device::{Got, Put, Sink, Source};

/// A source and a sink as one, as the two ways of a connection. Each keeps its own count of faults.
#[derive(Drop)]
pub struct Link<S, K> {
    pub source: S,
    pub sink: K,
}

impl<S: Source, K> Source for Link<S, K> {
    ghost left = { λ link. S.left link.source };

    ghost faults = { λ link. S.faults link.source };

    /// One read of its source.
    fn read(&mut self, buf: &mut [u8]) -> Got
        requires { 0 < length buf.old }
        ensures bytes { Reads (S.left self.old.source) buf.new result (S.left self.new.source) }
        ensures counts { S.faults self.new.source ≡ failed_reads (S.faults self.old.source) result }
        ensures counted { S.faults self.old.source ≤ S.faults self.new.source }
        ensures other { self.new.sink ≡ self.old.sink }
    {
        self.source.read(buf)
    }
}

impl<S, K: Sink> Sink for Link<S, K> {
    ghost held = { λ link. K.held link.sink };

    ghost faults = { λ link. K.faults link.sink };

    /// One write to its sink.
    fn write(&mut self, bytes: &[u8]) -> Put
        requires { 0 < length bytes.now }
        ensures bytes { Writes (K.held self.old.sink) bytes.now result (K.held self.new.sink) }
        ensures counts { K.faults self.new.sink ≡ failed_writes (K.faults self.old.sink) result }
        ensures counted { K.faults self.old.sink ≤ K.faults self.new.sink }
        ensures other { self.new.source ≡ self.old.source }
    {
        self.sink.write(bytes)
    }
}
