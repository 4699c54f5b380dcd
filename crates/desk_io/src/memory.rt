// Sources and sinks in memory, which tell all. Some of their calls fail, as they are told to.
ghost use Rattle.std.specs.Prelude.{◌≡◌, ◌+◌, ◌++◌, vec_len, vec_capacity, ◌<◌, ◌≤◌, [], length, Some, IfOk};
ghost use Rattle.desk_io.specs.Calls.{failed_reads, failed_writes, Reads, Writes};

use crate::device::{Got, Put, Sink, Source};
use minute_line::{Bytes, Many, Memory};
use std::alloc::Global;

/// A source over bytes in memory. Its calls are numbered from 1, and a counter at its last value stands.
#[derive(Drop)]
pub struct MemorySource {
    pub bytes: Bytes,
    /// How many bytes were given.
    pub at: usize,
    /// The most bytes of one call, at least 1.
    pub piece: usize,
    /// How many calls were made.
    pub calls: u64,
    /// The numbers of the calls that are to fail.
    pub fails: Many<u64>,
    /// How many calls failed.
    pub faults: u64,
    pub ghost in_range: { at ≤ length bytes },
    pub ghost some_piece: { 0 < piece },
}

impl Source for MemorySource {
    ghost use Rattle.desk_io.specs.Memory.{bytes_left, read_answer, ReadFrom};
    ghost use Rattle.std.specs.Prelude.{Some};

    ghost left = { λ s. Some (bytes_left s) };

    ghost faults = { λ s. s.faults };

    /// Fails exactly where the call is to fail. Else it gives as many bytes as the piece, the buffer and the rest allow,
    /// and `End` where nothing is left.
    fn read(&mut self, buf: &mut [u8]) -> Got
        requires { 0 < length buf.old }
        ensures bytes { Reads (Some (bytes_left self.old)) buf.new result (Some (bytes_left self.new)) }
        ensures counts { self.new.faults ≡ failed_reads self.old.faults result }
        ensures counted { self.old.faults ≤ self.new.faults }
        ensures answer { result ≡ read_answer self.old (length buf.old) }
        ensures after { ReadFrom self.old self.new result }
    {
        self.calls = self.calls.saturating_add(1);
        if self.fails.as_slice().contains(&self.calls) {
            self.faults = self.faults.saturating_add(1);
            return Got::Failed;
        }
        let rest = self.bytes.len() - self.at;
        if rest == 0 {
            return Got::End;
        }
        let n = self.piece.min(buf.len()).min(rest);
        let to = self.at + n;
        buf[..n].copy_from_slice(&self.bytes.as_slice()[self.at..to]);
        self.at = to;
        Got::Bytes(n)
    }
}

/// A sink that keeps its bytes in memory. Its calls are numbered from 1, and a counter at its last value stands.
#[derive(Drop)]
pub struct MemorySink {
    pub held: Vec<u8>,
    /// How many bytes it can still take. The memory for them is reserved.
    pub room: usize,
    /// The most bytes of one call, at least 1.
    pub piece: usize,
    /// How many calls were made.
    pub calls: u64,
    /// The numbers of the calls that are to fail.
    pub fails: Many<u64>,
    /// How many calls failed.
    pub faults: u64,
    pub ghost reserved: { vec_len held + room ≤ vec_capacity held },
    pub ghost some_piece: { 0 < piece },
}

/// An empty sink, whose room is reserved.
pub fn memory_sink(
    alloc: Global,
    room: usize,
    piece: usize,
    fails: Many<u64>,
) -> Result<MemorySink, Memory>
    requires { 0 < piece }
    ensures { IfOk result (λ sink. (sink.held.items ≡ []) × (sink.room ≡ room) × (sink.piece ≡ piece)
        × (sink.calls ≡ 0) × (sink.fails ≡ fails) × (sink.faults ≡ 0)) }
{
    let held = Vec::with_capacity(alloc, room)?;
    Ok(MemorySink {
        held,
        room,
        piece,
        calls: 0,
        fails,
        faults: 0,
    })
}

impl Sink for MemorySink {
    ghost use Rattle.desk_io.specs.Held.{write_answer, WroteTo};
    ghost use Rattle.std.specs.Prelude.{Some};

    ghost held = { λ s. Some s.held.items };

    ghost faults = { λ s. s.faults };

    /// Fails exactly where the call is to fail or no room is left. Else it takes as many bytes as the piece, the room and
    /// the bytes allow.
    fn write(&mut self, bytes: &[u8]) -> Put
        requires { 0 < length bytes.now }
        ensures bytes { Writes (Some self.old.held.items) bytes.now result (Some self.new.held.items) }
        ensures counts { self.new.faults ≡ failed_writes self.old.faults result }
        ensures counted { self.old.faults ≤ self.new.faults }
        ensures answer { result ≡ write_answer self.old (length bytes.now) }
        ensures after { WroteTo self.old self.new bytes.now result }
    {
        self.calls = self.calls.saturating_add(1);
        if self.room == 0 || self.fails.as_slice().contains(&self.calls) {
            self.faults = self.faults.saturating_add(1);
            return Put::Failed;
        }
        let n = self.piece.min(bytes.len()).min(self.room);
        self.append(&bytes[..n]);
        Put::Took(n)
    }
}

impl MemorySink {
    // Appends bytes for which there is room.
    fn append(&mut self, bytes: &[u8])
        requires { length bytes.now ≤ self.old.room }
        ensures held { self.new.held.items ≡ self.old.held.items ++ bytes.now }
        ensures room { self.new.room + length bytes.now ≡ self.old.room }
        ensures others { (self.new.piece ≡ self.old.piece) × (self.new.calls ≡ self.old.calls)
            × (self.new.fails ≡ self.old.fails) × (self.new.faults ≡ self.old.faults) }
    {
        self.room -= bytes.len();
        let Ok(()) = self.held.extend_from_slice(bytes) else {
            unreachable!()
        };
    }
}
