// A source read to its end, and bytes written to the last.
ghost use Rattle.std.specs.Prelude.{◌≡◌, ℕ, ◌<◌, ◌≤◌, List, take, length, OnOk, OnErr};
ghost use Rattle.desk_io.specs.Device.{GivesBytes, Takes, NothingLeft};
ghost use Rattle.desk_io.specs.Whole.{ReadsUpTo, failed_by_end, failed_by_last};
ghost use Rattle.desk_io.specs.declared.whole.ReadError.TheVariants.{Memory as WantOfMemory};

use crate::device::{Got, Put, Sink, Source};
use minute_line::{Bytes, Many, Memory};
use std::alloc::Global;

/// Why a whole read gave nothing.
#[derive(Clone, Copy, Debug, PartialEq, Eq)]
pub enum ReadError {
    /// A read failed. The bytes that were given before are gone.
    Fault,
    /// More bytes were given than the limit.
    TooLong,
    /// Want of memory. The bytes that were given are gone.
    Memory,
}

impl From<Memory> for ReadError {
    ghost from_gives = { λ _ e. e ≡ WantOfMemory };

    fn from(_error: Memory) -> ReadError {
        ReadError::Memory
    }
}

/// A sink failed before all bytes were appended.
#[derive(Clone, Copy, Debug, PartialEq, Eq)]
pub struct SinkFault;

/// The most bytes of one read: the room of a pipe.
pub const READ_PIECE: usize = 65_536;

/// All bytes that the source has left, where they are at most `limit`. It reads no further once more were given.
pub fn read_all<S: Source>(alloc: Global, source: &mut S, limit: usize) -> Result<Bytes, ReadError>
    ensures given { (given : List ℕ) × GivesBytes (S.left source.old) given (S.left source.new)
        × ReadsUpTo limit given result }
    ensures end { OnOk result (NothingLeft (S.left source.new)) }
    ensures counts { S.faults source.new ≡ failed_by_end (S.faults source.old) result }
    ensures counted { S.faults source.old ≤ S.faults source.new }
{
    let mut bytes = Many::new(alloc);
    let mut piece = [0u8; READ_PIECE];
    loop {
        match source.read(&mut piece) {
            Got::End => return Ok(bytes),
            Got::Failed => return Err(ReadError::Fault),
            Got::Bytes(n) => {
                if n > limit - bytes.len() {
                    return Err(ReadError::TooLong);
                }
                bytes.extend_from_slice(&piece[..n])?;
            }
        }
    }
}

/// Appends all bytes. Where the sink fails, a beginning of them was appended. It takes no memory.
pub fn write_all<K: Sink>(sink: &mut K, bytes: &[u8]) -> Result<(), SinkFault>
    ensures ok { OnOk result (Takes (K.held sink.old) bytes.now (K.held sink.new)) }
    ensures err { OnErr result ((n : ℕ) × (n < length bytes.now)
        × Takes (K.held sink.old) (take n bytes.now) (K.held sink.new)) }
    ensures counts { K.faults sink.new ≡ failed_by_last (K.faults sink.old) result }
    ensures counted { K.faults sink.old ≤ K.faults sink.new }
{
    let mut at = 0;
    while at < bytes.len() {
        match sink.write(&bytes[at..]) {
            Put::Took(n) => at += n,
            Put::Failed => return Err(SinkFault),
        }
    }
    Ok(())
}
