// One request of a source: so many of its bytes as tell what it asks for.
ghost use Rattle.std.specs.Prelude.{◌≡◌, ◌≤◌, ◌<◌, ◌+◌, ◌++◌, ◌⊎◌, ℕ, List, length, IfOk, IfSome, IsTrue, IsFalse};
ghost use Rattle.desk_io.specs.Device.{GivesBytes, NothingLeft};
ghost use Rattle.desk_http.specs.declared.waiting.ReadStop.TheVariants.{Memory as WantOfMemory};
ghost use Rattle.desk_http.specs.Heads.{IsHeadSettled};
ghost use Rattle.desk_http.specs.Serving.{IsEnough, StandsFor, MayEnd, failed_reading};

use crate::early::Halt;
use crate::heads::{HEAD_LIMIT, HEADER_LIMIT, HEADER_ROOM, may_become_head, read_head};
use crate::requests::opening_of;
use desk_io::{Got, Source};
use httparse::EMPTY_HEADER;
use httparse::spans::EMPTY_HEADER_SPAN;
use minute_line::{Bytes, Many, Memory};
use std::alloc::Global;

/// Why no request was read.
#[derive(Clone, Copy, PartialEq, Eq, Debug)]
pub(crate) enum ReadStop {
    /// A read failed.
    Fault,
    Memory,
}

impl From<Memory> for ReadStop {
    ghost from_gives = { λ _ e. e ≡ WantOfMemory };

    fn from(_error: Memory) -> ReadStop {
        ReadStop::Memory
    }
}

/// The most bytes of one read.
const PIECE: usize = 8192;

/// Reads once, at most so many bytes. Whether the source came to its end.
fn read_more<S: Source>(source: &mut S, bytes: &mut Bytes, most: usize) -> Result<bool, ReadStop>
    requires { 0 < most }
    ensures given { IfOk result (λ end. (given : List ℕ) × GivesBytes (S.left source.old) given (S.left source.new)
        × (bytes.new ≡ bytes.old ++ given) × MayEnd end given (S.left source.new)) }
    ensures most { IfOk result (λ _. length bytes.new ≤ length bytes.old + most) }
    ensures counts { S.faults source.new ≡ failed_reading (S.faults source.old) result }
    ensures counted { S.faults source.old ≤ S.faults source.new }
{
    let mut piece = [0u8; PIECE];
    let room = most.min(PIECE);
    match source.read(&mut piece[..room]) {
        Got::Bytes(n) => {
            bytes.extend_from_slice(&piece[..n])?;
            Ok(false)
        }
        Got::End => Ok(true),
        Got::Failed => Err(ReadStop::Fault),
    }
}

/// Whether bytes that come may still bring a head.
fn is_headless(bytes: &[u8]) -> bool
    ensures room { IsTrue result → length bytes.now < 8192 }
    ensures settled { IsFalse result → IsHeadSettled bytes.now }
{
    let mut spans = [EMPTY_HEADER_SPAN; HEADER_LIMIT];
    may_become_head(bytes, &mut spans)
}

/// Reads until the head is there, or can't come.
fn read_to_head<S: Source>(alloc: Global, source: &mut S) -> Result<Bytes, ReadStop>
    ensures given { IfOk result (λ bytes. GivesBytes (S.left source.old) bytes (S.left source.new)) }
    ensures settled { IfOk result (λ bytes. IsHeadSettled bytes ⊎ NothingLeft (S.left source.new)) }
    ensures counts { S.faults source.new ≡ failed_reading (S.faults source.old) result }
    ensures counted { S.faults source.old ≤ S.faults source.new }
{
    let mut bytes = Many::new(alloc);
    'head: while is_headless(bytes.as_slice()) {
        let most = HEAD_LIMIT - bytes.len();
        if read_more(source, &mut bytes, most)? {
            return Ok(bytes);
        }
    }
    Ok(bytes)
}

/// How many bytes of a request tell what it asks for, once its head is there.
fn wanted(alloc: Global, bytes: &[u8]) -> Result<usize, Memory>
    ensures { IsHeadSettled bytes.now → IfOk result (IsEnough bytes.now) }
{
    let mut room = [EMPTY_HEADER; HEADER_ROOM];
    let Some(head) = read_head(bytes, &mut room) else {
        return Ok(0);
    };
    match opening_of(alloc, &head) {
        Ok(opening) => Ok(bytes.len() - head.rest.len() + opening.length),
        Err(Halt::Early(_)) => Ok(0),
        Err(Halt::Memory) => Err(Memory),
    }
}

/// Reads until so many bytes are there, or the source ends.
fn read_to<S: Source>(source: &mut S, bytes: &mut Bytes, wanted: usize) -> Result<(), ReadStop>
    ensures given { IfOk result (λ _. (given : List ℕ) × GivesBytes (S.left source.old) given (S.left source.new)
        × (bytes.new ≡ bytes.old ++ given)) }
    ensures enough { IfOk result (λ _. (wanted ≤ length bytes.new) ⊎ NothingLeft (S.left source.new)) }
    ensures counts { S.faults source.new ≡ failed_reading (S.faults source.old) result }
    ensures counted { S.faults source.old ≤ S.faults source.new }
{
    'body: while bytes.len() < wanted {
        let most = wanted - bytes.len();
        if read_more(source, bytes, most)? {
            return Ok(());
        }
    }
    Ok(())
}

/// Reads one request: its head, and its body by the length that the head says. A request that is answered by its head alone
/// is read no further.
pub(crate) fn read_request<S: Source>(alloc: Global, source: &mut S) -> Result<Bytes, ReadStop>
    ensures request { IfOk result (StandsFor (S.left source.old)) }
    ensures counts { S.faults source.new ≡ failed_reading (S.faults source.old) result }
    ensures counted { S.faults source.old ≤ S.faults source.new }
{
    let mut bytes = read_to_head(alloc, source)?;
    let wanted = wanted(alloc, bytes.as_slice())?;
    read_to(source, &mut bytes, wanted)?;
    Ok(bytes)
}
