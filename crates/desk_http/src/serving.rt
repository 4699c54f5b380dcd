// One request of a link, and its answer.
ghost use Rattle.std.specs.Prelude.{◌≡◌, ◌≤◌, ◌<◌, ◌++◌, ℕ, take, length, OnOk, OnErr};
ghost use Rattle.desk_io.specs.Device.{Takes};
ghost use Rattle.desk_io.specs.Whole.{failed_by_last};
ghost use Rattle.desk_http.specs.Answering.{faults_with};
ghost use Rattle.desk_http.specs.Serving.{Serves, TellsPlan, Tells, bytes_of, status_of, reads_failed, writes_failed, outcome_said, no_memory, CountsFault};

use crate::answering::answer;
use crate::answers::Answer;
use crate::waiting::{ReadStop, read_request};
use desk_io::{Link, Sink, SinkFault, Source, write_all};
use desk_keeper::Keeper;
use duty_plan::{Gate, Planner};
use minute_line::Memory;
use std::alloc::Global;
use std::thread::Threads;

/// What came of a connection.
#[derive(Clone, Copy, PartialEq, Eq, Debug)]
pub enum Served {
    /// The answer of that status was written.
    Status(u16),
    /// A read failed, and nothing was written.
    ReadFault,
    /// A write failed, and a beginning of the answer was written.
    WriteFault,
}

/// The answer for want of memory.
const NO_MEMORY: &[u8] =
    b"HTTP/1.1 507 No Memory\r\ncontent-type: text/plain\r\ncontent-length: 7\r\nconnection: close\r\n\r\nmemory\n";

/// Writes an answer. It takes no memory.
fn write_answer<K: Sink>(sink: &mut K, answer: &Answer) -> Result<(), SinkFault>
    ensures ok { OnOk result (Takes (K.held sink.old) (answer.now.head ++ answer.now.body) (K.held sink.new)) }
    ensures err { OnErr result ((n : ℕ) × (n < length (answer.now.head ++ answer.now.body))
        × Takes (K.held sink.old) (take n (answer.now.head ++ answer.now.body)) (K.held sink.new)) }
    ensures counts { K.faults sink.new ≡ failed_by_last (K.faults sink.old) result }
    ensures counted { K.faults sink.old ≤ K.faults sink.new }
{
    write_all(sink, answer.head.as_slice())?;
    write_all(sink, answer.body.as_slice())
}

/// What is served, once the answer was written.
fn outcome_of(written: Result<(), SinkFault>, status: u16) -> Served
    ensures { result ≡ outcome_said written status }
{
    match written {
        Ok(()) => Served::Status(status),
        Err(SinkFault) => Served::WriteFault,
    }
}

/// Writes the answer to a request, or that for want of memory.
fn write_outcome<K: Sink>(sink: &mut K, outcome: &Result<Answer, Memory>) -> Served
    ensures told { Tells (bytes_of outcome.now) (status_of outcome.now) result (K.held sink.old) (K.held sink.new) }
    ensures counts { K.faults sink.new ≡ writes_failed (K.faults sink.old) result }
    ensures counted { K.faults sink.old ≤ K.faults sink.new }
{
    match outcome {
        Ok(answer) => outcome_of(write_answer(sink, answer), answer.status),
        Err(Memory) => outcome_of(write_all(sink, NO_MEMORY), 507),
    }
}

/// Serves one connection: reads one request, and writes its answer. Where a read fails nothing is written, and nothing changes.
pub fn serve_link<R: Threads + Sync, S: Source, K: Sink, B: Keeper, P: Planner>(
    rt: &R,
    gate: &(dyn Gate + Sync),
    alloc: Global,
    link: &mut Link<S, K>,
    keeper: &mut B,
    planner: &mut P,
) -> Served
    ensures served { Serves (S.left link.old.source) (B.tables keeper.old) (B.tables keeper.new)
        (K.held link.old.sink) (K.held link.new.sink) result }
    ensures planned { TellsPlan (S.left link.old.source) (K.held link.old.sink) (K.held link.new.sink) result }
    ensures reads { S.faults link.new.source ≡ reads_failed (S.faults link.old.source) result }
    ensures writes { K.faults link.new.sink ≡ writes_failed (K.faults link.old.sink) result }
    ensures keeper { CountsFault (B.faults keeper.old) result (B.faults keeper.new) }
    ensures counted { B.faults keeper.old ≤ B.faults keeper.new }
{
    match read_request(alloc, &mut link.source) {
        Ok(request) => {
            let outcome = answer(rt, gate, alloc, &request, keeper, planner);
            write_outcome(&mut link.sink, &outcome)
        }
        Err(ReadStop::Fault) => Served::ReadFault,
        Err(ReadStop::Memory) => write_outcome(&mut link.sink, &Err(Memory)),
    }
}
