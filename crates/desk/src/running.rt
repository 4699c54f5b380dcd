// One run: words, read, text, week, histories, keeper, search, keeper, sink, in this order.
ghost use Rattle.std.specs.Prelude.{◌≡◌, ⊤, map, Some};
ghost use Rattle.std.specs.String.{string_bytes};
ghost use Rattle.duty_plan.specs.Trees.{IsLimits};
ghost use Rattle.desk_core.specs.Machine.{IsCommand};
ghost use Rattle.desk_words.specs.Asks.{asked_by};
ghost use Rattle.desk_words.specs.Asked.{IsAsked};
ghost use Rattle.desk.specs.Office.{device, shelf, office};
ghost use Rattle.desk.specs.Saying.{IsRefused, status_of};
ghost use Rattle.desk.specs.Running.{Tells, IsTold, PlaysOut, TellsUnread, Runs};
ghost use Rattle.desk.specs.Causes.{IsRun};

use crate::making::make;
use desk_core::{Command, KEEPER_FAULT, Refusal, Reply, refusal_line, step};
use desk_csv::TEXT_LIMIT;
use desk_io::{ReadError, Sink, SinkFault, Source, read_all, write_all};
use desk_keeper::Keeper;
use desk_words::{Ask, WordsError, read_words};
use duty_plan::{Gate, Limits, Straight};
use minute_line::Memory;
use planners::PoolPlanner;
use std::alloc::Global;
use std::thread::Threads;

/// The line for words that are no command.
const USAGE: &[u8] = b"usage: desk plan|check|publish|show|export|make|serve [--name value]\n";

/// The line for a source that failed.
const READ_FAULT: &[u8] = b"refused read\n";

/// The status of want of memory, with which nothing is written.
pub const WANT_OF_MEMORY: u8 = 8;

/// The status that goes with a text, once the sink took it; 6 where the sink failed.
pub fn tell<K: Sink>(sink: &mut K, text: &[u8], status: u8) -> u8
    ensures { Tells (record { status = status; text = text.now }) (device (K.held sink.old) (K.faults sink.old)) (device (K.held sink.new) (K.faults sink.new)) result }
{
    match write_all(sink, text) {
        Ok(()) => status,
        Err(SinkFault) => 6,
    }
}

/// The status of a refusal: 3 where the text is at fault, 4 where what is kept is.
fn status_of(refusal: &Refusal) -> u8
    ensures { result ≡ status_of refusal.now }
{
    match refusal {
        Refusal::Long
        | Refusal::Csv(_)
        | Refusal::Week(_)
        | Refusal::Past(_, _)
        | Refusal::Line(_, _) => 3,
        Refusal::Published(_, _)
        | Refusal::NoDraft(_)
        | Refusal::Stale(_, _)
        | Refusal::Moved(_)
        | Refusal::Kept(_)
        | Refusal::Later(_, _)
        | Refusal::NoHistory(_)
        | Refusal::DraftsFull(_) => 4,
    }
}

/// Tells a refusal by its line and its status.
pub(crate) fn tell_refusal<K: Sink>(alloc: Global, refusal: &Refusal, sink: &mut K) -> u8
    ensures { IsTold (IsRefused refusal.now) ⊤ (device (K.held sink.old) (K.faults sink.old)) (device (K.held sink.new) (K.faults sink.new)) result }
{
    match refusal_line(alloc, refusal) {
        Ok(line) => tell(sink, line.as_slice(), status_of(refusal)),
        Err(Memory) => WANT_OF_MEMORY,
    }
}

/// Tells why a source gave no text.
fn tell_unread<K: Sink>(alloc: Global, error: ReadError, sink: &mut K) -> u8
    ensures { TellsUnread error (device (K.held sink.old) (K.faults sink.old)) (device (K.held sink.new) (K.faults sink.new)) result }
{
    match error {
        ReadError::Fault => tell(sink, READ_FAULT, 5),
        ReadError::TooLong => tell_refusal(alloc, &Refusal::Long, sink),
        ReadError::Memory => WANT_OF_MEMORY,
    }
}

/// Plays a command over the keeper, and tells the reply.
fn play<R: Threads + Sync, K: Sink, B: Keeper>(
    rt: &R,
    gate: &(dyn Gate + Sync),
    alloc: Global,
    command: &Command,
    sink: &mut K,
    keeper: &mut B,
) -> u8
    requires { IsCommand command.now }
    ensures { PlaysOut command.now (shelf (B.tables keeper.old) (B.faults keeper.old)) (shelf (B.tables keeper.new) (B.faults keeper.new))
        (device (K.held sink.old) (K.faults sink.old)) (device (K.held sink.new) (K.faults sink.new)) result }
{
    match step(rt, gate, alloc, keeper, &mut PoolPlanner, command) {
        Reply::Done(text) => tell(sink, text.as_slice(), 0),
        Reply::Refused(refusal) => tell_refusal(alloc, &refusal, sink),
        Reply::KeeperFault => tell(sink, KEEPER_FAULT, 7),
        Reply::Memory => WANT_OF_MEMORY,
    }
}

/// Plans the week of the text on the source.
fn plan<R: Threads + Sync, S: Source, K: Sink, B: Keeper>(
    rt: &R,
    gate: &(dyn Gate + Sync),
    alloc: Global,
    limits: Limits,
    source: &mut S,
    sink: &mut K,
    keeper: &mut B,
) -> u8
    requires { IsLimits limits }
    ensures { Runs (Some (Ask.Plan limits)) (office (device (S.left source.old) (S.faults source.old)) (device (K.held sink.old) (K.faults sink.old)) (shelf (B.tables keeper.old) (B.faults keeper.old)))
        (office (device (S.left source.new) (S.faults source.new)) (device (K.held sink.new) (K.faults sink.new)) (shelf (B.tables keeper.new) (B.faults keeper.new))) result }
{
    match read_all(alloc, source, TEXT_LIMIT) {
        Ok(text) => play(rt, gate, alloc, &Command::Plan(text, limits), sink, keeper),
        Err(error) => tell_unread(alloc, error, sink),
    }
}

/// Judges what was driven by the text on the source. The keeper isn't asked.
fn check<R: Threads + Sync, S: Source, K: Sink, B: Keeper>(
    rt: &R,
    gate: &(dyn Gate + Sync),
    alloc: Global,
    source: &mut S,
    sink: &mut K,
    keeper: &mut B,
) -> u8
    ensures { Runs (Some Ask.Check) (office (device (S.left source.old) (S.faults source.old)) (device (K.held sink.old) (K.faults sink.old)) (shelf (B.tables keeper.old) (B.faults keeper.old)))
        (office (device (S.left source.new) (S.faults source.new)) (device (K.held sink.new) (K.faults sink.new)) (shelf (B.tables keeper.new) (B.faults keeper.new))) result }
{
    match read_all(alloc, source, TEXT_LIMIT) {
        Ok(text) => play(rt, gate, alloc, &Command::Check(text), sink, keeper),
        Err(error) => tell_unread(alloc, error, sink),
    }
}

/// Does what is asked for.
fn run_asked<R: Threads + Sync, S: Source, K: Sink, B: Keeper>(
    rt: &R,
    gate: &(dyn Gate + Sync),
    alloc: Global,
    ask: Ask,
    source: &mut S,
    sink: &mut K,
    keeper: &mut B,
) -> u8
    requires { IsAsked ask }
    ensures { Runs (Some ask) (office (device (S.left source.old) (S.faults source.old)) (device (K.held sink.old) (K.faults sink.old)) (shelf (B.tables keeper.old) (B.faults keeper.old)))
        (office (device (S.left source.new) (S.faults source.new)) (device (K.held sink.new) (K.faults sink.new)) (shelf (B.tables keeper.new) (B.faults keeper.new))) result }
{
    match ask {
        Ask::Plan(limits) => plan(rt, gate, alloc, limits, source, sink, keeper),
        Ask::Check => check(rt, gate, alloc, source, sink, keeper),
        Ask::Publish(monday, revision) => play(
            rt,
            gate,
            alloc,
            &Command::Publish(monday, revision),
            sink,
            keeper,
        ),
        Ask::Show(monday) => play(rt, gate, alloc, &Command::Show(monday), sink, keeper),
        Ask::Export(monday) => play(rt, gate, alloc, &Command::Export(monday), sink, keeper),
        Ask::Make(seed, limits) => make(rt, gate, alloc, seed, &limits, sink),
        Ask::Serve(_, _) => tell(sink, USAGE, 2),
    }
}

/// One run: words, then what they ask for.
fn run<R: Threads + Sync, S: Source, K: Sink, B: Keeper>(
    rt: &R,
    gate: &(dyn Gate + Sync),
    alloc: Global,
    words: &Vec<String>,
    source: &mut S,
    sink: &mut K,
    keeper: &mut B,
) -> u8
    ensures { Runs (asked_by (map string_bytes words.now.items)) (office (device (S.left source.old) (S.faults source.old)) (device (K.held sink.old) (K.faults sink.old)) (shelf (B.tables keeper.old) (B.faults keeper.old)))
        (office (device (S.left source.new) (S.faults source.new)) (device (K.held sink.new) (K.faults sink.new)) (shelf (B.tables keeper.new) (B.faults keeper.new))) result }
{
    match read_words(alloc, words) {
        Ok(ask) => run_asked(rt, gate, alloc, ask, source, sink, keeper),
        Err(WordsError::Usage) => tell(sink, USAGE, 2),
        Err(WordsError::Memory) => WANT_OF_MEMORY,
    }
}

/// One run of the desk: what it is asked by `words` is done, and its text is written to `sink`. A plan and a check read their text
/// from `source`; a plan, a publication, a report and an export ask `keeper`. The status is 0 where it was done; 2, with the usage
/// line, for words that are no command, or ask for a server; 3, with its line, where the text is refused; 4, with its line, where it
/// is refused for what is kept; 5, with `refused read`, where the source failed; 6 where the sink failed, which then took a beginning
/// of the text: what was kept before that stands; 7, with `refused keeper`, where the keeper failed; 8 for want of memory, with nothing
/// written or kept. In each round of prices each driver's worker passes the gate before it prices.
pub fn run_gated<R: Threads + Sync, S: Source, K: Sink, B: Keeper>(
    rt: &R,
    gate: &(dyn Gate + Sync),
    alloc: Global,
    words: &Vec<String>,
    source: &mut S,
    sink: &mut K,
    keeper: &mut B,
) -> u8
    ensures { IsRun (map string_bytes words.now.items) (office (device (S.left source.old) (S.faults source.old)) (device (K.held sink.old) (K.faults sink.old)) (shelf (B.tables keeper.old) (B.faults keeper.old)))
        (office (device (S.left source.new) (S.faults source.new)) (device (K.held sink.new) (K.faults sink.new)) (shelf (B.tables keeper.new) (B.faults keeper.new))) result }
{
    run(rt, gate, alloc, words, source, sink, keeper)
}

/// One run of the desk, as `run_gated` has it, with the gate that lets everybody through.
pub fn run_desk<R: Threads + Sync, S: Source, K: Sink, B: Keeper>(
    rt: &R,
    alloc: Global,
    words: &Vec<String>,
    source: &mut S,
    sink: &mut K,
    keeper: &mut B,
) -> u8
    ensures { IsRun (map string_bytes words.now.items) (office (device (S.left source.old) (S.faults source.old)) (device (K.held sink.old) (K.faults sink.old)) (shelf (B.tables keeper.old) (B.faults keeper.old)))
        (office (device (S.left source.new) (S.faults source.new)) (device (K.held sink.new) (K.faults sink.new)) (shelf (B.tables keeper.new) (B.faults keeper.new))) result }
{
    run_gated(rt, &Straight, alloc, words, source, sink, keeper)
}
