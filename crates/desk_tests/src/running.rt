// Runs over a text, a sink and a keeper in memory.
ghost use Rattle.std.specs.Prelude.{◌<◌};

use desk::{run_desk, run_gated};
use desk_io::{MemorySource, memory_sink};
use desk_keeper::MemoryKeeper;
use duty_plan::Gate;
use minute_line::{Many, Memory};
use std::alloc::Global;
use std::thread::Threads;

/// The most bytes that a sink takes here.
const ROOM: usize = 4096;

/// A week without drivers.
pub(crate) const WITHOUT_DRIVERS: &str =
    "week,2026-03-02,15,3000,15\nplace,HUB\nplace,LYON\norder,A,LYON,2026-03-02T08:00,2026-03-02T12:00,30,12000,9000\norder,B,LYON,2026-03-03T08:00,2026-03-03T12:00,30,12000,4500\n";

/// The plan of the week without drivers.
pub(crate) const PLANNED: &str =
    "week 2026-03-02\ncost 13500\nbound 13500\nstate proved\nnodes 1\norder A out 9000\norder B out 4500\ndraft 1\n";

/// A week of one driver, whose trip costs 8,000.
pub(crate) const ONE_DRIVER: &str =
    "week,2026-03-02,15,3000,15\nplace,HUB\nplace,P\nleg,HUB,P,60,3000\nleg,P,HUB,60,3000\ndriver,D1,24000,2000\nrest,D1,2026-02-28T00:00,2700\nworked,D1,0,0,0,0,0,0,0,0,0,0,0,0,0,0,0,0,0\npast,D1,OFF,2880\norder,A,P,2026-03-02T08:00,2026-03-02T12:00,30,12000,9000\n";

/// A keeper that keeps nothing yet, whose call of this number fails. No call has the number 0.
pub(crate) fn new_keeper(alloc: Global, fails: u64) -> Result<MemoryKeeper, Memory> {
    Ok(MemoryKeeper::new(alloc, Many::from_slice(alloc, &[fails])?))
}

fn owned(alloc: Global, words: &[&str]) -> Result<Vec<String>, Memory> {
    let mut given = Vec::new(alloc);
    for word in words {
        given.push(String::from_str(alloc, word)?)?;
    }
    Ok(given)
}

/// A source of a text, at most `piece` bytes in a call, whose call of this number fails.
fn source_of(alloc: Global, text: &[u8], piece: usize, fails: u64) -> Result<MemorySource, Memory>
    requires { 0 < piece }
{
    Ok(MemorySource {
        bytes: Many::from_slice(alloc, text)?,
        at: 0,
        piece,
        calls: 0,
        fails: Many::from_slice(alloc, &[fails])?,
        faults: 0,
    })
}

/// What a run ends with, and what its sink then holds. The workers pass the gate, the devices move at most `piece` bytes in a
/// call, and the source's and the sink's calls of these numbers fail.
pub(crate) fn run_at<R: Threads + Sync>(
    rt: &R,
    gate: &(dyn Gate + Sync),
    alloc: Global,
    keeper: &mut MemoryKeeper,
    words: &[&str],
    text: &[u8],
    piece: usize,
    fails: (u64, u64),
) -> Result<(u8, Vec<u8>), Memory>
    requires { 0 < piece }
{
    let given = owned(alloc, words)?;
    let mut source = source_of(alloc, text, piece, fails.0)?;
    let mut sink = memory_sink(alloc, ROOM, piece, Many::from_slice(alloc, &[fails.1])?)?;
    let status = run_gated(rt, gate, alloc, &given, &mut source, &mut sink, keeper);
    Ok((status, Vec::from_slice(alloc, sink.held.as_slice())?))
}

/// What a run ends with, and what its sink then holds, where no device fails.
fn ask<R: Threads + Sync>(
    rt: &R,
    alloc: Global,
    keeper: &mut MemoryKeeper,
    words: &[&str],
    text: &[u8],
) -> Result<(u8, Vec<u8>), Memory> {
    let given = owned(alloc, words)?;
    let mut source = source_of(alloc, text, ROOM, 0)?;
    let mut sink = memory_sink(alloc, ROOM, ROOM, Many::new(alloc))?;
    let status = run_desk(rt, alloc, &given, &mut source, &mut sink, keeper);
    Ok((status, Vec::from_slice(alloc, sink.held.as_slice())?))
}

/// Whether a run ends with this status, having written this.
pub(crate) fn says<R: Threads + Sync>(
    rt: &R,
    alloc: Global,
    keeper: &mut MemoryKeeper,
    words: &[&str],
    text: &str,
    status: u8,
    reply: &str,
) -> Result<bool, Memory> {
    let (ended, written) = ask(rt, alloc, keeper, words, text.as_bytes())?;
    Ok(ended == status && written.as_slice() == reply.as_bytes())
}

/// Whether a run is done, having written something that begins and ends so.
pub(crate) fn reports<R: Threads + Sync>(
    rt: &R,
    alloc: Global,
    keeper: &mut MemoryKeeper,
    text: &str,
    begins: &str,
    ends: &str,
) -> Result<bool, Memory> {
    let (ended, written) = ask(rt, alloc, keeper, &["plan"], text.as_bytes())?;
    let said = written.as_slice();
    Ok(ended == 0 && said.starts_with(begins.as_bytes()) && said.ends_with(ends.as_bytes()))
}
