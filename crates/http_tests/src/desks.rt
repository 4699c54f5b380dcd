// A desk over a keeper in memory, which is asked over links in memory.
ghost use Rattle.std.specs.Prelude.{◌<◌};

use desk_http::{Served, serve_link};
use desk_io::{Link, MemorySink, MemorySource, memory_sink};
use desk_keeper::MemoryKeeper;
use duty_plan::Straight;
use minute_line::{Many, Memory};
use planners::TurnPlanner;
use std::alloc::Global;
use std::thread::Threads;

/// The most bytes that a test's sink takes.
const ROOM: usize = 4096;

/// How a link moves its bytes: the most of one call, and the numbers of the read and of the write that fail. Call 0 is none.
#[derive(Clone, Copy)]
pub(crate) struct Ways {
    pub(crate) piece: usize,
    pub(crate) failing_read: u64,
    pub(crate) failing_write: u64,
}

/// What came of a connection, and the bytes that were written.
#[derive(Drop)]
pub(crate) struct Told {
    pub(crate) served: Served,
    pub(crate) written: Vec<u8>,
}

/// A link over a request.
fn link(alloc: Global, request: &[u8], ways: Ways) -> Result<Link<MemorySource, MemorySink>, Memory>
    requires { 0 < ways.piece }
{
    let source = MemorySource {
        bytes: Many::from_slice(alloc, request)?,
        at: 0,
        piece: ways.piece,
        calls: 0,
        fails: Many::from_slice(alloc, &[ways.failing_read])?,
        faults: 0,
    };
    let fails = Many::from_slice(alloc, &[ways.failing_write])?;
    let sink = memory_sink(alloc, ROOM, ways.piece, fails)?;
    Ok(Link { source, sink })
}

/// Serves one connection.
pub(crate) fn serve<R: Threads + Sync>(
    rt: &R,
    alloc: Global,
    keeper: &mut MemoryKeeper,
    request: &[u8],
    ways: Ways,
) -> Result<Told, Memory>
    requires { 0 < ways.piece }
{
    let mut link = link(alloc, request, ways)?;
    let served = serve_link(rt, &Straight, alloc, &mut link, keeper, &mut TurnPlanner);
    let written = Vec::from_slice(alloc, link.sink.held.as_slice())?;
    Ok(Told { served, written })
}
