// Runs over a text, a sink in memory and a store.
use crate::stores::Store;
use desk::run_desk;
use desk_io::{MemorySource, memory_sink};
use minute_line::{Many, Memory};
use std::alloc::Global;
use std::thread::Threads;

/// The most bytes that a sink takes here.
const ROOM: usize = 4096;

fn owned(alloc: Global, words: &str) -> Result<Vec<String>, Memory> {
    let mut given = Vec::new(alloc);
    for word in words.split(' ') {
        given.push(String::from_str(alloc, word)?)?;
    }
    Ok(given)
}

fn source_of(alloc: Global, text: &str) -> Result<MemorySource, Memory> {
    Ok(MemorySource {
        bytes: Many::from_slice(alloc, text.as_bytes())?,
        at: 0,
        piece: ROOM,
        calls: 0,
        fails: Many::new(alloc),
        faults: 0,
    })
}

/// Whether what was written is this reply, in which two dots stand for what lies between.
fn is_reply(written: &str, reply: &str) -> bool {
    match reply.split_once("..") {
        Some((begins, ends)) => written.starts_with(begins) && written.ends_with(ends),
        None => written == reply,
    }
}

/// Whether a run of these words, parted by spaces, ends with this status, having written this reply.
pub(crate) fn says<R: Threads + Sync>(
    rt: &R,
    alloc: Global,
    keeper: &mut Store,
    words: &str,
    text: &str,
    status: u8,
    reply: &str,
) -> Result<bool, Memory> {
    let given = owned(alloc, words)?;
    let mut source = source_of(alloc, text)?;
    let mut sink = memory_sink(alloc, ROOM, ROOM, Many::new(alloc))?;
    let ended = run_desk(rt, alloc, &given, &mut source, &mut sink, keeper);
    match str::from_utf8(sink.held.as_slice()) {
        Ok(written) => Ok(ended == status && is_reply(written, reply)),
        Err(_) => Ok(false),
    }
}
