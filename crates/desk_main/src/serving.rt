// The desk over HTTP: so many connections to this machine, one after another.
use crate::stores::{close_file, open_file, tell_unopened};
use desk::{WANT_OF_MEMORY, tell};
use desk_http::serve_link;
use desk_io::{Got, Link, Sink, Source, StdSink, StdSource};
use desk_keeper::Keeper;
use duty_plan::Straight;
use minute_line::Memory;
use planners::PoolPlanner;
use std::alloc::Global;
use std::io;
use std::net::{Net, OpenListener, OpenStream, Shutdown, TcpListener, TcpStream};
use std::thread::Threads;
use std::time::Duration;

/// The status where nothing can be listened to or accepted.
const LISTEN_FAULT: u8 = 9;

/// How many seconds a client may let the desk wait for its next bytes, or for taking the answer's.
const PATIENCE: u64 = 10;

/// How many seconds an answered client may let the desk wait for what it still sends, or for its end.
const LAST_PATIENCE: u64 = 1;

/// The most reads of what an answered client still sends, and the most bytes of one: a body over the limit fits in.
const LAST_READS: usize = 256;

const LAST_PIECE: usize = 8192;

/// Takes what an answered client still sends, to its end. A connection that is closed over unread bytes is reset, and the answer may
/// be lost.
fn take_leave(stream: &TcpStream) -> io::Result<()> {
    stream.shutdown(Shutdown::Write)?;
    stream.set_read_timeout(Some(Duration::from_secs(LAST_PATIENCE)))?;
    let mut source = StdSource {
        inner: stream,
        faults: 0,
    };
    let mut piece = [0u8; LAST_PIECE];
    for _ in 0..LAST_READS {
        match source.read(&mut piece) {
            Got::Bytes(_) => {}
            Got::End | Got::Failed => break,
        }
    }
    Ok(())
}

/// Answers the request of one connection. A client that keeps the desk waiting is let go.
fn serve_stream<R: Threads + Sync, B: Keeper>(
    threads: &R,
    alloc: Global,
    stream: &TcpStream,
    keeper: &mut B,
) -> io::Result<()> {
    stream.set_read_timeout(Some(Duration::from_secs(PATIENCE)))?;
    stream.set_write_timeout(Some(Duration::from_secs(PATIENCE)))?;
    let mut link = Link {
        source: StdSource {
            inner: stream,
            faults: 0,
        },
        sink: StdSink {
            inner: stream,
            faults: 0,
        },
    };
    let _ = serve_link(
        threads,
        &Straight,
        alloc,
        &mut link,
        keeper,
        &mut PoolPlanner,
    );
    take_leave(stream)
}

/// Answers so many connections, one after another. What becomes of one does not keep the next from being answered.
fn serve_all<R: Threads + Sync, B: Keeper>(
    threads: &R,
    alloc: Global,
    listener: &TcpListener,
    count: u32,
    keeper: &mut B,
) -> io::Result<()> {
    for _ in 0..count {
        let (stream, _) = listener.accept()?;
        let _ = serve_stream(threads, alloc, &stream, keeper);
    }
    Ok(())
}

/// The port of this machine alone.
fn address_of(alloc: Global, port: u32) -> Result<String, Memory> {
    Ok(format!(in alloc; "127.0.0.1:{port}")?)
}

/// Listens at an address, and answers so many connections.
fn listen<R, B: Keeper>(
    handles: &R,
    alloc: Global,
    address: &str,
    count: u32,
    keeper: &mut B,
) -> io::Result<()>
where
    R: Threads + Net<Listener = TcpListener, Stream = TcpStream> + Sync,
{
    let listener = TcpListener::bind(handles, address)?;
    serve_all(handles, alloc, &listener, count, keeper)
}

/// Answers so many connections to a port of this machine, over the store in the current folder. The status is 0 once they are
/// answered, 9 where none can be listened to or accepted, 7 where the store is not opened, 8 for want of memory.
pub(crate) fn serve<R, K: Sink>(
    handles: &R,
    rt: &HostRuntime,
    port: u32,
    count: u32,
    sink: &mut K,
) -> u8
where
    R: Threads + Net<Listener = TcpListener, Stream = TcpStream> + Sync,
{
    let Ok(address) = address_of(rt.alloc(), port) else {
        return WANT_OF_MEMORY;
    };
    let mut keeper = match open_file(rt) {
        Ok(keeper) => keeper,
        Err(error) => return tell_unopened(rt.alloc(), error, sink),
    };
    let listened = listen(handles, rt.alloc(), address.as_str(), count, &mut keeper);
    close_file(keeper);
    match listened {
        Ok(()) => 0,
        Err(_) => tell(sink, b"refused listen\n", LISTEN_FAULT),
    }
}
