// A desk over a keeper in memory, which is asked over a socket of this machine. One thread has both ends: what the one writes waits in
// the system until the other reads it.

use crate::desks::Told;
use desk_http::{Served, serve_link};
use desk_io::{Link, StdSink, StdSource};
use desk_keeper::MemoryKeeper;
use duty_plan::Straight;
use planners::TurnPlanner;
use std::alloc::Global;
use std::io;
use std::io::{Read, Write};
use std::net::{Ipv4Addr, Net, SocketAddr, TcpListener, TcpStream};
use std::thread::Threads;
use std::time::Duration;

/// How many seconds an end waits for bytes. A test in which they never come ends with a failure.
const PATIENCE: u64 = 10;

/// Serves the connection that waits at a listener, and closes it.
fn serve_waiting<R: Threads + Sync>(
    rt: &R,
    alloc: Global,
    listener: &TcpListener,
    keeper: &mut MemoryKeeper,
) -> io::Result<Served> {
    let (stream, _) = listener.accept()?;
    stream.set_read_timeout(Some(Duration::from_secs(PATIENCE)))?;
    let mut link = Link {
        source: StdSource {
            inner: &stream,
            faults: 0,
        },
        sink: StdSink {
            inner: &stream,
            faults: 0,
        },
    };
    Ok(serve_link(rt, &Straight, alloc, &mut link, keeper, &mut TurnPlanner))
}

/// Serves one connection over a socket. What was written is what the client reads to the end of its stream.
pub(crate) fn serve_over_socket<R>(
    rt: &R,
    alloc: Global,
    keeper: &mut MemoryKeeper,
    request: &[u8],
) -> io::Result<Told>
where
    R: Threads + Net<Listener = TcpListener, Stream = TcpStream> + Sync,
{
    let listener = TcpListener::bind(rt, SocketAddr::from((Ipv4Addr::LOCALHOST, 0)))?;
    let mut client = TcpStream::connect(rt, listener.local_addr()?)?;
    client.set_read_timeout(Some(Duration::from_secs(PATIENCE)))?;
    client.write_all(request)?;
    let served = serve_waiting(rt, alloc, &listener, keeper)?;
    let mut written = Vec::new(alloc);
    client.read_to_end(&mut written)?;
    Ok(Told { served, written })
}
