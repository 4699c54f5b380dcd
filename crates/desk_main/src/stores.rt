// The store in the current folder.
use desk::{WANT_OF_MEMORY, tell};
use desk_core::KEEPER_FAULT;
use desk_io::Sink;
use keeper_sqlite::{OpenError, SqliteKeeper, open_store};
use minute_line::Memory;
use sqlite::{Connection, File, FileStore};
use std::alloc::Global;

/// The store's file.
const STORE: &str = "desk.sqlite";

/// The status of a store that failed.
const STORE_FAULT: u8 = 7;

/// The keeper over the store in the current folder, which is made where it is missing.
pub(crate) fn open_file(rt: &HostRuntime) -> Result<SqliteKeeper<FileStore<File>>, OpenError> {
    let connection = Connection::open(rt, STORE)?;
    open_store(rt.alloc(), connection)
}

/// Closes the store, so that all that is kept is in its one file. Where that fails, it is in that file and the log beside it, which the
/// next opening reads.
pub(crate) fn close_file(keeper: SqliteKeeper<FileStore<File>>) {
    let _ = keeper.into_connection().close();
}

/// The line of a store of another version.
fn version_line(alloc: Global, version: i64) -> Result<String, Memory> {
    Ok(format!(in alloc; "refused store version {version}\n")?)
}

/// Tells why the store is not opened. Its status is 7, and for want of memory 8, with nothing told.
pub(crate) fn tell_unopened<K: Sink>(alloc: Global, error: OpenError, sink: &mut K) -> u8 {
    match error {
        OpenError::Fault => tell(sink, KEEPER_FAULT, STORE_FAULT),
        OpenError::Text => tell(sink, b"refused store text\n", STORE_FAULT),
        OpenError::Version(version) => match version_line(alloc, version) {
            Ok(line) => tell(sink, line.as_bytes(), STORE_FAULT),
            Err(Memory) => WANT_OF_MEMORY,
        },
        OpenError::Memory => WANT_OF_MEMORY,
    }
}
