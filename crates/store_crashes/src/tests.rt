// Each run writes and publishes a draft over disks in memory, of which one stops at a call. The machine then comes back, and
// the files are opened again.
use desk_keeper::{DRAFT_LIMIT, Draft, Keeper, KeeperError};
use keeper_sqlite::{SqliteKeeper, open_store};
use minute_line::{Many, Monday, read_monday};
use sqlite::{Connection, FileStore, Files, Options};
use sqlite_disk::{Crash, Fuse, Memory};
use std::alloc::Global;
use std::test::Fail;

type Fused = Fuse<Memory>;

type Store = SqliteKeeper<FileStore<Fused>>;

// A store of today with the first draft of the week of 2026-03-02, whose driver is to owe 1,200 minutes after it.
const ROWS: &str = "
CREATE TABLE format (version INTEGER NOT NULL) STRICT;
CREATE TABLE drafts (monday INTEGER PRIMARY KEY, revision INTEGER NOT NULL, report BLOB NOT NULL, export BLOB NOT NULL) STRICT;
CREATE TABLE draft_drivers (monday INTEGER NOT NULL REFERENCES drafts(monday) ON DELETE CASCADE,
  place INTEGER NOT NULL, driver TEXT NOT NULL, seen_monday INTEGER, seen_past TEXT,
  next_past TEXT NOT NULL, PRIMARY KEY (monday, place)) STRICT;
INSERT INTO format VALUES (2);
INSERT INTO drafts VALUES (20514, 1, x'01', x'02');
INSERT INTO draft_drivers VALUES (20514, 0, 'D1', NULL, NULL, '1500 0 0,0,0,0,0,0,0,0,0,0,0,0,0,0,0,0 0 - 1200 3');";

// The files after a crash, opened again.
fn reopened(alloc: Global, files: Files<Fused>) -> Option<Store> {
    let Files { mut log, mut db } = files;
    log.crash();
    db.crash();
    match Connection::open_files(alloc, Files { log, db }, Options::new(1)) {
        Ok(connection) => open_store(alloc, connection).ok(),
        Err(_) => None,
    }
}

// A store with those rows, over disks that stop after so many calls, if they do not stop before.
fn begun(alloc: Global, log_calls: u64, db_calls: u64) -> Option<Store> {
    let log = Fuse::new(Memory::new(alloc), log_calls);
    let db = Fuse::new(Memory::new(alloc), db_calls);
    let Ok(mut connection) = Connection::open_files(alloc, Files { log, db }, Options::new(1))
    else {
        return None;
    };
    match connection.execute_batch(ROWS) {
        Ok(()) => open_store(alloc, connection).ok(),
        Err(_) => None,
    }
}

// The next revision of the draft, put in its place.
fn put_again(keeper: &mut Store, alloc: Global, monday: Monday) -> Result<(), KeeperError> {
    let Some(draft) = keeper.draft(alloc, monday)? else {
        return Ok(());
    };
    if draft.revision >= DRAFT_LIMIT {
        return Ok(());
    }
    let next = Draft {
        monday: draft.monday,
        revision: draft.revision + 1,
        drivers: draft.drivers,
        report: draft.report,
        export: draft.export,
    };
    keeper.put_draft(alloc, &next)
}

fn publish(keeper: &mut Store, alloc: Global, monday: Monday) -> Result<u64, KeeperError> {
    match keeper.draft(alloc, monday)? {
        Some(draft) => keeper.publish(alloc, &draft),
        None => Ok(0),
    }
}

// The draft's revision, the receipt, and what the driver owes; 0 for what there is not.
fn told(keeper: &mut Store, alloc: Global, monday: Monday) -> Result<(u64, u64, u32), KeeperError> {
    let revision = match keeper.draft(alloc, monday)? {
        Some(draft) => draft.revision,
        None => 0,
    };
    let receipt = match keeper.published(alloc, monday)? {
        Some(issue) => issue.receipt,
        None => 0,
    };
    let owed = match keeper.history(alloc, &Many::from_slice(alloc, b"D1")?)? {
        Some(kept) => kept.past.owed,
        None => 0,
    };
    Ok((revision, receipt, owed))
}

// How many of the two writes were done: 1 for the put alone.
fn written(keeper: &mut Store, alloc: Global, monday: Monday) -> u64 {
    if put_again(keeper, alloc, monday).is_err() {
        return 0;
    }
    match publish(keeper, alloc, monday) {
        Ok(_) => 2,
        Err(_) => 1,
    }
}

// One run: how many writes were done, and what the store tells after a crash. None where the disk stopped before them.
fn run(
    alloc: Global,
    monday: Monday,
    log_calls: u64,
    db_calls: u64,
) -> Option<(u64, Option<(u64, u64, u32)>)> {
    let mut keeper = begun(alloc, log_calls, db_calls)?;
    let done = written(&mut keeper, alloc, monday);
    let files = keeper.into_connection().into_store().close();
    match reopened(alloc, files) {
        Some(mut again) => Some((done, told(&mut again, alloc, monday).ok())),
        None => Some((done, None)),
    }
}

// Whether the tables are those before the next write, or all those after it.
fn is_whole(done: u64, tables: Option<(u64, u64, u32)>) -> bool {
    let first = tables == Some((1, 0, 0));
    let put = tables == Some((2, 0, 0));
    let published = tables == Some((0, 1, 1200));
    match done {
        0 => first || put,
        1 => put || published,
        _ => published,
    }
}

// The log's disk stops at each call in turn, then the database's, until a run does both writes.
#[test]
fn a_write_is_done_as_a_whole_or_not_at_all(rt: HostRuntime) -> Result<(), Fail> {
    let alloc = rt.alloc();
    let monday = read_monday("2026-03-02").ok_or("a Monday")?;
    for of_log in [true, false] {
        let mut most = 0;
        for calls in 0..1_000u64 {
            let (log, db) = if of_log {
                (calls, u64::MAX)
            } else {
                (u64::MAX, calls)
            };
            if let Some((done, tables)) = run(alloc, monday, log, db) {
                assert!(rt; is_whole(done, tables), "{of_log} {calls}");
                most = done;
            }
            if most == 2 {
                break;
            }
        }
        assert_eq!(rt; most, 2, "{of_log}");
    }
    Ok(())
}
