// Stores in memory.
use keeper_sqlite::{OpenError, SqliteKeeper, open_store};
use sqlite::{Connection, MemStore};
use std::alloc::Global;

/// The tables of a store from before debts were kept.
pub(crate) const OLDER: &str = "
CREATE TABLE histories (driver TEXT PRIMARY KEY, monday INTEGER NOT NULL, past TEXT NOT NULL) STRICT;
CREATE TABLE drafts (monday INTEGER PRIMARY KEY, revision INTEGER NOT NULL, report BLOB NOT NULL, export BLOB NOT NULL) STRICT;
CREATE TABLE draft_drivers (monday INTEGER NOT NULL REFERENCES drafts(monday) ON DELETE CASCADE,
  place INTEGER NOT NULL, driver TEXT NOT NULL, seen_monday INTEGER, seen_past TEXT,
  next_past TEXT NOT NULL, PRIMARY KEY (monday, place)) STRICT;
CREATE TABLE issues (receipt INTEGER PRIMARY KEY, monday INTEGER NOT NULL UNIQUE,
  revision INTEGER NOT NULL, report BLOB NOT NULL, export BLOB NOT NULL) STRICT;";

/// The table that tells the version of the texts, of today.
pub(crate) const TODAY: &str =
    "CREATE TABLE format (version INTEGER NOT NULL) STRICT; INSERT INTO format VALUES (2);";

/// A keeper over a store in memory.
pub(crate) type Store = SqliteKeeper<MemStore>;

/// A store that these texts made, opened.
pub(crate) fn opened(alloc: Global, texts: &[&str]) -> Result<Store, OpenError> {
    let Ok(mut connection) = Connection::open_in_memory(alloc) else {
        return Err(OpenError::Memory);
    };
    for text in texts {
        connection.execute_batch(text)?;
    }
    open_store(alloc, connection)
}
