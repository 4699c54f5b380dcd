// The tables of a store, and the version of its texts.
ghost use Rattle.std.specs.Prelude.{◌≡◌, IfOk};
ghost use Rattle.sqlite.specs.State.{HasCleanDisk};
ghost use Rattle.sqlite.specs.Held.{state};
ghost use Rattle.keeper_sqlite.specs.Commits.{CommitsNothing};

use crate::causes::Cause;
use crate::statements::{read, write};
use sqlite::types::ValueRef;
use sqlite::{Alter, Transaction};
use store_texts::table_query;

/// The version of the stored texts: the histories' texts tell what is owed.
pub(crate) const VERSION: i64 = 2;

const HISTORIES: &str =
    "CREATE TABLE histories (driver TEXT PRIMARY KEY, monday INTEGER NOT NULL, past TEXT NOT NULL) STRICT";

const DRAFTS: &str = "CREATE TABLE drafts (monday INTEGER PRIMARY KEY, revision INTEGER NOT NULL,
  report BLOB NOT NULL, export BLOB NOT NULL) STRICT";

const DRAFT_DRIVERS: &str =
    "CREATE TABLE draft_drivers (monday INTEGER NOT NULL REFERENCES drafts(monday) ON DELETE CASCADE,
  place INTEGER NOT NULL, driver TEXT NOT NULL, seen_monday INTEGER, seen_past TEXT,
  next_past TEXT NOT NULL, PRIMARY KEY (monday, place)) STRICT";

const ISSUES: &str =
    "CREATE TABLE issues (receipt INTEGER PRIMARY KEY, monday INTEGER NOT NULL UNIQUE,
  revision INTEGER NOT NULL, report BLOB NOT NULL, export BLOB NOT NULL) STRICT";

const FORMAT: &str = "CREATE TABLE format (version INTEGER NOT NULL) STRICT";

/// Whether there is a table of that name.
pub(crate) fn has_table<S: Alter>(tx: &mut Transaction<'_, S>, name: &str) -> Result<bool, Cause>
    ensures same { tx.new.conn.ghost_name ≡ tx.old.conn.ghost_name }
    ensures kept { CommitsNothing (state S.Store tx.old.conn.now) (state S.Store tx.new.conn.now) }
    ensures unchanged { HasCleanDisk (state S.Store tx.new.conn.now) → IfOk result (λ _. (state S.Store tx.new.conn.now).now ≡ (state S.Store tx.old.conn.now).now) }
{
    let rows = read(tx, table_query(), &[ValueRef::Text(name.as_bytes())])?;
    Ok(!rows.is_empty())
}

/// Makes a table where it is missing.
#[tactic(auto, using(crate::proofs::Keeping::then, crate::proofs::Keeping::nothing))]
fn make_table<S: Alter>(tx: &mut Transaction<'_, S>, name: &str, text: &str) -> Result<(), Cause>
    ensures same { tx.new.conn.ghost_name ≡ tx.old.conn.ghost_name }
    ensures kept { CommitsNothing (state S.Store tx.old.conn.now) (state S.Store tx.new.conn.now) }
{
    if !has_table(tx, name)? {
        write(tx, text, &[])?;
    }
    Ok(())
}

/// Makes the tables that are missing.
#[tactic(auto, using(crate::proofs::Keeping::then, crate::proofs::Keeping::nothing))]
pub(crate) fn make_tables<S: Alter>(tx: &mut Transaction<'_, S>) -> Result<(), Cause>
    ensures same { tx.new.conn.ghost_name ≡ tx.old.conn.ghost_name }
    ensures kept { CommitsNothing (state S.Store tx.old.conn.now) (state S.Store tx.new.conn.now) }
{
    make_table(tx, "histories", HISTORIES)?;
    make_table(tx, "drafts", DRAFTS)?;
    make_table(tx, "draft_drivers", DRAFT_DRIVERS)?;
    make_table(tx, "issues", ISSUES)?;
    make_table(tx, "format", FORMAT)
}

/// Sets the version of a store that has none.
pub(crate) fn set_version<S: Alter>(tx: &mut Transaction<'_, S>) -> Result<(), Cause>
    ensures same { tx.new.conn.ghost_name ≡ tx.old.conn.ghost_name }
    ensures kept { CommitsNothing (state S.Store tx.old.conn.now) (state S.Store tx.new.conn.now) }
{
    write(
        tx,
        "INSERT INTO format (version) VALUES (?1)",
        &[ValueRef::Int(VERSION)],
    )
}
