// The table of drivers' histories: what is kept of a driver, one row for each.
ghost use Rattle.std.specs.Prelude.{◌≡◌, false};
ghost use Rattle.sqlite.specs.Held.{state};
ghost use Rattle.keeper_sqlite.specs.Commits.{CommitsNothing};

use crate::causes::Cause;
use crate::statements::write;
use crate::values::kept_at;
use desk_keeper::{DraftDriver, Kept};
use minute_line::{Monday, Name, history_text};
use sqlite::types::ValueRef;
use sqlite::{Alter, Connection, Transaction};
use std::alloc::Global;

/// What is kept of a driver.
pub(crate) fn history_of<S: Alter>(
    connection: &mut Connection<S>,
    alloc: Global,
    driver: &Name,
) -> Result<Option<Kept>, Cause>
    requires idle { connection.old.in_transaction ≡ false }
    ensures idle { connection.new.in_transaction ≡ false }
{
    let rows = connection.query_all(
        "SELECT monday, past FROM histories WHERE driver = ?1",
        &[ValueRef::Text(driver.as_slice())],
    )?;
    match rows.first() {
        Some(row) => Ok(Some(kept_at(alloc, row, 0, 1)?)),
        None => Ok(None),
    }
}

/// Keeps the history after a planned week, in the place of what was kept of the driver.
#[tactic(auto, using(crate::proofs::Keeping::then, crate::proofs::Keeping::nothing))]
pub(crate) fn put_history<S: Alter>(
    tx: &mut Transaction<'_, S>,
    alloc: Global,
    monday: Monday,
    driver: &DraftDriver,
) -> Result<(), Cause>
    ensures same { tx.new.conn.ghost_name ≡ tx.old.conn.ghost_name }
    ensures kept { CommitsNothing (state S.Store tx.old.conn.now) (state S.Store tx.new.conn.now) }
{
    let past = history_text(alloc, &driver.next)?;
    write(
        tx,
        "INSERT INTO histories (driver, monday, past) VALUES (?1, ?2, ?3)
         ON CONFLICT (driver) DO UPDATE SET monday = excluded.monday, past = excluded.past",
        &[
            ValueRef::Text(driver.name.as_slice()),
            ValueRef::Int(monday.day as i64),
            ValueRef::Text(past.as_slice()),
        ],
    )
}

/// Keeps the histories of these drivers after a planned week, up to that Monday.
#[tactic(auto, using(crate::proofs::Keeping::then, crate::proofs::Keeping::nothing))]
pub(crate) fn put_histories<S: Alter>(
    tx: &mut Transaction<'_, S>,
    alloc: Global,
    monday: Monday,
    drivers: &[DraftDriver],
) -> Result<(), Cause>
    ensures same { tx.new.conn.ghost_name ≡ tx.old.conn.ghost_name }
    ensures kept { CommitsNothing (state S.Store tx.old.conn.now) (state S.Store tx.new.conn.now) }
{
    for driver in drivers {
        put_history(tx, alloc, monday, driver)?;
    }
    Ok(())
}
