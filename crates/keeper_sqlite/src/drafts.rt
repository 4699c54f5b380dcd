// The tables of drafts and of their drivers. A draft's drivers go with it.
ghost use Rattle.std.specs.Prelude.{◌≡◌, false, map, IfOk};
ghost use Rattle.std.specs.List.{list_any};
ghost use Rattle.std.specs.Str.{bytes_eq};
ghost use Rattle.desk_keeper.specs.Tables.{driver_fields, AreNamedOnce};
ghost use Rattle.sqlite.specs.Held.{state};
ghost use Rattle.keeper_sqlite.specs.Commits.{CommitsNothing, KeepsCommitted};

use crate::causes::Cause;
use crate::statements::{read, write};
use crate::values::{blob_at, past_of, revision_at, seen_at, text_at};
use desk_keeper::{Draft, DraftDriver, Kept};
use minute_line::{Bytes, Many, Memory, Monday, Name, history_text};
use sqlite::types::ValueRef;
use sqlite::{Alter, Connection, Row, Transaction};
use std::alloc::Global;
use store_texts::{draft_query, drivers_query};

/// Whether one of the drivers has that name.
fn is_named(drivers: &[DraftDriver], name: &Name) -> bool
    ensures { result ≡ list_any (λ driver. bytes_eq driver.name name.now) drivers.now }
{
    drivers
        .iter()
        .any(|driver| driver.name.as_slice() == name.as_slice())
}

/// Adds a driver. One whose name an earlier one has is unreadable.
fn push_driver(drivers: &mut Many<DraftDriver>, driver: DraftDriver) -> Result<(), Cause>
    requires once { AreNamedOnce (map driver_fields drivers.old) }
    ensures once { AreNamedOnce (map driver_fields drivers.new) }
{
    if is_named(drivers.as_slice(), &driver.name) {
        return Err(Cause::Unreadable);
    }
    drivers.push(driver)?;
    Ok(())
}

/// The driver of a row.
fn driver_from(alloc: Global, row: &Row) -> Result<DraftDriver, Cause> {
    Ok(DraftDriver {
        name: Many::from_slice(alloc, text_at(row, 0)?)?,
        seen: seen_at(alloc, row, 1, 2)?,
        next: past_of(alloc, text_at(row, 3)?)?,
    })
}

/// The drivers of the rows, each named once.
fn drivers_from(alloc: Global, rows: &[Row]) -> Result<Many<DraftDriver>, Cause>
    ensures { IfOk result (λ drivers. AreNamedOnce (map driver_fields drivers)) }
{
    let mut drivers = Many::new(alloc);
    for row in rows {
        push_driver(&mut drivers, driver_from(alloc, row)?)?;
    }
    Ok(drivers)
}

/// The draft of a week, of its row and its drivers.
fn draft_from(
    alloc: Global,
    monday: Monday,
    row: &Row,
    drivers: Many<DraftDriver>,
) -> Result<Draft, Cause>
    requires once { AreNamedOnce (map driver_fields drivers) }
{
    if monday.day > 47_478 {
        return Err(Cause::Unreadable);
    }
    Ok(Draft {
        monday,
        revision: revision_at(row, 0)?,
        drivers,
        report: blob_at(alloc, row, 1)?,
        export: blob_at(alloc, row, 2)?,
    })
}

/// The drivers of a week's draft.
fn drivers_in<S: Alter>(
    tx: &mut Transaction<'_, S>,
    alloc: Global,
    monday: Monday,
) -> Result<Many<DraftDriver>, Cause>
    ensures same { tx.new.conn.ghost_name ≡ tx.old.conn.ghost_name }
    ensures kept { CommitsNothing (state S.Store tx.old.conn.now) (state S.Store tx.new.conn.now) }
    ensures once { IfOk result (λ drivers. AreNamedOnce (map driver_fields drivers)) }
{
    let rows = read(tx, drivers_query(), &[ValueRef::Int(monday.day as i64)])?;
    drivers_from(alloc, rows.as_slice())
}

/// The draft of a week, within a transaction.
#[tactic(auto, using(crate::proofs::Keeping::then, crate::proofs::Keeping::nothing))]
fn draft_in<S: Alter>(
    tx: &mut Transaction<'_, S>,
    alloc: Global,
    monday: Monday,
) -> Result<Option<Draft>, Cause>
    ensures same { tx.new.conn.ghost_name ≡ tx.old.conn.ghost_name }
    ensures kept { CommitsNothing (state S.Store tx.old.conn.now) (state S.Store tx.new.conn.now) }
{
    let rows = read(tx, draft_query(), &[ValueRef::Int(monday.day as i64)])?;
    match rows.first() {
        Some(row) => {
            let drivers = drivers_in(tx, alloc, monday)?;
            Ok(Some(draft_from(alloc, monday, row, drivers)?))
        }
        None => Ok(None),
    }
}

/// The draft of a week.
pub(crate) fn draft_of<S: Alter>(
    connection: &mut Connection<S>,
    alloc: Global,
    monday: Monday,
) -> Result<Option<Draft>, Cause>
    requires idle { connection.old.in_transaction ≡ false }
    ensures idle { connection.new.in_transaction ≡ false }
{
    let mut tx = connection.transaction();
    let draft = draft_in(&mut tx, alloc, monday)?;
    tx.rollback();
    Ok(draft)
}

/// Removes the draft of a week, and its drivers with it.
pub(crate) fn remove_draft<S: Alter>(
    tx: &mut Transaction<'_, S>,
    monday: Monday,
) -> Result<(), Cause>
    ensures same { tx.new.conn.ghost_name ≡ tx.old.conn.ghost_name }
    ensures kept { CommitsNothing (state S.Store tx.old.conn.now) (state S.Store tx.new.conn.now) }
{
    write(
        tx,
        "DELETE FROM drafts WHERE monday = ?1",
        &[ValueRef::Int(monday.day as i64)],
    )
}

/// Adds the row of a draft.
fn insert_draft<S: Alter>(tx: &mut Transaction<'_, S>, draft: &Draft) -> Result<(), Cause>
    ensures same { tx.new.conn.ghost_name ≡ tx.old.conn.ghost_name }
    ensures kept { CommitsNothing (state S.Store tx.old.conn.now) (state S.Store tx.new.conn.now) }
{
    write(
        tx,
        "INSERT INTO drafts (monday, revision, report, export) VALUES (?1, ?2, ?3, ?4)",
        &[
            ValueRef::Int(draft.monday.day as i64),
            ValueRef::Int(draft.revision as i64),
            ValueRef::Blob(draft.report.as_slice()),
            ValueRef::Blob(draft.export.as_slice()),
        ],
    )
}

/// The text of a history, if there is one.
fn seen_text(alloc: Global, seen: &Option<Kept>) -> Result<Option<Bytes>, Memory> {
    match seen {
        Some(kept) => Ok(Some(history_text(alloc, &kept.past)?)),
        None => Ok(None),
    }
}

/// The day number of what was kept, or NULL.
fn seen_day(seen: &Option<Kept>) -> ValueRef<'static> {
    match seen {
        Some(kept) => ValueRef::Int(kept.monday.day as i64),
        None => ValueRef::Null,
    }
}

/// A text, or NULL.
fn text_or_null(text: &Option<Bytes>) -> ValueRef<'_> {
    match text {
        Some(bytes) => ValueRef::Text(bytes.as_slice()),
        None => ValueRef::Null,
    }
}

/// Adds the row of a driver at a place of a draft.
#[tactic(auto, using(crate::proofs::Keeping::then, crate::proofs::Keeping::nothing))]
fn insert_driver<S: Alter>(
    tx: &mut Transaction<'_, S>,
    alloc: Global,
    monday: Monday,
    place: i64,
    driver: &DraftDriver,
) -> Result<(), Cause>
    ensures same { tx.new.conn.ghost_name ≡ tx.old.conn.ghost_name }
    ensures kept { CommitsNothing (state S.Store tx.old.conn.now) (state S.Store tx.new.conn.now) }
{
    let seen = seen_text(alloc, &driver.seen)?;
    let next = history_text(alloc, &driver.next)?;
    write(
        tx,
        "INSERT INTO draft_drivers (monday, place, driver, seen_monday, seen_past, next_past)
         VALUES (?1, ?2, ?3, ?4, ?5, ?6)",
        &[
            ValueRef::Int(monday.day as i64),
            ValueRef::Int(place),
            ValueRef::Text(driver.name.as_slice()),
            seen_day(&driver.seen),
            text_or_null(&seen),
            ValueRef::Text(next.as_slice()),
        ],
    )
}

/// Adds the rows of a draft's drivers, in their order.
#[tactic(auto, using(crate::proofs::Keeping::then, crate::proofs::Keeping::nothing))]
fn insert_drivers<S: Alter>(
    tx: &mut Transaction<'_, S>,
    alloc: Global,
    draft: &Draft,
) -> Result<(), Cause>
    ensures same { tx.new.conn.ghost_name ≡ tx.old.conn.ghost_name }
    ensures kept { CommitsNothing (state S.Store tx.old.conn.now) (state S.Store tx.new.conn.now) }
{
    let mut place: i64 = 0;
    for driver in draft.drivers.as_slice() {
        insert_driver(tx, alloc, draft.monday, place, driver)?;
        place = place.saturating_add(1);
    }
    Ok(())
}

/// Keeps a draft in the place of its week's last one, within a transaction.
#[tactic(auto, using(crate::proofs::Keeping::then, crate::proofs::Keeping::nothing))]
fn write_draft<S: Alter>(
    tx: &mut Transaction<'_, S>,
    alloc: Global,
    draft: &Draft,
) -> Result<(), Cause>
    ensures same { tx.new.conn.ghost_name ≡ tx.old.conn.ghost_name }
    ensures kept { CommitsNothing (state S.Store tx.old.conn.now) (state S.Store tx.new.conn.now) }
{
    remove_draft(tx, draft.monday)?;
    insert_draft(tx, draft)?;
    insert_drivers(tx, alloc, draft)
}

/// The same, as one transaction.
pub(crate) fn put_draft<S: Alter>(
    connection: &mut Connection<S>,
    alloc: Global,
    draft: &Draft,
) -> Result<(), Cause>
    requires idle { connection.old.in_transaction ≡ false }
    ensures idle { connection.new.in_transaction ≡ false }
    ensures kept { KeepsCommitted result (state S.Store connection.old) (state S.Store connection.new) }
{
    let mut tx = connection.transaction();
    write_draft(&mut tx, alloc, draft)?;
    tx.commit()?;
    Ok(())
}
