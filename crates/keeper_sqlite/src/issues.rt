// The table of issues, in the order of their receipts.
ghost use Rattle.std.specs.Prelude.{◌≡◌, ◌<◌, ◌^◌, false, IfOk};
ghost use Rattle.sqlite.specs.Held.{state};
ghost use Rattle.keeper_sqlite.specs.Commits.{CommitsNothing, KeepsCommitted};

use crate::causes::Cause;
use crate::drafts::remove_draft;
use crate::histories::put_histories;
use crate::statements::{read, write};
use crate::values::{blob_at, number_at, revision_at};
use desk_keeper::{Draft, Issue, next_monday};
use minute_line::Monday;
use sqlite::types::ValueRef;
use sqlite::{Alter, Connection, Row, Transaction};
use std::alloc::Global;
use store_texts::receipt_query;

/// The issue of a week's row.
fn issue_from(alloc: Global, monday: Monday, row: &Row) -> Result<Issue, Cause> {
    let receipt = number_at(row, 0)?;
    if receipt < 1 {
        return Err(Cause::Unreadable);
    }
    Ok(Issue {
        receipt: receipt as u64,
        monday,
        revision: revision_at(row, 1)?,
        report: blob_at(alloc, row, 2)?,
        export: blob_at(alloc, row, 3)?,
    })
}

/// The issue of a week.
pub(crate) fn issue_of<S: Alter>(
    connection: &mut Connection<S>,
    alloc: Global,
    monday: Monday,
) -> Result<Option<Issue>, Cause>
    requires idle { connection.old.in_transaction ≡ false }
    ensures idle { connection.new.in_transaction ≡ false }
{
    let rows = connection.query_all(
        "SELECT receipt, revision, report, export FROM issues WHERE monday = ?1",
        &[ValueRef::Int(monday.day as i64)],
    )?;
    match rows.first() {
        Some(row) => Ok(Some(issue_from(alloc, monday, row)?)),
        None => Ok(None),
    }
}

/// The greatest receipt, or 0 where there is no issue.
fn greatest_receipt<S: Alter>(tx: &mut Transaction<'_, S>) -> Result<i64, Cause>
    ensures same { tx.new.conn.ghost_name ≡ tx.old.conn.ghost_name }
    ensures kept { CommitsNothing (state S.Store tx.old.conn.now) (state S.Store tx.new.conn.now) }
{
    let rows = read(tx, receipt_query(), &[])?;
    match rows.first() {
        Some(row) => number_at(row, 0),
        None => Ok(0),
    }
}

/// The receipt after that one. After one below 0, and after the last one, there is none.
fn receipt_after(greatest: i64) -> Result<u64, Cause>
    ensures { IfOk result (λ receipt. receipt < 2 ^ 63) }
{
    if greatest < 0 || greatest == i64::MAX {
        return Err(Cause::Unreadable);
    }
    Ok(greatest as u64 + 1)
}

/// Adds the row of the issue that a draft becomes.
fn insert_issue<S: Alter>(
    tx: &mut Transaction<'_, S>,
    receipt: u64,
    draft: &Draft,
) -> Result<(), Cause>
    requires within { receipt < 2 ^ 63 }
    ensures same { tx.new.conn.ghost_name ≡ tx.old.conn.ghost_name }
    ensures kept { CommitsNothing (state S.Store tx.old.conn.now) (state S.Store tx.new.conn.now) }
{
    write(
        tx,
        "INSERT INTO issues (receipt, monday, revision, report, export) VALUES (?1, ?2, ?3, ?4, ?5)",
        &[
            ValueRef::Int(receipt as i64),
            ValueRef::Int(draft.monday.day as i64),
            ValueRef::Int(draft.revision as i64),
            ValueRef::Blob(draft.report.as_slice()),
            ValueRef::Blob(draft.export.as_slice()),
        ],
    )
}

/// Publishes a draft within a transaction, and gives the receipt: it is removed, and its drivers' histories move on.
#[tactic(auto, using(crate::proofs::Keeping::then, crate::proofs::Keeping::nothing))]
fn write_issue<S: Alter>(
    tx: &mut Transaction<'_, S>,
    alloc: Global,
    draft: &Draft,
) -> Result<u64, Cause>
    ensures same { tx.new.conn.ghost_name ≡ tx.old.conn.ghost_name }
    ensures kept { CommitsNothing (state S.Store tx.old.conn.now) (state S.Store tx.new.conn.now) }
{
    let receipt = receipt_after(greatest_receipt(tx)?)?;
    insert_issue(tx, receipt, draft)?;
    let monday = next_monday(draft.monday);
    put_histories(tx, alloc, monday, draft.drivers.as_slice())?;
    remove_draft(tx, draft.monday)?;
    Ok(receipt)
}

/// The same, as one transaction.
pub(crate) fn publish<S: Alter>(
    connection: &mut Connection<S>,
    alloc: Global,
    draft: &Draft,
) -> Result<u64, Cause>
    requires idle { connection.old.in_transaction ≡ false }
    ensures idle { connection.new.in_transaction ≡ false }
    ensures kept { KeepsCommitted result (state S.Store connection.old) (state S.Store connection.new) }
{
    let mut tx = connection.transaction();
    let receipt = write_issue(&mut tx, alloc, draft)?;
    tx.commit()?;
    Ok(receipt)
}
