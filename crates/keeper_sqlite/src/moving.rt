// Histories' texts from before they told what is owed, moved on to the texts of today.
ghost use Rattle.std.specs.Prelude.{◌≡◌, ◌≢◌, Err, IsTrue, IfOk};
ghost use Rattle.minute_line.specs.Histories.{fields_of};
ghost use Rattle.minute_line.specs.Spelling.{older_spelling};
ghost use Rattle.minute_line.specs.declared.lines.History.{History as AHistory};
ghost use Rattle.sqlite.specs.Held.{state};
ghost use Rattle.store_texts.specs.Queries.{only_reads};
ghost use Rattle.keeper_sqlite.specs.Commits.{CommitsNothing};
ghost use Rattle.keeper_sqlite.specs.Moves.{MovesTo, IsMoved};
ghost use Rattle.keeper_sqlite.specs.declared.errors.OpenError.TheVariants.{Version};

use crate::errors::OpenError;
use crate::statements::{read, write};
use crate::values::{number_at, text_at};
use minute_line::{Bytes, TextError, history_text, upgrade};
use sqlite::types::ValueRef;
use sqlite::{Alter, Row, Transaction};
use std::alloc::Global;
use store_texts::{next_pasts_query, pasts_query, seen_pasts_query};

/// The text of today of a history whose older text is given, with the debt that its last weekly rest leaves. `Text` only
/// where the text is no history's older text.
pub(crate) fn moved_text(alloc: Global, text: &[u8]) -> Result<Bytes, OpenError>
    ensures moved { IfOk result (IsMoved text.now) }
    ensures back { (history : AHistory) → text.now ≡ older_spelling (fields_of history) → MovesTo history result }
    ensures version { (n : _) → result ≢ Err (Version n) }
{
    let history = match upgrade(alloc, text) {
        Ok(history) => history,
        Err(TextError::Bad) => return Err(OpenError::Text),
        Err(TextError::Memory) => return Err(OpenError::Memory),
    };
    Ok(history_text(alloc, &history)?)
}

/// Moves the text of one row, by the statement that sets it.
#[tactic(auto, using(crate::proofs::Keeping::then, crate::proofs::Keeping::nothing))]
fn move_row<S: Alter>(
    tx: &mut Transaction<'_, S>,
    alloc: Global,
    update: &str,
    row: &Row,
) -> Result<(), OpenError>
    ensures same { tx.new.conn.ghost_name ≡ tx.old.conn.ghost_name }
    ensures kept { CommitsNothing (state S.Store tx.old.conn.now) (state S.Store tx.new.conn.now) }
    ensures version { (n : _) → result ≢ Err (Version n) }
{
    let place = number_at(row, 0)?;
    let text = moved_text(alloc, text_at(row, 1)?)?;
    write(
        tx,
        update,
        &[ValueRef::Int(place), ValueRef::Text(text.as_slice())],
    )?;
    Ok(())
}

/// Moves the texts of these rows, by the statement that sets one.
#[tactic(auto, using(crate::proofs::Keeping::then, crate::proofs::Keeping::nothing))]
fn move_rows<S: Alter>(
    tx: &mut Transaction<'_, S>,
    alloc: Global,
    update: &str,
    rows: &[Row],
) -> Result<(), OpenError>
    ensures same { tx.new.conn.ghost_name ≡ tx.old.conn.ghost_name }
    ensures kept { CommitsNothing (state S.Store tx.old.conn.now) (state S.Store tx.new.conn.now) }
    ensures version { (n : _) → result ≢ Err (Version n) }
{
    for row in rows {
        move_row(tx, alloc, update, row)?;
    }
    Ok(())
}

/// Moves the texts of one column, by the statements that tell and set them by row.
#[tactic(auto, using(crate::proofs::Keeping::then, crate::proofs::Keeping::nothing))]
fn move_column<S: Alter>(
    tx: &mut Transaction<'_, S>,
    alloc: Global,
    select: &str,
    update: &str,
) -> Result<(), OpenError>
    requires reads { IsTrue (only_reads select.now) }
    ensures same { tx.new.conn.ghost_name ≡ tx.old.conn.ghost_name }
    ensures kept { CommitsNothing (state S.Store tx.old.conn.now) (state S.Store tx.new.conn.now) }
    ensures version { (n : _) → result ≢ Err (Version n) }
{
    let rows = read(tx, select, &[])?;
    move_rows(tx, alloc, update, rows.as_slice())
}

/// Moves every history's text of a store.
#[tactic(auto, using(crate::proofs::Keeping::then, crate::proofs::Keeping::nothing))]
pub(crate) fn move_texts<S: Alter>(
    tx: &mut Transaction<'_, S>,
    alloc: Global,
) -> Result<(), OpenError>
    ensures same { tx.new.conn.ghost_name ≡ tx.old.conn.ghost_name }
    ensures kept { CommitsNothing (state S.Store tx.old.conn.now) (state S.Store tx.new.conn.now) }
    ensures version { (n : _) → result ≢ Err (Version n) }
{
    move_column(
        tx,
        alloc,
        pasts_query(),
        "UPDATE histories SET past = ?2 WHERE rowid = ?1",
    )?;
    move_column(
        tx,
        alloc,
        seen_pasts_query(),
        "UPDATE draft_drivers SET seen_past = ?2 WHERE rowid = ?1",
    )?;
    move_column(
        tx,
        alloc,
        next_pasts_query(),
        "UPDATE draft_drivers SET next_past = ?2 WHERE rowid = ?1",
    )
}
