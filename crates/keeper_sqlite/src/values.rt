// Stored values as the desk's own. One that is none of them is unreadable.
ghost use Rattle.std.specs.Prelude.{◌≡◌, ◌≤◌, ◌↔◌, pos, IsOk, IfOk, IfSome};
ghost use Rattle.sqlite_value.specs.declared.value.Value.TheVariants.{Int};
ghost use Rattle.sqlite_value.specs.Order.{column};
ghost use Rattle.desk_keeper.specs.declared.records.TheConstants.{DRAFT_LIMIT};

use crate::causes::Cause;
use desk_keeper::{DRAFT_LIMIT, Kept};
use jiff_core::civil::{Date, Weekday};
use minute_line::{Bytes, History, Many, Monday, TextError, history_read};
use sqlite::Row;
use sqlite::types::ValueRef;
use std::alloc::Global;

/// The bytes of a text.
pub(crate) fn text_at(row: &Row, place: usize) -> Result<&[u8], Cause> {
    match row.get_ref(place)? {
        ValueRef::Text(bytes) => Ok(bytes),
        _ => Err(Cause::Unreadable),
    }
}

/// A copy of the bytes of a blob.
pub(crate) fn blob_at(alloc: Global, row: &Row, place: usize) -> Result<Bytes, Cause> {
    match row.get_ref(place)? {
        ValueRef::Blob(bytes) => Ok(Many::from_slice(alloc, bytes)?),
        _ => Err(Cause::Unreadable),
    }
}

/// A whole number.
pub(crate) fn number_at(row: &Row, place: usize) -> Result<i64, Cause>
    ensures { IfOk result (λ number. column row.now place ≡ Int number) }
{
    match row.get_ref(place)? {
        ValueRef::Int(number) => Ok(number),
        _ => Err(Cause::Unreadable),
    }
}

/// A revision, from 1 to the most drafts of a week.
pub(crate) fn revision_at(row: &Row, place: usize) -> Result<u64, Cause>
    ensures { IfOk result (λ revision. (1 ≤ revision) × (revision ≤ DRAFT_LIMIT)) }
{
    let number = number_at(row, place)?;
    if number < 1 {
        return Err(Cause::Unreadable);
    }
    let revision = number as u64;
    if revision > DRAFT_LIMIT {
        return Err(Cause::Unreadable);
    }
    Ok(revision)
}

/// The Monday with that day number.
pub(crate) fn monday_of(day: i64) -> Result<Monday, Cause>
    ensures { IfOk result (λ monday. monday.day ≡ day) }
{
    if day < 10_957 || day > 47_485 {
        return Err(Cause::Unreadable);
    }
    match Date::from_unix_epoch_day(day) {
        Ok(date) if date.weekday() == Weekday::Monday => Ok(Monday { day: day as i32 }),
        _ => Err(Cause::Unreadable),
    }
}

/// The history that a text is of.
pub(crate) fn past_of(alloc: Global, text: &[u8]) -> Result<History, Cause> {
    match history_read(alloc, text) {
        Ok(history) => Ok(history),
        Err(TextError::Bad) => Err(Cause::Unreadable),
        Err(TextError::Memory) => Err(Cause::Memory),
    }
}

/// The kept history of two columns, its Monday and its text.
pub(crate) fn kept_at(alloc: Global, row: &Row, day: usize, past: usize) -> Result<Kept, Cause> {
    Ok(Kept {
        monday: monday_of(number_at(row, day)?)?,
        past: past_of(alloc, text_at(row, past)?)?,
    })
}

/// The kept history of two columns, or none where both are NULL.
pub(crate) fn seen_at(
    alloc: Global,
    row: &Row,
    day: usize,
    past: usize,
) -> Result<Option<Kept>, Cause> {
    match (row.get_ref(day)?, row.get_ref(past)?) {
        (ValueRef::Null, ValueRef::Null) => Ok(None),
        _ => Ok(Some(kept_at(alloc, row, day, past)?)),
    }
}
