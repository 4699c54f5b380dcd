// The first row that says again what a row before it has said.
ghost use Rattle.std.specs.Prelude.{◌≡◌, [], ◌∷◌, ◌++◌, IfOk, filter_map};
ghost use Rattle.week_book.specs.Faults.{Passes};
ghost use Rattle.week_book.specs.Keys.{key_of, keyed_of, repeat_after, double_fault};

use crate::errors::WeekError;
use crate::name_indexes::NameIndex;
use crate::rows::Row;
use minute_line::{Bytes, Memory};
use std::alloc::{AllocError, Global};

/// A key, and the number of the row that has it.
#[derive(Drop)]
pub struct Keyed {
    pub row: u32,
    pub key: Bytes,
}

fn key_with(alloc: Global, kind: u8, name: &[u8]) -> Result<Bytes, Memory>
    ensures { IfOk result (λ key. key ≡ kind ∷ name.now) }
{
    let mut key = Bytes::new(alloc);
    key.push(kind)?;
    key.extend_from_slice(name)?;
    Ok(key)
}

fn ends_key(alloc: Global, from: &[u8], to: &[u8]) -> Result<Bytes, Memory>
    ensures { IfOk result (λ key. key ≡ 2 ∷ (from.now ++ (44 ∷ to.now))) }
{
    let mut key = key_with(alloc, 2, from)?;
    key.push(b',')?;
    key.extend_from_slice(to)?;
    Ok(key)
}

fn key(alloc: Global, row: &Row) -> Result<Option<Bytes>, Memory>
    ensures { IfOk result (λ key. key ≡ key_of row.now) }
{
    match row {
        Row::Week { .. } => Ok(Some(key_with(alloc, 0, &[])?)),
        Row::Place { name, .. } => Ok(Some(key_with(alloc, 1, name.as_slice())?)),
        Row::Leg { from, to, .. } => Ok(Some(ends_key(alloc, from.as_slice(), to.as_slice())?)),
        Row::Driver { name, .. } => Ok(Some(key_with(alloc, 3, name.as_slice())?)),
        Row::Rest { driver, .. } => Ok(Some(key_with(alloc, 4, driver.as_slice())?)),
        Row::Worked { driver, .. } => Ok(Some(key_with(alloc, 5, driver.as_slice())?)),
        Row::Order { name, .. } => Ok(Some(key_with(alloc, 6, name.as_slice())?)),
        Row::Past { .. } | Row::Did { .. } => Ok(None),
    }
}

fn with_key(alloc: Global, row: &Row) -> Result<Option<Keyed>, Memory>
    ensures { IfOk result (λ keyed. keyed ≡ keyed_of row.now) }
{
    match key(alloc, row)? {
        None => Ok(None),
        Some(key) => Ok(Some(Keyed {
            row: row.number(),
            key,
        })),
    }
}

fn keys(alloc: Global, rows: &[Row]) -> Result<Vec<Keyed>, Memory>
    ensures { IfOk result (λ keys. keys.items ≡ filter_map keyed_of rows.now) }
{
    let mut keys = Vec::new(alloc);
    for row in rows {
        match with_key(alloc, row)? {
            None => {}
            Some(keyed) => keys.push(keyed)?,
        }
    }
    Ok(keys)
}

fn first_repeat(alloc: Global, keys: &[Keyed]) -> Result<Option<u32>, AllocError>
    ensures { IfOk result (λ row. row ≡ repeat_after [] keys.now) }
{
    let mut seen = NameIndex::new(alloc);
    for entry in keys {
        let key = entry.key.as_slice();
        if seen.has(key) {
            return Ok(Some(entry.row));
        }
        seen = seen.with(key)?;
    }
    Ok(None)
}

/// Passes rows none of which repeats a name of its kind, a leg's ends, a driver's `rest` or `worked` row, or the week
/// row.
pub fn check_doubles(alloc: Global, rows: &[Row]) -> Result<(), WeekError>
    ensures { Passes result (double_fault rows.now) }
{
    let keys = keys(alloc, rows)?;
    match first_repeat(alloc, keys.as_slice())? {
        None => Ok(()),
        Some(row) => Err(WeekError::Double(row)),
    }
}
