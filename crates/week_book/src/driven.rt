// The drivers of a check text.
ghost use Rattle.std.specs.Prelude.{◌≡◌, true, ◌≤◌, ◌<◌, ◌^◌, length, IfOk, OnOk};
ghost use Rattle.minute_line.specs.Answers.{Gives};
ghost use Rattle.week_book.specs.declared.errors.WeekError.TheVariants.{Memory};
ghost use Rattle.week_book.specs.Faults.{Passes};
ghost use Rattle.week_book.specs.Texts.{are_check_rows};
ghost use Rattle.week_book.specs.Pasts.{HasPastRows};
ghost use Rattle.week_book.specs.Driven.{meet, driven, did_fault, did_of};

use crate::checking::check_number;
use crate::errors::{WeekError, What};
use crate::keys::check_doubles;
use crate::name_indexes::NameIndex;
use crate::numbering::check_drivers;
use crate::ranges::check_ranges;
use crate::rows::Row;
use minute_line::{Many, Name};
use std::alloc::{AllocError, Global};

/// The names, and that of a `did` row's driver unless it is there.
fn meet<'a>(names: NameIndex<'a>, row: &'a Row) -> Result<NameIndex<'a>, AllocError>
    ensures { IfOk result (λ more. more ≡ meet names.entry row.now) }
{
    match row {
        Row::Did { driver, .. } => {
            let name = driver.as_slice();
            if names.has(name) {
                return Ok(names);
            }
            names.with(name)
        }
        _ => Ok(names),
    }
}

fn driven<'a>(alloc: Global, rows: &'a [Row]) -> Result<NameIndex<'a>, AllocError>
    ensures { IfOk result (λ names. names ≡ driven rows.now) }
{
    let mut names = NameIndex::new(alloc);
    for row in rows {
        names = meet(names, row)?;
    }
    Ok(names)
}

fn check_rows(alloc: Global, rows: &[Row], drivers: &NameIndex) -> Result<(), WeekError>
    requires few { length drivers.now < 2 ^ 32 }
    requires drivers { drivers.now ≡ driven rows.now }
    ensures { Passes result (did_fault rows.now) }
{
    check_number(What::Drivers, drivers.len())?;
    check_ranges(alloc, rows)?;
    check_doubles(alloc, rows)?;
    check_drivers(drivers, rows)
}

/// The drivers of the rows of a check text, in the order in which their `did` rows first appear. The first row is the
/// week row. Refusals are tried over all rows in the order of `WeekError`; only drivers are counted.
pub fn check_did(alloc: Global, rows: &Many<Row>) -> Result<Many<Name>, WeekError>
    requires few { length rows.now ≤ 1048576 }
    requires words { are_check_rows rows.now ≡ true }
    ensures names { Gives Memory (λ names. names) result (did_of rows.now) }
    ensures rows { OnOk result (HasPastRows rows.now) }
{
    let rows = rows.as_slice();
    let drivers = driven(alloc, rows)?;
    check_rows(alloc, rows, &drivers)?;
    Ok(drivers.names(alloc)?)
}
