// The first field that lies outside its range.
ghost use Rattle.std.specs.Prelude.{◌≡◌, false, true, ◌<◌, [], ◌∷◌, ◌++◌, map, nat_le, IfOk, option_to_list};
ghost use Rattle.minute_line.specs.declared.lines.TheConstants.{WEEK_MINUTES};
ghost use Rattle.week_book.specs.Names.{is_name};
ghost use Rattle.week_book.specs.Faults.{row_number, Passes};
ghost use Rattle.week_book.specs.Ranges.{is_within, is_week_minute, is_close_of, is_grid, is_other_name, is_did_span, did_name, has_begun, fields_in_range, first_outside, range_fault};
ghost use Rattle.week_book.specs.Checking.{is_of};
ghost use Rattle.week_book.specs.Texts.{is_week, is_checked};
ghost use Rattle.week_book.specs.declared.errors.What.TheVariants.{Orders};

use crate::errors::WeekError;
use crate::fields::{
    first_outside, is_close_of, is_did_span, is_grid, is_other_name, is_week_minute, is_within,
    weeks_outside,
};
use crate::name_indexes::NameIndex;
use crate::names::is_name;
use crate::rows::{Row, Word};
use minute_line::WEEK_MINUTES;
use std::alloc::{AllocError, Global};

fn order_outside(row: &Row) -> Option<WeekError>
    ensures { is_of Orders row.now ≡ true → result ≡ first_outside (row_number row.now) 2 (fields_in_range false row.now) }
{
    match row {
        Row::Order {
            row,
            name,
            place,
            opens,
            closes,
            service,
            kg,
            price,
        } => first_outside(
            *row,
            &[
                is_name(name.as_slice()),
                is_name(place.as_slice()),
                is_week_minute(*opens),
                is_close_of(*opens, *closes),
                is_within(1, 360, *service),
                *kg <= 100_000,
                *price <= 100_000_000,
            ],
        ),
        _ => None,
    }
}

fn week_outside(row: u32, load: u64, night: u64, grid: u64) -> Option<WeekError>
    ensures { result ≡ first_outside row 2 (true ∷ is_within 1 240 load ∷ nat_le night 1000000 ∷ is_grid grid ∷ []) }
{
    let load = is_within(1, 240, load);
    first_outside(row, &[true, load, night <= 1_000_000, is_grid(grid)])
}

fn leg_outside(row: u32, from: &[u8], to: &[u8], minutes: u64, cents: u64) -> Option<WeekError>
    ensures { result ≡ first_outside row 2 (is_name from.now ∷ is_other_name from.now to.now ∷ is_within 1 270 minutes ∷ nat_le cents 1000000 ∷ []) }
{
    let minutes = is_within(1, 270, minutes);
    let cents = cents <= 1_000_000;
    first_outside(
        row,
        &[is_name(from), is_other_name(from, to), minutes, cents],
    )
}

fn worked_outside(row: u32, driver: &[u8], last: u64, weeks: &[u64; 16]) -> Option<WeekError>
    ensures { result ≡ first_outside row 2 (is_name driver.now ∷ nat_le last WEEK_MINUTES ∷ map (λ m. nat_le m WEEK_MINUTES) weeks.now) }
{
    if !is_name(driver) {
        return Some(WeekError::Range(row, 2));
    }
    if last > WEEK_MINUTES as u64 {
        return Some(WeekError::Range(row, 3));
    }
    weeks_outside(row, weeks)
}

fn past_outside(row: u32, driver: &[u8], minutes: u64) -> Option<WeekError>
    ensures { result ≡ first_outside row 2 (is_name driver.now ∷ true ∷ is_within 1 2000000 minutes ∷ []) }
{
    let minutes = is_within(1, 2_000_000, minutes);
    first_outside(row, &[is_name(driver), true, minutes])
}

fn did_outside(begun: bool, row: u32, driver: &[u8], word: Word, minutes: u64) -> Option<WeekError>
    ensures { result ≡ first_outside row 2 (is_name driver.now ∷ true ∷ is_did_span begun word minutes ∷ []) }
{
    let minutes = is_did_span(begun, word, minutes);
    first_outside(row, &[is_name(driver), true, minutes])
}

fn history_outside(begun: bool, row: &Row) -> Option<WeekError>
    ensures { is_checked row.now ≡ true → is_week row.now ≡ false → result ≡ first_outside (row_number row.now) 2 (fields_in_range begun row.now) }
{
    match row {
        Row::Rest {
            row,
            driver,
            end,
            minutes,
        } => {
            let minutes = is_within(1440, 1_000_000, *minutes);
            first_outside(*row, &[is_name(driver.as_slice()), *end <= 0, minutes])
        }
        Row::Worked {
            row,
            driver,
            last,
            weeks,
        } => worked_outside(*row, driver.as_slice(), *last, weeks),
        Row::Past {
            row,
            driver,
            minutes,
            ..
        } => past_outside(*row, driver.as_slice(), *minutes),
        Row::Did {
            row,
            driver,
            word,
            minutes,
        } => did_outside(begun, *row, driver.as_slice(), *word, *minutes),
        _ => None,
    }
}

fn outside(begun: bool, row: &Row) -> Option<WeekError>
    ensures { result ≡ first_outside (row_number row.now) 2 (fields_in_range begun row.now) }
{
    match row {
        Row::Week {
            row,
            load,
            night,
            grid,
            ..
        } => week_outside(*row, *load, *night, *grid),
        Row::Place { row, name } => first_outside(*row, &[is_name(name.as_slice())]),
        Row::Leg {
            row,
            from,
            to,
            minutes,
            cents,
        } => leg_outside(*row, from.as_slice(), to.as_slice(), *minutes, *cents),
        Row::Driver {
            row,
            name,
            capacity,
            fee,
        } => {
            let capacity = is_within(1, 100_000, *capacity);
            first_outside(
                *row,
                &[is_name(name.as_slice()), capacity, *fee <= 10_000_000],
            )
        }
        Row::Order { .. } => order_outside(row),
        _ => history_outside(begun, row),
    }
}

/// Whether it is a `did` row of one of these drivers.
fn has_begun(names: &NameIndex, row: &Row) -> bool
    ensures { result ≡ has_begun names.now row.now }
{
    match row {
        Row::Did { driver, .. } => names.has(driver.as_slice()),
        _ => false,
    }
}

/// The names, and that of a `did` row's driver.
fn with_did<'a>(names: NameIndex<'a>, row: &'a Row) -> Result<NameIndex<'a>, AllocError>
    ensures { IfOk result (λ more. more ≡ names.entry ++ option_to_list (did_name row.now)) }
{
    match row {
        Row::Did { driver, .. } => names.with(driver.as_slice()),
        _ => Ok(names),
    }
}

/// Passes rows whose fields are in their ranges.
pub fn check_ranges(alloc: Global, rows: &[Row]) -> Result<(), WeekError>
    ensures { Passes result (range_fault rows.now) }
{
    let mut begun = NameIndex::new(alloc);
    for row in rows {
        match outside(has_begun(&begun, row), row) {
            Some(fault) => return Err(fault),
            None => {}
        }
        begun = with_did(begun, row)?;
    }
    Ok(())
}
