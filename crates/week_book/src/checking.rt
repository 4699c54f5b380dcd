// The week of a week text: its faults in their order, then its tables.
ghost use Rattle.std.specs.Prelude.{◌≡◌, true, ◌≤◌, ◌<◌, ◌^◌, length, count_by, filter_map, Ok, IfOk, OnOk};
ghost use Rattle.std.specs.List.{list_any, list_all};
ghost use Rattle.minute_line.specs.Answers.{Gives};
ghost use Rattle.week_book.specs.declared.errors.What.TheVariants.{Places};
ghost use Rattle.week_book.specs.declared.errors.WeekError.TheVariants.{Memory};
ghost use Rattle.week_book.specs.Faults.{Passes};
ghost use Rattle.week_book.specs.Ranges.{keeps_ranges};
ghost use Rattle.week_book.specs.Texts.{begins_with_week, are_week_rows};
ghost use Rattle.week_book.specs.Numbers.{leg_in, order_in, place_names, drivers_of};
ghost use Rattle.week_book.specs.Checking.{is_of, limit_of, too_many, count_fault, counts_fault, fault_of, week_made, week_of};
ghost use Rattle.week_book.specs.Pasts.{HasPastRows};
ghost use Rattle.week_book.specs.Weeks.{IsWeek};

use crate::errors::{WeekError, What};
use crate::keys::check_doubles;
use crate::numbering::{Tables, driver_index, make_tables, place_index};
use crate::ranges::check_ranges;
use crate::rows::Row;
use crate::weeks::Week;
use minute_line::Many;
use std::alloc::Global;

impl What {
    /// The most of it that a week may have.
    pub fn limit(self) -> usize
        ensures { result ≡ limit_of self }
    {
        match self {
            What::Places => 64,
            What::Legs => 1024,
            What::Drivers => 16,
            What::Orders => 120,
        }
    }
}

impl Row {
    /// Whether it is a row of that kind.
    pub fn is_of(&self, what: What) -> bool
        ensures { result ≡ is_of what self.now }
    {
        match what {
            What::Places => matches!(self, Row::Place { .. }),
            What::Legs => matches!(self, Row::Leg { .. }),
            What::Drivers => matches!(self, Row::Driver { .. }),
            What::Orders => matches!(self, Row::Order { .. }),
        }
    }
}

fn count(rows: &[Row], what: What) -> usize
    ensures { result ≡ count_by (is_of what) rows.now }
{
    rows.iter().filter(|row| row.is_of(what)).count()
}

/// Passes a number of a kind that a week may have.
pub fn check_number(what: What, n: usize) -> Result<(), WeekError>
    requires { n < 2 ^ 32 }
    ensures { Passes result (too_many what n) }
{
    if n > what.limit() {
        return Err(WeekError::Count(what, n as u32));
    }
    Ok(())
}

fn check_count(rows: &[Row], what: What) -> Result<(), WeekError>
    requires { length rows.now ≤ 1048576 }
    ensures { Passes result (count_fault what rows.now) }
{
    check_number(what, count(rows, what))
}

fn check_counts(rows: &[Row]) -> Result<(), WeekError>
    requires { length rows.now ≤ 1048576 }
    ensures { Passes result (counts_fault rows.now) }
{
    check_count(rows, What::Places)?;
    check_count(rows, What::Legs)?;
    check_count(rows, What::Drivers)?;
    check_count(rows, What::Orders)
}

fn has_depot(rows: &[Row]) -> bool
    ensures { result ≡ list_any (is_of Places) rows.now }
{
    rows.iter().any(|row| row.is_of(What::Places))
}

// The tables of rows without a fault.
fn check_rows(alloc: Global, rows: &[Row]) -> Result<Tables, WeekError>
    requires { length rows.now ≤ 1048576 }
    ensures fault { Passes result (fault_of rows.now) }
    ensures places { IfOk result (λ tables. tables.places ≡ place_names rows.now) }
    ensures legs { IfOk result (λ tables. tables.legs ≡ filter_map (leg_in (place_names rows.now)) rows.now) }
    ensures drivers { IfOk result (λ tables. tables.drivers ≡ drivers_of rows.now) }
    ensures orders { IfOk result (λ tables. tables.orders ≡ filter_map (order_in (place_names rows.now)) rows.now) }
{
    check_counts(rows)?;
    if !has_depot(rows) {
        return Err(WeekError::NoDepot);
    }
    check_ranges(alloc, rows)?;
    check_doubles(alloc, rows)?;
    let places = place_index(alloc, rows)?;
    let drivers = driver_index(alloc, rows)?;
    make_tables(alloc, &places, &drivers, rows)
}

// The week of rows that begin with a week row, with their tables.
fn make_week(rows: &[Row], tables: Tables) -> Week
    requires begins { begins_with_week rows.now ≡ true }
    requires ranges { list_all keeps_ranges rows.now ≡ true }
    requires places { tables.places ≡ place_names rows.now }
    requires legs { tables.legs ≡ filter_map (leg_in (place_names rows.now)) rows.now }
    requires drivers { tables.drivers ≡ drivers_of rows.now }
    requires orders { tables.orders ≡ filter_map (order_in (place_names rows.now)) rows.now }
    ensures { week_made rows.now rows.now ≡ Ok result }
{
    let Some(
        Row::Week {
            monday,
            load,
            night,
            grid,
            ..
        },
    ) = rows.first()
    else {
        unreachable!()
    };
    Week {
        monday: *monday,
        load: *load as u32,
        night: *night,
        grid: *grid as u32,
        places: tables.places,
        legs: tables.legs,
        drivers: tables.drivers,
        orders: tables.orders,
    }
}

/// The week of the rows of a week text, in the order of the rows, with places, drivers and orders numbered by their
/// rows. The first row is the week row. Refusals are tried over all rows in the order of `WeekError`.
pub fn check_week(alloc: Global, rows: &Many<Row>) -> Result<Week, WeekError>
    requires few { length rows.now ≤ 1048576 }
    requires words { are_week_rows rows.now ≡ true }
    ensures week { Gives Memory (λ week. week) result (week_of rows.now) }
    ensures checked { IfOk result IsWeek }
    ensures rows { OnOk result (HasPastRows rows.now) }
{
    let rows = rows.as_slice();
    let tables = check_rows(alloc, rows)?;
    Ok(make_week(rows, tables))
}
