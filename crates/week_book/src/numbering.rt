// The tables of a week, with numbers for names, or the first name that no row defines.
ghost use Rattle.std.specs.Prelude.{◌≡◌, true, ◌≤◌, ◌++◌, length, filter_map, option_to_list, IfOk, OnOk};
ghost use Rattle.std.specs.List.{list_all};
ghost use Rattle.week_book.specs.Faults.{Passes};
ghost use Rattle.week_book.specs.Ranges.{keeps_ranges};
ghost use Rattle.week_book.specs.Numbers.{numbered, leg_in, order_in, place_names, drivers_of, driver_in, driver_names, unknown_name, unknown_driver, unknown_end, unknown_place, unknown_drivers, unknown_fault};

use crate::errors::WeekError;
use crate::name_indexes::NameIndex;
use crate::rows::Row;
use crate::weeks::{Driver, Leg, Order};
use minute_line::{Many, Memory, Name};
use std::alloc::{AllocError, Global};

/// The places of the rows, in order.
pub fn place_index<'a>(alloc: Global, rows: &'a [Row]) -> Result<NameIndex<'a>, AllocError>
    ensures { IfOk result (λ name_index. name_index ≡ place_names rows.now) }
{
    let mut name_index = NameIndex::new(alloc);
    for row in rows {
        if let Row::Place { name, .. } = row {
            name_index = name_index.with(name.as_slice())?;
        }
    }
    Ok(name_index)
}

/// The names of the drivers of the rows, in order.
pub fn driver_index<'a>(alloc: Global, rows: &'a [Row]) -> Result<NameIndex<'a>, AllocError>
    ensures { IfOk result (λ name_index. name_index ≡ driver_names rows.now) }
{
    let mut name_index = NameIndex::new(alloc);
    for row in rows {
        if let Row::Driver { name, .. } = row {
            name_index = name_index.with(name.as_slice())?;
        }
    }
    Ok(name_index)
}

// Passes a name that is one of the names.
fn check_name(names: &NameIndex, row: u32, field: u32, name: &[u8]) -> Result<(), WeekError>
    ensures { Passes result (unknown_name names.now row field name.now) }
{
    if names.has(name) {
        Ok(())
    } else {
        Err(WeekError::Unknown(row, field))
    }
}

// The number of a name that is one of the names.
fn numbered(names: &NameIndex, row: u32, field: u32, name: &[u8]) -> Result<u32, WeekError>
    requires { length names.now ≤ 64 }
    ensures known { Passes result (unknown_name names.now row field name.now) }
    ensures number { IfOk result (λ number. number ≡ numbered names.now name.now) }
{
    match names.number(name) {
        None => Err(WeekError::Unknown(row, field)),
        Some(number) => Ok(number as u32),
    }
}

// Passes a row whose driver, where it has a history's, is one of the drivers.
fn check_driver(drivers: &NameIndex, row: &Row) -> Result<(), WeekError>
    ensures { Passes result (unknown_driver drivers.now row.now) }
{
    match row {
        Row::Rest { row, driver, .. } => check_name(drivers, *row, 2, driver.as_slice()),
        Row::Worked { row, driver, .. } => check_name(drivers, *row, 2, driver.as_slice()),
        Row::Past { row, driver, .. } => check_name(drivers, *row, 2, driver.as_slice()),
        _ => Ok(()),
    }
}

fn leg_in(places: &NameIndex, row: &Row) -> Result<Option<Leg>, WeekError>
    requires few { length places.now ≤ 64 }
    requires ranges { keeps_ranges row.now ≡ true }
    ensures known { Passes result (unknown_end places.now row.now) }
    ensures leg { IfOk result (λ leg. leg ≡ leg_in places.now row.now) }
{
    match row {
        Row::Leg {
            row,
            from,
            to,
            minutes,
            cents,
        } => Ok(Some(Leg {
            from: numbered(places, *row, 2, from.as_slice())?,
            to: numbered(places, *row, 3, to.as_slice())?,
            minutes: *minutes as u32,
            cents: *cents,
        })),
        _ => Ok(None),
    }
}

fn driver_in(alloc: Global, row: &Row) -> Result<Option<Driver>, Memory>
    requires { keeps_ranges row.now ≡ true }
    ensures { IfOk result (λ driver. driver ≡ driver_in row.now) }
{
    match row {
        Row::Driver {
            name,
            capacity,
            fee,
            ..
        } => Ok(Some(Driver {
            name: Name::from_slice(alloc, name.as_slice())?,
            capacity: *capacity as u32,
            fee: *fee,
        })),
        _ => Ok(None),
    }
}

fn order_in(alloc: Global, places: &NameIndex, row: &Row) -> Result<Option<Order>, WeekError>
    requires few { length places.now ≤ 64 }
    requires ranges { keeps_ranges row.now ≡ true }
    ensures known { Passes result (unknown_place places.now row.now) }
    ensures order { IfOk result (λ order. order ≡ order_in places.now row.now) }
{
    match row {
        Row::Order {
            row,
            name,
            place,
            opens,
            closes,
            service,
            kg,
            price,
        } => Ok(Some(Order {
            place: numbered(places, *row, 3, place.as_slice())?,
            name: Name::from_slice(alloc, name.as_slice())?,
            opens: *opens as u32,
            closes: *closes as u32,
            service: *service as u32,
            kg: *kg as u32,
            price: *price,
        })),
        _ => Ok(None),
    }
}

/// Passes rows whose drivers, where they have a history's, are those.
pub fn check_drivers(drivers: &NameIndex, rows: &[Row]) -> Result<(), WeekError>
    ensures { Passes result (unknown_drivers drivers.now rows.now) }
{
    for row in rows {
        check_driver(drivers, row)?;
    }
    Ok(())
}

fn push_some<T: Drop>(items: &mut Many<T>, item: Option<T>) -> Result<(), Memory>
    ensures { OnOk result (items.new ≡ items.old ++ option_to_list item) }
{
    match item {
        None => Ok(()),
        Some(item) => items.push(item),
    }
}

/// The places, legs, drivers and orders of a week, in the order of their rows.
#[derive(Drop)]
pub struct Tables {
    pub places: Many<Name>,
    pub legs: Many<Leg>,
    pub drivers: Many<Driver>,
    pub orders: Many<Order>,
}

/// The tables of rows whose names are those of places and drivers. Each name is looked up once.
pub fn make_tables(
    alloc: Global,
    places: &NameIndex,
    drivers: &NameIndex,
    rows: &[Row],
) -> Result<Tables, WeekError>
    requires few { length places.now ≤ 64 }
    requires ranges { list_all keeps_ranges rows.now ≡ true }
    ensures known { Passes result (unknown_fault places.now drivers.now rows.now) }
    ensures places { IfOk result (λ tables. tables.places ≡ places.now) }
    ensures legs { IfOk result (λ tables. tables.legs ≡ filter_map (leg_in places.now) rows.now) }
    ensures drivers { IfOk result (λ tables. tables.drivers ≡ drivers_of rows.now) }
    ensures orders { IfOk result (λ tables. tables.orders ≡ filter_map (order_in places.now) rows.now) }
{
    let mut tables = Tables {
        places: places.names(alloc)?,
        legs: Many::new(alloc),
        drivers: Many::new(alloc),
        orders: Many::new(alloc),
    };
    for row in rows {
        check_driver(drivers, row)?;
        push_some(&mut tables.legs, leg_in(places, row)?)?;
        push_some(&mut tables.drivers, driver_in(alloc, row)?)?;
        push_some(&mut tables.orders, order_in(alloc, places, row)?)?;
    }
    Ok(tables)
}
