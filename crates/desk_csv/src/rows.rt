// The row that a record says: its word, then the number of its fields, then its fields from the left.
ghost use Rattle.std.specs.Prelude.{◌≤◌, ◌<◌, ◌^◌, length, Ok};
ghost use Rattle.csv.specs.Records.{fields_of};
ghost use Rattle.minute_line.specs.Answers.{Gives};
ghost use Rattle.desk_csv.specs.declared.errors.CsvError.TheVariants.{Memory as WantOfMemory};
ghost use Rattle.desk_csv.specs.Fields.{field};
ghost use Rattle.desk_csv.specs.RowKinds.{week_at, place_at, leg_at, driver_at, rest_at, worked_at, marked_at, past_at, did_at, order_at, own_row_at, row_at};

use crate::errors::{CsvError, Form};
use crate::fields::{count, field, monday, number, sixteen, stamp, word};
use csv::ByteRecord;
use minute_line::{Monday, Name};
use std::alloc::Global;
use week_book::{Row, Word};

/// The name in a field, which may be any bytes.
#[inline(always)]
fn name(alloc: Global, n: u32, fields: &ByteRecord) -> Result<Name, CsvError>
    requires { 1 ≤ n }
    ensures { Gives WantOfMemory (λ name. name) result (Ok (field n (fields_of fields.now))) }
{
    Ok(Name::from_slice(alloc, field(fields, n))?)
}

/// A week row.
#[tactic(auto, unfolding(crate::specs::RowKinds::week_at))]
#[inline(always)]
fn week(row: u32, fields: &ByteRecord) -> Result<Row, CsvError>
    requires { length (fields_of fields.now) < 2 ^ 32 }
    ensures { Gives WantOfMemory (λ row. row) result (week_at row (fields_of fields.now)) }
{
    count(row, 5, fields)?;
    Ok(Row::Week {
        row,
        monday: monday(row, 2, fields)?,
        load: number(row, 3, fields)?,
        night: number(row, 4, fields)?,
        grid: number(row, 5, fields)?,
    })
}

/// A place row.
#[tactic(auto, unfolding(crate::specs::RowKinds::place_at))]
#[inline(always)]
fn place(alloc: Global, row: u32, fields: &ByteRecord) -> Result<Row, CsvError>
    requires { length (fields_of fields.now) < 2 ^ 32 }
    ensures { Gives WantOfMemory (λ row. row) result (place_at row (fields_of fields.now)) }
{
    count(row, 2, fields)?;
    Ok(Row::Place {
        row,
        name: name(alloc, 2, fields)?,
    })
}

/// A leg row.
#[tactic(auto, unfolding(crate::specs::RowKinds::leg_at))]
#[inline(always)]
fn leg(alloc: Global, row: u32, fields: &ByteRecord) -> Result<Row, CsvError>
    requires { length (fields_of fields.now) < 2 ^ 32 }
    ensures { Gives WantOfMemory (λ row. row) result (leg_at row (fields_of fields.now)) }
{
    count(row, 5, fields)?;
    Ok(Row::Leg {
        row,
        minutes: number(row, 4, fields)?,
        cents: number(row, 5, fields)?,
        from: name(alloc, 2, fields)?,
        to: name(alloc, 3, fields)?,
    })
}

/// A driver row.
#[tactic(auto, unfolding(crate::specs::RowKinds::driver_at))]
#[inline(always)]
fn driver(alloc: Global, row: u32, fields: &ByteRecord) -> Result<Row, CsvError>
    requires { length (fields_of fields.now) < 2 ^ 32 }
    ensures { Gives WantOfMemory (λ row. row) result (driver_at row (fields_of fields.now)) }
{
    count(row, 4, fields)?;
    Ok(Row::Driver {
        row,
        capacity: number(row, 3, fields)?,
        fee: number(row, 4, fields)?,
        name: name(alloc, 2, fields)?,
    })
}

/// A rest row.
#[tactic(auto, unfolding(crate::specs::RowKinds::rest_at))]
#[inline(always)]
fn rest(alloc: Global, monday: Monday, row: u32, fields: &ByteRecord) -> Result<Row, CsvError>
    requires { length (fields_of fields.now) < 2 ^ 32 }
    ensures { Gives WantOfMemory (λ row. row) result (rest_at monday.day row (fields_of fields.now)) }
{
    count(row, 4, fields)?;
    Ok(Row::Rest {
        row,
        end: stamp(monday, row, 3, fields)?,
        minutes: number(row, 4, fields)?,
        driver: name(alloc, 2, fields)?,
    })
}

/// A worked row.
#[tactic(auto, unfolding(crate::specs::RowKinds::worked_at))]
#[inline(always)]
fn worked(alloc: Global, row: u32, fields: &ByteRecord) -> Result<Row, CsvError>
    requires { length (fields_of fields.now) < 2 ^ 32 }
    ensures { Gives WantOfMemory (λ row. row) result (worked_at row (fields_of fields.now)) }
{
    count(row, 19, fields)?;
    Ok(Row::Worked {
        row,
        last: number(row, 3, fields)?,
        weeks: sixteen(row, fields)?,
        driver: name(alloc, 2, fields)?,
    })
}

/// The mark word of a `past` or `did` row, which is tried before the number of fields where there are three.
#[tactic(auto, unfolding(crate::specs::RowKinds::marked_at))]
#[inline(always)]
fn marked(row: u32, fields: &ByteRecord) -> Result<Word, CsvError>
    requires { length (fields_of fields.now) < 2 ^ 32 }
    ensures { Gives WantOfMemory (λ word. word) result (marked_at row (fields_of fields.now)) }
{
    if fields.len() < 3 {
        return Err(CsvError::Fields(row, fields.len() as u32));
    }
    let word = word(row, 3, fields)?;
    count(row, 4, fields)?;
    Ok(word)
}

/// A past row.
#[tactic(auto, unfolding(crate::specs::RowKinds::past_at))]
#[inline(always)]
fn past(alloc: Global, row: u32, fields: &ByteRecord) -> Result<Row, CsvError>
    requires { length (fields_of fields.now) < 2 ^ 32 }
    ensures { Gives WantOfMemory (λ row. row) result (past_at row (fields_of fields.now)) }
{
    Ok(Row::Past {
        row,
        word: marked(row, fields)?,
        minutes: number(row, 4, fields)?,
        driver: name(alloc, 2, fields)?,
    })
}

/// A did row.
#[tactic(auto, unfolding(crate::specs::RowKinds::did_at))]
#[inline(always)]
fn did(alloc: Global, row: u32, fields: &ByteRecord) -> Result<Row, CsvError>
    requires { length (fields_of fields.now) < 2 ^ 32 }
    ensures { Gives WantOfMemory (λ row. row) result (did_at row (fields_of fields.now)) }
{
    Ok(Row::Did {
        row,
        word: marked(row, fields)?,
        minutes: number(row, 4, fields)?,
        driver: name(alloc, 2, fields)?,
    })
}

/// An order row.
#[tactic(auto, unfolding(crate::specs::RowKinds::order_at))]
#[inline(always)]
fn order(alloc: Global, monday: Monday, row: u32, fields: &ByteRecord) -> Result<Row, CsvError>
    requires { length (fields_of fields.now) < 2 ^ 32 }
    ensures { Gives WantOfMemory (λ row. row) result (order_at monday.day row (fields_of fields.now)) }
{
    count(row, 8, fields)?;
    Ok(Row::Order {
        row,
        opens: stamp(monday, row, 4, fields)?,
        closes: stamp(monday, row, 5, fields)?,
        service: number(row, 6, fields)?,
        kg: number(row, 7, fields)?,
        price: number(row, 8, fields)?,
        name: name(alloc, 2, fields)?,
        place: name(alloc, 3, fields)?,
    })
}

/// A row whose word one form alone has.
#[tactic(auto, unfolding(crate::specs::RowKinds::own_row_at))]
#[inline(always)]
fn own_row(
    alloc: Global,
    form: Form,
    monday: Monday,
    row: u32,
    fields: &ByteRecord,
) -> Result<Row, CsvError>
    requires { length (fields_of fields.now) < 2 ^ 32 }
    ensures { Gives WantOfMemory (λ row. row) result (own_row_at form monday.day row (fields_of fields.now)) }
{
    let word = field(fields, 1);
    match form {
        Form::Plan => {
            if word == b"place".as_slice() {
                place(alloc, row, fields)
            } else if word == b"leg".as_slice() {
                leg(alloc, row, fields)
            } else if word == b"driver".as_slice() {
                driver(alloc, row, fields)
            } else if word == b"order".as_slice() {
                order(alloc, monday, row, fields)
            } else {
                Err(CsvError::Word(row))
            }
        }
        Form::Check => {
            if word == b"did".as_slice() {
                did(alloc, row, fields)
            } else {
                Err(CsvError::Word(row))
            }
        }
    }
}

/// The row that a record says, in a text of that form.
#[tactic(auto, unfolding(crate::specs::RowKinds::row_at))]
#[inline(always)]
pub(crate) fn read_row(
    alloc: Global,
    form: Form,
    monday: Monday,
    row: u32,
    fields: &ByteRecord,
) -> Result<Row, CsvError>
    requires { length (fields_of fields.now) < 2 ^ 32 }
    ensures { Gives WantOfMemory (λ row. row) result (row_at form monday.day row (fields_of fields.now)) }
{
    let word = field(fields, 1);
    if word == b"week".as_slice() {
        week(row, fields)
    } else if word == b"rest".as_slice() {
        rest(alloc, monday, row, fields)
    } else if word == b"worked".as_slice() {
        worked(alloc, row, fields)
    } else if word == b"past".as_slice() {
        past(alloc, row, fields)
    } else {
        own_row(alloc, form, monday, row, fields)
    }
}
