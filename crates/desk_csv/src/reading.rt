// A text read record by record, each at once as a row.
ghost use Rattle.std.specs.Prelude.{◌≡◌, ◌≤◌, ◌<◌, ◌^◌, length, Some, true, IfOk, IfErr, OnOk};
ghost use Rattle.csv.specs.Records.{fields_of};
ghost use Rattle.csv.specs.Reading.{ReadRecord, Ready, is_flexible, reader_trim, took_first};
ghost use Rattle.csv.specs.declared.reader.Trim.TheVariants as trim;
ghost use Rattle.minute_line.specs.Answers.{Gives};
ghost use Rattle.desk_csv.specs.declared.errors.CsvError.TheVariants.{Memory as WantOfMemory};
ghost use Rattle.desk_csv.specs.Reading.{records_of, first_monday, monday_for, rows_in, rows_of, are_rows, are_numbered};

use crate::errors::{CsvError, Form};
use crate::fields::{count, field, monday};
use crate::rows::read_row;
use csv::{ByteRecord, ErrorKind, Reader, ReaderBuilder};
use minute_line::{Bytes, Many, Monday};
use std::alloc::Global;
use std::str;
use week_book::Row;

/// The most bytes of a text.
pub const TEXT_LIMIT: usize = 1_048_576;

/// The Monday that stamps count from: the one that was found, or that of this record, which is the first.
#[tactic(auto, unfolding(crate::specs::Reading::first_monday))]
fn counted_from(first: Option<Monday>, fields: &ByteRecord) -> Result<Monday, CsvError>
    requires { length (fields_of fields.now) < 2 ^ 32 }
    ensures { Gives WantOfMemory (λ monday. monday) result (monday_for first (fields_of fields.now)) }
{
    if let Some(monday) = first {
        return Ok(monday);
    }
    if field(fields, 1) != b"week".as_slice() {
        return Err(CsvError::Word(1));
    }
    count(1, 5, fields)?;
    monday(1, 2, fields)
}

/// Whether a further record was read, of whatever length and bytes. So it fails for want of memory alone, or where the
/// reader of the bytes itself fails, which is a slice in memory: `csv` does not say that such a one never does.
fn next_record(reader: &mut Reader<&[u8]>, fields: &mut ByteRecord) -> Result<bool, CsvError>
    requires trim { reader_trim reader.old ≡ trim.None }
    requires flexible { is_flexible reader.old ≡ true }
    requires ready { Ready reader.old }
    ensures want { IfErr result (λ e. e ≡ WantOfMemory) }
    ensures reads { IfOk result (λ found. ReadRecord (λ s. Some s.now) reader.old reader.new found (fields_of fields.new)) }
    ensures ready { OnOk result (took_first reader.new ≡ true) }
    ensures flexible { OnOk result (is_flexible reader.new ≡ true) }
{
    match reader.read_byte_record(fields) {
        Ok(found) => Ok(found),
        Err(error) => match error.into_kind() {
            ErrorKind::OutOfMemory | ErrorKind::Io(_) => Err(CsvError::Memory),
            ErrorKind::UnequalLengths { .. }
            | ErrorKind::Utf8 { .. }
            | ErrorKind::Serialize(_)
            | ErrorKind::Deserialize { .. } => unreachable!(),
        },
    }
}

/// The rows of a text's records.
fn read_records(alloc: Global, text: &[u8], form: Form) -> Result<Many<Row>, CsvError>
    requires { length text.now ≤ TEXT_LIMIT }
    ensures rows { Gives WantOfMemory (λ rows. rows) result (rows_in form (records_of text.now)) }
    ensures few { IfOk result (λ rows. length rows ≤ 1048576) }
{
    let mut reader = ReaderBuilder::new()
        .has_headers(false)
        .flexible(true)
        .from_reader(alloc, text);
    let mut record = ByteRecord::new(alloc);
    let mut first = None;
    let mut rows = Many::new(alloc);
    while next_record(&mut reader, &mut record)? {
        let monday = counted_from(first, &record)?;
        let row = read_row(alloc, form, monday, rows.len() as u32 + 1, &record)?;
        rows.push(row)?;
        first = Some(monday);
    }
    match first {
        Some(_) => Ok(rows),
        None => Err(CsvError::Word(1)),
    }
}

/// The rows of a text in that form, in order. The text is refused for its first fault: bytes that are no UTF-8 come
/// first, then the first faulty row decides. In a row its word is tried, then its mark word, then the number of its
/// fields, then the fields from the left. Its time and its memory grow with the text's length.
pub fn read_rows(alloc: Global, text: &Bytes, form: Form) -> Result<Many<Row>, CsvError>
    requires { length text.now ≤ TEXT_LIMIT }
    ensures rows { Gives WantOfMemory (λ rows. rows) result (rows_of form text.now) }
    ensures few { IfOk result (λ rows. length rows ≤ 1048576) }
    ensures words { IfOk result (λ rows. are_rows form rows ≡ true) }
    ensures numbers { IfOk result (λ rows. are_numbered 1 rows ≡ true) }
{
    let bytes = text.as_slice();
    match str::from_utf8(bytes) {
        Ok(_) => read_records(alloc, bytes, form),
        Err(error) => Err(CsvError::Utf8(error.valid_up_to() as u32)),
    }
}
