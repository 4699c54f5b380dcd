// What the fields of a record say: numbers, mark words and dates, each with its fault.
ghost use Rattle.std.specs.Prelude.{◌≡◌, ◌+◌, ◌≤◌, ◌<◌, ◌^◌, length};
ghost use Rattle.csv.specs.Records.{fields_of};
ghost use Rattle.minute_line.specs.Answers.{Gives};
ghost use Rattle.desk_csv.specs.declared.errors.CsvError.TheVariants.{Memory as WantOfMemory};
ghost use Rattle.desk_csv.specs.Fields.{field, counted, digits_from, digits_number, number_at, numbers_at, word_at, monday_said, monday_at, stamp_at};

use crate::errors::CsvError;
use csv::ByteRecord;
use minute_line::{Monday, minute_in, monday_in};
use week_book::Word;

/// The field of that number, from 1, or no bytes where there is none.
#[inline]
pub(crate) fn field(fields: &ByteRecord, n: u32) -> &[u8]
    requires { 1 ≤ n }
    ensures { result.now ≡ field n (fields_of fields.now) }
{
    match fields.get((n - 1) as usize) {
        Some(text) => text,
        None => &[],
    }
}

/// The number of fields, which the row's word asks to be `wanted`.
#[tactic(auto, unfolding(crate::specs::Fields::counted))]
#[inline]
pub(crate) fn count(row: u32, wanted: usize, fields: &ByteRecord) -> Result<usize, CsvError>
    requires { length (fields_of fields.now) < 2 ^ 32 }
    ensures { Gives WantOfMemory (λ n. n) result (counted row wanted (fields_of fields.now)) }
{
    if fields.len() == wanted {
        Ok(wanted)
    } else {
        Err(CsvError::Fields(row, fields.len() as u32))
    }
}

/// The number that at most ten ASCII digits make, which is 0 where there are none.
#[inline]
pub fn read_digits(text: &[u8]) -> Option<u64>
    requires { length text.now ≤ 10 }
    ensures { result ≡ digits_from 0 text.now }
{
    let mut number = 0;
    for byte in text {
        if *byte < b'0' || *byte > b'9' {
            return None;
        }
        number = 10 * number + (*byte - b'0') as u64;
    }
    Some(number)
}

/// The number that 1 to 10 ASCII digits make.
#[tactic(auto, unfolding(crate::specs::Fields::digits_number))]
#[inline]
pub fn read_number(text: &[u8]) -> Option<u64>
    ensures { result ≡ digits_number text.now }
{
    if text.is_empty() || text.len() > 10 {
        return None;
    }
    read_digits(text)
}

/// The number in a field.
#[tactic(auto, unfolding(crate::specs::Fields::number_at))]
#[inline]
pub(crate) fn number(row: u32, n: u32, fields: &ByteRecord) -> Result<u64, CsvError>
    requires { 1 ≤ n }
    ensures { Gives WantOfMemory (λ x. x) result (number_at row n (fields_of fields.now)) }
{
    read_number(field(fields, n)).ok_or(CsvError::Number(row, n))
}

/// The numbers in the sixteen fields from the fourth on.
#[inline]
pub(crate) fn sixteen(row: u32, fields: &ByteRecord) -> Result<[u64; 16], CsvError>
    ensures { Gives WantOfMemory (λ xs. xs) result (numbers_at row 4 16 (fields_of fields.now)) }
{
    let mut numbers = [0; 16];
    for i in 0..16 {
        numbers[i] = number(row, i as u32 + 4, fields)?;
    }
    Ok(numbers)
}

/// The mark word in a field.
#[tactic(auto, unfolding(crate::specs::Fields::word_at))]
#[inline]
pub(crate) fn word(row: u32, n: u32, fields: &ByteRecord) -> Result<Word, CsvError>
    requires { 1 ≤ n }
    ensures { Gives WantOfMemory (λ w. w) result (word_at row n (fields_of fields.now)) }
{
    let text = field(fields, n);
    if text == b"DRIVE".as_slice() {
        Ok(Word::Drive)
    } else if text == b"WORK".as_slice() {
        Ok(Word::Work)
    } else if text == b"READY".as_slice() {
        Ok(Word::Ready)
    } else if text == b"OFF".as_slice() {
        Ok(Word::Off)
    } else if text == b"DAILY".as_slice() {
        Ok(Word::Daily)
    } else if text == b"WEEKLY".as_slice() {
        Ok(Word::Weekly)
    } else {
        Err(CsvError::Word(row))
    }
}

/// The Monday of a text: YYYY-MM-DD, of the years 2000 to 2099.
#[inline]
pub fn read_monday(text: &[u8]) -> Option<Monday>
    ensures { result ≡ monday_said text.now }
{
    monday_in(text)
}

/// The Monday in a field.
#[tactic(auto, unfolding(crate::specs::Fields::monday_at))]
#[inline]
pub(crate) fn monday(row: u32, n: u32, fields: &ByteRecord) -> Result<Monday, CsvError>
    requires { 1 ≤ n }
    ensures { Gives WantOfMemory (λ m. m) result (monday_at row n (fields_of fields.now)) }
{
    read_monday(field(fields, n)).ok_or(CsvError::Stamp(row, n))
}

/// The stamp in a field, in minutes from the Monday.
#[tactic(auto, unfolding(crate::specs::Fields::stamp_at))]
#[inline]
pub(crate) fn stamp(monday: Monday, row: u32, n: u32, fields: &ByteRecord) -> Result<i64, CsvError>
    requires { 1 ≤ n }
    ensures { Gives WantOfMemory (λ m. m) result (stamp_at monday.day row n (fields_of fields.now)) }
{
    minute_in(monday, field(fields, n)).ok_or(CsvError::Stamp(row, n))
}
